//! The payload of an object that is put.
ghost use Rattle.std.specs.Prelude.{◌≡◌, IfOk};
ghost use Rattle.eden_objects.specs.Payloads.{payload_bytes};

use bytes::Bytes;
use eden_ids::NoMemory;
use std::alloc::Global;

/// The payload of an object that is put.
///
/// An object that is new takes the payload into the store. One that is there already, or
/// is refused, leaves it.
#[derive(Clone, Copy)]
pub enum Payload<'a> {
    /// Bytes that the store copies.
    Copied(&'a [u8]),
    /// Bytes that the store shares: it becomes one more owner, and copies none.
    Shared(&'a Bytes),
}

impl<'a> Payload<'a> {
    /// Returns the bytes. Does not allocate.
    pub fn as_slice(self) -> &'a [u8]
        ensures { result.now ≡ payload_bytes self.entry }
    {
        match self {
            Payload::Copied(bytes) => bytes,
            Payload::Shared(bytes) => bytes.as_slice(),
        }
    }

    /// Returns the bytes as a store keeps them: a copy, or one more owner.
    pub(crate) fn to_bytes(self, alloc: Global) -> Result<Bytes, NoMemory>
        ensures { IfOk result (λ bytes. bytes ≡ payload_bytes self.entry) }
    {
        match self {
            Payload::Copied(bytes) => Ok(Bytes::copy_from_slice(alloc, bytes)?),
            Payload::Shared(bytes) => Ok(bytes.clone()?),
        }
    }
}
