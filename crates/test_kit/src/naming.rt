//! A naming under which objects collide.

use eden_ids::{Id, Naming};

/// A naming under which objects come to the same id: twenty copies of the payload's first byte, 0 where it has none.
#[derive(Clone, Copy)]
pub struct FirstByte;

impl Naming for FirstByte {
    ghost use Rattle.std.specs.Prelude.{slice_index, replicate};

    ghost id = { λ word payload. record { 0 = replicate 20 (slice_index payload 0) } };

    fn id_of(&self, _word: &[u8], payload: &[u8]) -> Id {
        match payload.first() {
            Some(byte) => Id([*byte; 20]),
            None => Id([0; 20]),
        }
    }
}
