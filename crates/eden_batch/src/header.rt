//! Reads the header of an object.
ghost use Rattle.std.specs.Prelude.{◌≡◌};
ghost use Rattle.eden_batch.specs.internal.Fields.{IsHeader, Reads, header_field};

use crate::fields::{Lack, read_id, read_size, read_type};
use eden_git::ObjectType;
use eden_ids::Id;

/// What a header says of its object.
#[derive(Clone, Copy)]
pub(crate) struct Header {
    pub(crate) id: Id,
    pub(crate) object_type: ObjectType,
    pub(crate) size: u64,
}

/// Reads a header, and returns the bytes after it.
///
/// It looks at 69 bytes at most, which is the longest header's length.
pub(crate) fn read_header(bytes: &[u8]) -> Result<(Header, &[u8]), Lack>
    ensures { Reads IsHeader header_field bytes.now result }
{
    let (id, behind) = read_id(bytes)?;
    let (object_type, behind) = read_type(behind)?;
    let (size, behind) = read_size(behind)?;
    Ok((
        Header {
            id,
            object_type,
            size,
        },
        behind,
    ))
}
