//! Reads the fields of a header from the bytes that have come so far.
ghost use Rattle.std.specs.Prelude.{◌≡◌, ◌-◌, ◌≤◌, ◌++◌, length, replicate, slice_index};
ghost use Rattle.eden_git.specs.declared.object_type.ObjectType.{ObjectType};
ghost use Rattle.eden_git.specs.ObjectTypes.{type_text};
ghost use Rattle.eden_ids.specs.Texts.{IsIdText};
ghost use Rattle.eden_batch.specs.internal.Fields.{IsAnyType, IsSize, Reads, id_field, size_field, type_field};

use bstr::ByteSlice;
use eden_git::{ObjectType, number};
use eden_ids::{Id, hex_law, hex_text_law, id_law};

/// The number of bytes of an id's text.
const ID_BYTES: usize = 40;

/// The most bytes that a size and its line feed have.
const SIZE_BYTES: usize = 21;

/// Why bytes do not begin with a field.
#[derive(Clone, Copy)]
pub(crate) enum Lack {
    /// They are the beginning of a field, and not all of it.
    Partial,

    /// They are not the beginning of any field.
    Bad,
}

/// Returns the digits with zeros after them, as many as an id's text has.
fn padded(digits: &[u8]) -> [u8; ID_BYTES]
    requires { length digits.now ≤ 40 }
    ensures { result ≡ digits.now ++ replicate (40 - length digits.now) 48 }
{
    let mut text = [b'0'; ID_BYTES];
    text[..digits.len()].copy_from_slice(digits);
    text
}

/// Reads an id and the space after it, and returns the bytes after that.
pub(crate) fn read_id(bytes: &[u8]) -> Result<(Id, &[u8]), Lack>
    ensures { Reads IsIdText id_field bytes.now result }
{
    hex_law();
    hex_text_law();
    // Any digits will do for those that have not come yet.
    let front = &bytes[..bytes.len().min(ID_BYTES)];
    let Ok(id) = Id::from_hex(&padded(front)) else {
        return Err(Lack::Bad);
    };
    id_law(id);
    let Some(space) = bytes.get(ID_BYTES) else {
        return Err(Lack::Partial);
    };
    if *space == b' ' {
        Ok((id, &bytes[ID_BYTES + 1..]))
    } else {
        Err(Lack::Bad)
    }
}

/// Returns the name of a type, and a space.
fn type_field(object_type: ObjectType) -> &'static [u8]
    ensures { result.now ≡ type_field object_type }
{
    match object_type {
        ObjectType::Blob => b"blob ".as_slice(),
        ObjectType::Tree => b"tree ".as_slice(),
        ObjectType::Commit => b"commit ".as_slice(),
    }
}

/// Returns the only type whose name can begin with a byte.
fn type_of(first: u8) -> Option<ObjectType>
    ensures { (object_type : ObjectType) → slice_index (type_text object_type) 0 ≡ first → result ≡ Some object_type }
{
    match first {
        b'b' => Some(ObjectType::Blob),
        b't' => Some(ObjectType::Tree),
        b'c' => Some(ObjectType::Commit),
        _ => None,
    }
}

/// Reads the name of a type and a space, and returns the bytes after them.
pub(crate) fn read_type(bytes: &[u8]) -> Result<(ObjectType, &[u8]), Lack>
    ensures { Reads IsAnyType type_field bytes.now result }
{
    let [first, ..] = bytes else {
        return Err(Lack::Partial);
    };
    let Some(object_type) = type_of(*first) else {
        return Err(Lack::Bad);
    };
    let field = type_field(object_type);
    if let Some(behind) = bytes.strip_prefix(field) {
        return Ok((object_type, behind));
    }
    if field.starts_with(bytes) {
        Err(Lack::Partial)
    } else {
        Err(Lack::Bad)
    }
}

/// Reads a size in decimal and a line feed, and returns the bytes after them.
///
/// It looks at 21 bytes at most.
pub(crate) fn read_size(bytes: &[u8]) -> Result<(u64, &[u8]), Lack>
    ensures { Reads IsSize size_field bytes.now result }
{
    let front = &bytes[..bytes.len().min(SIZE_BYTES)];
    match front.find_byte(b'\n') {
        Some(end) => match number(&front[..end]) {
            Some(size) => Ok((size, &bytes[end + 1..])),
            None => Err(Lack::Bad),
        },
        None => match number(front) {
            Some(_) => Err(Lack::Partial),
            None if front.is_empty() => Err(Lack::Partial),
            None => Err(Lack::Bad),
        },
    }
}
