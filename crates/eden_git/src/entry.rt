//! Reads one entry of a tree, without copying its name.
ghost use Rattle.std.specs.Prelude.{◌≡◌, ◌<◌, length, IfOk};
ghost use Rattle.eden_git.specs.Trees.{cut, is_name, kind_of_mode, read_entry, read_id, read_kind};
ghost use Rattle.eden_git.specs.Entries.{plain, parts_of, reading_of};
ghost use Rattle.eden_git.specs.internal.Parts.{id_of_parts, id_front};

use crate::fault::EntryFault;
use bstr::ByteSlice;
use eden_ids::{Id, Kind, is_component};

/// An entry of a tree, whose name is borrowed from the payload.
#[derive(Clone, Copy)]
pub struct RawEntry<'a> {
    /// The name, which has no slash.
    pub name: &'a [u8],
    /// The kind of the file, or `None` for a directory.
    pub kind: Option<Kind>,
    /// The file's blob, or the directory's tree.
    pub id: Id,
}

/// Returns the bytes before and after the first `byte`, or `None` without one.
///
/// Does not allocate.
pub fn cut(bytes: &[u8], byte: u8) -> Option<(&[u8], &[u8])>
    ensures { parts_of result ≡ cut byte bytes.now }
{
    let at = bytes.find_byte(byte)?;
    Some((&bytes[..at], &bytes[at + 1..]))
}

/// Returns what a mode says, which is `Some(None)` for a directory.
fn kind_of_mode(mode: &[u8]) -> Option<Option<Kind>>
    ensures { result ≡ kind_of_mode mode.now }
{
    if mode == b"40000".as_slice() {
        Some(None)
    } else if mode == b"100644".as_slice() {
        Some(Some(Kind::Plain))
    } else if mode == b"100755".as_slice() {
        Some(Some(Kind::Exec))
    } else if mode == b"120000".as_slice() {
        Some(Some(Kind::Link))
    } else {
        None
    }
}

/// Returns whether the bytes may be a name in a tree.
fn is_name(name: &[u8]) -> bool
    ensures { result ≡ is_name name.now }
{
    is_component(name) && !name.contains(&b'/')
}

/// Returns the id in the first twenty bytes, and the bytes after it.
fn id_at(bytes: &[u8]) -> Option<(Id, &[u8])>
    ensures { id_of_parts result ≡ id_front bytes.now }
{
    match bytes.split_first_chunk::<20>() {
        Some((id, rest)) => Some((Id(*id), rest)),
        None => None,
    }
}

/// Reads the id after a name, which ends the entry.
fn read_id<'a>(
    kind: Option<Kind>,
    name: &'a [u8],
    rest: &'a [u8],
) -> Result<(RawEntry<'a>, &'a [u8]), EntryFault>
    ensures { reading_of result ≡ read_id kind name.now rest.now }
{
    if !is_name(name) {
        return Err(EntryFault::BadName);
    }
    match id_at(rest) {
        Some((id, behind)) => Ok((RawEntry { name, kind, id }, behind)),
        None => Err(EntryFault::CutShort),
    }
}

/// Reads the first entry, and returns it with the bytes after it.
///
/// Does not allocate.
pub fn read_entry(bytes: &[u8]) -> Result<(RawEntry<'_>, &[u8]), EntryFault>
    ensures read { reading_of result ≡ read_entry bytes.now }
    ensures shorter { IfOk result (λ read. length read.1.now < length bytes.now) }
{
    let Some((mode, named)) = cut(bytes, b' ') else {
        return Err(EntryFault::CutShort);
    };
    let Some(kind) = kind_of_mode(mode) else {
        return Err(EntryFault::BadMode);
    };
    let Some((name, rest)) = cut(named, 0) else {
        return Err(EntryFault::CutShort);
    };
    read_id(kind, name, rest)
}
