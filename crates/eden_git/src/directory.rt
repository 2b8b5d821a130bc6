//! Reads the entries of a payload one after another, and finds those of a directory by name.
ghost use Rattle.std.specs.Prelude.{◌≡◌, ◌<◌, length, IfSome};
ghost use Rattle.eden_ids.specs.Sameness.{same_bytes};
ghost use Rattle.eden_git.specs.Starts.{AreInOrder};
ghost use Rattle.eden_git.specs.Trees.{entries_of};
ghost use Rattle.eden_git.specs.Directories.{entries_read, file_if, file_named, dir_if, dir_named};

use crate::entry::{RawEntry, read_entry};
use crate::rows::Rows;
use eden_ids::{Id, Kind};

/// Returns the first entry of some bytes and the bytes after it, if there is one.
///
/// The entries of a tree's payload are read one after another in this way. No name is copied. This
/// takes no memory.
#[tactic(auto, using(crate::proofs::Fuel::all_read, crate::proofs::Fuel::still_shorter))]
pub fn next_entry(bytes: &[u8]) -> Option<(RawEntry<'_>, &[u8])>
    ensures entries { entries_of bytes.now ≡ entries_read result }
    ensures shorter { IfSome result (λ read. length read.1.now < length bytes.now) }
{
    read_entry(bytes).ok()
}

/// Returns the file of an entry, if it is a file with this name.
fn file_if_named(entry: &RawEntry<'_>, name: &[u8]) -> Option<(Kind, Id)>
    ensures { result ≡ file_if entry.now.kind entry.now.id (same_bytes entry.now.name.now name.now) }
{
    match entry.kind {
        None => None,
        Some(kind) => {
            if entry.name == name {
                Some((kind, entry.id))
            } else {
                None
            }
        }
    }
}

/// Returns the tree of an entry, if it is a directory with this name.
fn directory_if_named(entry: &RawEntry<'_>, name: &[u8]) -> Option<Id>
    ensures { result ≡ dir_if entry.now.kind entry.now.id (same_bytes entry.now.name.now name.now) }
{
    match entry.kind {
        None => {
            if entry.name == name {
                Some(entry.id)
            } else {
                None
            }
        }
        Some(_) => None,
    }
}

impl<'a> Rows<'a> {
    /// Returns the file with a name, found by a binary search.
    #[tactic(auto, using(crate::proofs::Searching::file_first, crate::proofs::Searching::file_none))]
    pub fn file(&self, name: &[u8]) -> Option<(Kind, Id)>
        requires { AreInOrder self.now }
        ensures { result ≡ file_named name.now self.now }
    {
        let wanted = RawEntry {
            name,
            kind: Some(Kind::Plain),
            id: Id::ZERO,
        };
        match self.first_from(&wanted) {
            Some(entry) => file_if_named(&entry, name),
            None => None,
        }
    }

    /// Returns the tree of the directory with a name, found by a binary search.
    #[tactic(auto, using(crate::proofs::Searching::dir_first, crate::proofs::Searching::dir_none))]
    pub fn directory(&self, name: &[u8]) -> Option<Id>
        requires { AreInOrder self.now }
        ensures { result ≡ dir_named name.now self.now }
    {
        let wanted = RawEntry {
            name,
            kind: None,
            id: Id::ZERO,
        };
        match self.first_from(&wanted) {
            Some(entry) => directory_if_named(&entry, name),
            None => None,
        }
    }
}
