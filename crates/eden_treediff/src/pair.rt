//! A pair of entries of two directories.
ghost use Rattle.std.specs.Prelude.{◌≡◌, None, Some};
ghost use Rattle.eden_git.specs.Entries.{option_plain};
ghost use Rattle.eden_treediff.specs.internal.Pairs.{directory, directory_of, is_changed, name_of, order_of, same_mode};
ghost use Rattle.eden_treediff.specs.internal.Walks.{directory_read};

use eden_ids::{Id, Kind, is_same_kind};
use eden_objects::{RawEntry, key_order};
use std::cmp::Ordering;

/// The next entry of each of two directories.
///
/// Both are present if they have the same key.
#[derive(Clone, Copy)]
pub(crate) struct Pair<'a> {
    pub(crate) first: Option<RawEntry<'a>>,
    pub(crate) second: Option<RawEntry<'a>>,
}

impl<'a> Pair<'a> {
    /// Returns true if the sides differ, or one has no entry.
    pub(crate) fn is_changed(&self) -> bool
        ensures { result ≡ is_changed (option_plain self.now.first) (option_plain self.now.second) }
    {
        match (&self.first, &self.second) {
            (Some(entry), Some(other)) => {
                !(is_same_mode(entry.kind, other.kind) && entry.id == other.id)
            }
            _ => true,
        }
    }

    /// Returns the name.
    pub(crate) fn name(&self) -> &'a [u8]
        ensures { result.now ≡ name_of (option_plain self.now.first) (option_plain self.now.second) }
    {
        match (&self.first, &self.second) {
            (Some(entry), _) => entry.name,
            (None, Some(other)) => other.name,
            (None, None) => b"".as_slice(),
        }
    }

    /// Returns the name and trees of a directory, if it is one.
    pub(crate) fn directory(&self) -> Option<(&'a [u8], Option<Id>, Option<Id>)>
        ensures { directory_read result ≡ directory (option_plain self.now.first) (option_plain self.now.second) }
    {
        match (&self.first, &self.second) {
            (None, None) => None,
            (Some(entry), None) => directory_of(entry, Some(entry.id), None),
            (None, Some(other)) => directory_of(other, None, Some(other.id)),
            (Some(entry), Some(other)) => directory_of(entry, Some(entry.id), Some(other.id)),
        }
    }
}

/// Returns the entry's name and these trees, if it is a directory.
fn directory_of<'a>(
    entry: &RawEntry<'a>,
    first: Option<Id>,
    second: Option<Id>,
) -> Option<(&'a [u8], Option<Id>, Option<Id>)>
    ensures { directory_read result ≡ directory_of entry.now.name.now entry.now.kind first second }
{
    match entry.kind {
        None => Some((entry.name, first, second)),
        Some(_) => None,
    }
}

/// Returns true if both are directories, or files of the same kind.
fn is_same_mode(kind: Option<Kind>, other: Option<Kind>) -> bool
    ensures { result ≡ same_mode kind other }
{
    match (kind, other) {
        (None, None) => true,
        (Some(kind), Some(other)) => is_same_kind(kind, other),
        _ => false,
    }
}

/// Compares the keys of two entries.
///
/// A missing one sorts after any other. It is `None` if both are missing.
pub(crate) fn order_of(
    first: &Option<RawEntry<'_>>,
    second: &Option<RawEntry<'_>>,
) -> Option<Ordering>
    ensures { result ≡ order_of (option_plain first.now) (option_plain second.now) }
{
    match (first, second) {
        (None, None) => None,
        (Some(_), None) => Some(Ordering::Less),
        (None, Some(_)) => Some(Ordering::Greater),
        (Some(entry), Some(other)) => Some(key_order(entry, other)),
    }
}
