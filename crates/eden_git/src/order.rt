//! The order of the entries of a tree.
ghost use Rattle.std.specs.Prelude.{◌≡◌};
ghost use Rattle.std.specs.Ordering.{nat_cmp};
ghost use Rattle.std.specs.Cmp.Lexicographic.{slice_cmp};
ghost use Rattle.eden_git.specs.Trees.{key};
ghost use Rattle.eden_git.specs.Entries.{plain};
ghost use Rattle.eden_git.specs.internal.Parts.{ending_of};

use crate::entry::RawEntry;
use std::cmp::Ordering;

/// Returns what follows a name when entries are compared.
fn behind_name(entry: &RawEntry<'_>) -> &'static [u8]
    ensures { result.now ≡ ending_of entry.now.kind }
{
    match entry.kind {
        None => b"/".as_slice(),
        Some(_) => b"".as_slice(),
    }
}

/// Compares two entries in Git's order.
///
/// It compares the bytes of their names. A directory's name is followed by a slash. This takes no
/// memory.
pub fn key_order(first: &RawEntry<'_>, second: &RawEntry<'_>) -> Ordering
    ensures { result ≡ slice_cmp nat_cmp (key (plain first.now)) (key (plain second.now)) }
{
    let bytes = first.name.iter().chain(behind_name(first).iter());
    bytes.cmp(second.name.iter().chain(behind_name(second).iter()))
}
