//! Reads an entry between two known places, and searches the entries of a tree.
ghost use Rattle.std.specs.Prelude.{◌≡◌, ◌≤◌, ◌+◌, length, slice_get};
ghost use Rattle.eden_git.specs.Entries.{option_plain, plain};
ghost use Rattle.eden_git.specs.Starts.{AreInOrder, mode_of, written};
ghost use Rattle.eden_git.specs.internal.Searched.{first_from, is_before};
ghost use Rattle.eden_git.specs.Trees.{Entry, key};

use crate::entry::RawEntry;
use crate::order::key_order;
use crate::rows::Rows;
use eden_ids::{Id, Kind};
use std::cmp::Ordering;

/// Returns the number of digits in the mode of a kind.
fn mode_length(kind: Option<Kind>) -> usize
    ensures { result ≡ length (mode_of kind) }
{
    match kind {
        None => 5,
        Some(_) => 6,
    }
}

/// Returns the entry of a kind that is written as these bytes.
///
/// The bytes are not searched.
pub(crate) fn entry_in(bytes: &[u8], kind: Option<Kind>) -> RawEntry<'_>
    requires { length (mode_of kind) + 22 ≤ length bytes.now }
    ensures { (e : Entry) → bytes.now ≡ written e → kind ≡ e.kind → length e.id.0 ≡ 20 → plain result ≡ e }
{
    match bytes.split_last_chunk::<20>() {
        Some((front, id)) => RawEntry {
            name: &front[mode_length(kind) + 1..front.len() - 1],
            kind,
            id: Id(*id),
        },
        // The bytes end with an id.
        None => unreachable!(),
    }
}

impl<'a> Rows<'a> {
    /// Returns whether the entry at a row comes before another one.
    fn is_before(&self, row: usize, wanted: &RawEntry<'_>) -> bool
        ensures { result ≡ is_before (key (plain wanted.now)) (slice_get self.now row) }
    {
        match self.entry(row) {
            Some(entry) => key_order(&entry, wanted) == Ordering::Less,
            None => false,
        }
    }

    /// Returns the first entry that does not come before another one, by a binary search.
    pub(crate) fn first_from(&self, wanted: &RawEntry<'_>) -> Option<RawEntry<'a>>
        requires { AreInOrder self.now }
        ensures { option_plain result ≡ first_from (key (plain wanted.now)) self.now }
    {
        let mut low = 0;
        let mut high = self.len();
        'probes: while low < high {
            let middle = low + (high - low) / 2;
            if self.is_before(middle, wanted) {
                low = middle + 1;
            } else {
                high = middle;
            }
        }
        self.entry(low)
    }
}
