//! The entries of a tree, borrowed.
ghost use Rattle.std.specs.Prelude.{◌≡◌, ◌≢◌, length, slice_get, MatchBool};
ghost use Rattle.eden_git.specs.Trees.{entries_of};
ghost use Rattle.eden_git.specs.Entries.{option_plain};
ghost use Rattle.eden_git.specs.Columns.{AreColumns, ids_of, kinds_of, names_of};

use crate::columns::{Columns, kind_of};
use crate::entry::RawEntry;
use crate::search::entry_in;
use eden_ids::IdColumn;
use std::marker::Model;
use std::ops::Range;

/// The entries of a tree, by its payload and the columns of its entries.
///
/// Its value is the list of the entries. A row is the place of an entry in the list, counted from
/// 0. It borrows the payload and the columns. Neither it nor any of its calls takes memory.
#[derive(Drop)]
pub struct Rows<'a> {
    pub(crate) payload: &'a [u8],
    pub(crate) columns: &'a Columns,
}

impl<'a> Model for Rows<'a> {
    ghost use Rattle.std.specs.Prelude.{List};
    ghost use Rattle.eden_git.specs.Trees.{Entry, entries_of};
    ghost use Rattle.eden_git.specs.Columns.{AreColumns};

    ghost Value = { List Entry };

    ghost view = { λ r. entries_of r.payload.now };

    ghost invariant = { λ r. AreColumns r.payload.now r.columns.now };
}

impl<'a> Rows<'a> {
    /// Returns the entries of a payload that has these columns.
    pub fn new(payload: &'a [u8], columns: &'a Columns) -> Rows<'a>
        requires { AreColumns payload.now columns.now }
        ensures { result ≡ entries_of payload.now }
    {
        Rows { payload, columns }
    }

    /// Returns the number of entries.
    pub fn len(&self) -> usize
        ensures { result ≡ length self.now }
    {
        self.columns.kinds.len()
    }

    /// Returns the entry at a row, or `None` after the last one.
    pub fn entry(&self, row: usize) -> Option<RawEntry<'a>>
        ensures { option_plain result ≡ slice_get self.now row }
    {
        let starts = self.columns.starts.as_slice();
        match self.columns.kinds.get(row) {
            Some(kind) => {
                let bytes = &self.payload[starts[row] as usize..starts[row + 1] as usize];
                Some(entry_in(bytes, kind_of(*kind)))
            }
            None => None,
        }
    }

    /// Returns the entries one after another.
    pub fn iter(&self) -> Entries<'a>
        ensures { result ≡ self.now }
    {
        Entries {
            rows: Rows {
                payload: self.payload,
                columns: self.columns,
            },
            left: 0..self.len(),
        }
    }

    /// Returns the ids of the entries.
    pub fn ids(&self) -> &'a IdColumn
        ensures { result.now ≡ ids_of self.now }
    {
        &self.columns.ids
    }

    /// Returns the kinds of the entries as bytes.
    ///
    /// A directory is 0, a plain file 1, an executable one 2 and a link 3.
    pub fn kinds(&self) -> &'a [u8]
        ensures { result.now ≡ kinds_of self.now }
    {
        self.columns.kinds.as_slice()
    }

    /// Returns whether these entries have the same names as others, row for row.
    ///
    /// All names are compared at once.
    pub fn has_names_of(&self, other: &Rows<'_>) -> bool
        ensures { MatchBool result (names_of self.now ≡ names_of other.now) (names_of self.now ≢ names_of other.now) }
    {
        self.columns.names.as_slice() == other.columns.names.as_slice()
    }
}

/// The entries of a tree that are still to come.
///
/// Its value is the list of these entries. Does not allocate.
#[derive(Drop)]
pub struct Entries<'a> {
    rows: Rows<'a>,
    /// The rows of these entries.
    left: Range<usize>,
}

impl<'a> Model for Entries<'a> {
    ghost use Rattle.std.specs.Prelude.{◌≡◌, List, drop, length};
    ghost use Rattle.eden_git.specs.Trees.{Entry};

    ghost Value = { List Entry };

    ghost view = { λ e. drop e.left.start e.rows };

    ghost invariant = { λ e. e.left.end ≡ length e.rows };
}

impl<'a> Iterator for Entries<'a> {
    ghost use Rattle.std.specs.Iterator.{YieldsFirstBy, item_count};
    ghost use Rattle.eden_git.specs.Entries.{plain};

    type Item = RawEntry<'a>;

    ghost next_gives = { YieldsFirstBy plain (λ left. left) };

    ghost remaining = { item_count (λ left. left) };

    fn next(&mut self) -> Option<RawEntry<'a>> {
        let row = self.left.next()?;
        self.rows.entry(row)
    }
}
