//! The rest of the entries of one directory.
ghost use Rattle.std.specs.Prelude.{◌≡◌, length, slice_get};
ghost use Rattle.eden_git.specs.Entries.{option_plain};
ghost use Rattle.eden_treediff.specs.internal.Columns.{entries_lent, passed};

use eden_objects::{RawEntry, Rows};

/// The entries of a directory from a row on.
///
/// A missing directory has none.
#[derive(Drop)]
pub(crate) struct Side<'a> {
    pub(crate) rows: Option<Rows<'a>>,
    /// The next row.
    pub(crate) row: usize,
    /// The number of rows.
    pub(crate) end: usize,
}

impl<'a> Side<'a> {
    /// Returns all entries of a directory.
    pub(crate) fn new(rows: Option<Rows<'a>>) -> Side<'a>
        ensures rows { result.rows ≡ rows.entry }
        ensures row { result.row ≡ 0 }
        ensures end { result.end ≡ length (entries_lent rows.entry) }
    {
        let end = match &rows {
            Some(rows) => rows.len(),
            None => 0,
        };
        Side { rows, row: 0, end }
    }

    /// Returns the next entry, if there is one.
    pub(crate) fn next(&self) -> Option<RawEntry<'a>>
        ensures { option_plain result ≡ slice_get (entries_lent self.now.rows) self.now.row }
    {
        match &self.rows {
            Some(rows) => rows.entry(self.row),
            None => None,
        }
    }

    /// Skips the next entry, if there is one.
    pub(crate) fn pass(&mut self)
        ensures { self.new ≡ passed self.old }
    {
        if self.row < self.end {
            self.row += 1;
        }
    }
}
