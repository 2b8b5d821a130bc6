//! The rows at which two directories with the same names differ.
ghost use Rattle.std.specs.Prelude.{◌≡◌, IfOk, IfSome, min};
ghost use Rattle.eden_treediff.specs.internal.Columns.{AreChanges, entries_lent, first_row, rows_after};

use eden_ids::NoMemory;
use eden_lanes::{differ_kinds, differ_rows};
use eden_objects::Rows;
use std::alloc::Global;
use std::marker::Model;

/// Rows in ascending order, without those that were passed.
#[derive(Drop)]
pub(crate) struct Ahead {
    rows: Vec<usize>,
    passed: usize,
}

impl Model for Ahead {
    ghost use Rattle.std.specs.Prelude.{ℕ, List, drop};

    ghost Value = { List ℕ };

    ghost view = { λ a. drop a.passed a.rows.items };
}

impl Ahead {
    /// Returns rows of which none is passed yet.
    fn new(rows: Vec<usize>) -> Ahead
        ensures { result ≡ rows.items }
    {
        Ahead { rows, passed: 0 }
    }

    /// Returns the first row, or `end` if there is none.
    fn first_or(&self, end: usize) -> usize
        ensures { result ≡ first_row self.now end }
    {
        match self.rows.get(self.passed) {
            Some(row) => *row,
            None => end,
        }
    }

    /// Passes a row, if it is the first.
    fn pass(&mut self, row: usize)
        ensures { self.new ≡ rows_after row self.old }
    {
        if self.passed < self.rows.len() && self.rows[self.passed] == row {
            self.passed += 1;
        }
    }
}

/// The rows ahead where the entries differ, in ids or kinds.
#[derive(Drop)]
pub(crate) struct Changed {
    ids: Ahead,
    kinds: Ahead,
}

impl Changed {
    /// Returns the rows at which two directories differ.
    ///
    /// It is `None` if a directory is missing or the names differ, since then rows do not
    /// correspond.
    pub(crate) fn between(
        alloc: Global,
        left: &Option<Rows<'_>>,
        right: &Option<Rows<'_>>,
    ) -> Result<Option<Changed>, NoMemory>
        ensures { IfOk result (λ changed. IfSome changed (λ c. AreChanges 0 c.ids c.kinds (entries_lent left.now) (entries_lent right.now))) }
    {
        let (Some(left), Some(right)) = (left, right) else {
            return Ok(None);
        };
        if !left.has_names_of(right) {
            return Ok(None);
        }
        let ids = differ_rows(alloc, left.ids(), right.ids())?;
        let kinds = differ_kinds(alloc, left.kinds(), right.kinds())?;
        Ok(Some(Changed {
            ids: Ahead::new(ids),
            kinds: Ahead::new(kinds),
        }))
    }

    /// Returns the first row that differs, or `end`.
    pub(crate) fn first_or(&self, end: usize) -> usize
        ensures { result ≡ min (first_row self.now.ids end) (first_row self.now.kinds end) }
    {
        self.ids.first_or(end).min(self.kinds.first_or(end))
    }

    /// Passes a row, if something differs there.
    pub(crate) fn pass(&mut self, row: usize)
        ensures ids { self.new.ids ≡ rows_after row self.old.ids }
        ensures kinds { self.new.kinds ≡ rows_after row self.old.kinds }
    {
        self.ids.pass(row);
        self.kinds.pass(row);
    }
}
