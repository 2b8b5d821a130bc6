//! The entries of two directories, side by side.

ghost use Rattle.std.specs.Prelude.{◌≡◌, drop, IfOk};
ghost use Rattle.eden_git.specs.Entries.{option_plain};
ghost use Rattle.eden_treediff.specs.internal.Columns.{entries_lent};
ghost use Rattle.eden_treediff.specs.internal.Merging.{IsLeftOut, IsNextOf};
ghost use Rattle.eden_treediff.specs.internal.Pairs.{first_of};

use crate::changed::Changed;
use crate::pair::{Pair, order_of};
use crate::side::Side;
use eden_ids::NoMemory;
use eden_objects::{RawEntry, Rows};
use std::alloc::Global;
use std::cmp::Ordering;
use std::marker::Model;

/// The entries of two directories, in key order and paired.
///
/// Its value is the rest of both. If the rests have the same names, row by row, the rows
/// that differ are known beforehand, and no other is read.
#[derive(Drop)]
pub(crate) struct Merge<'a> {
    left: Side<'a>,
    right: Side<'a>,
    /// The rows that differ, if the rests have the same names.
    changed: Option<Changed>,
}

impl<'a> Model for Merge<'a> {
    ghost use Rattle.eden_treediff.specs.internal.Merging.{Rests};
    ghost use Rattle.eden_treediff.specs.internal.Columns.{AreTold, IsAhead, rest_of};

    ghost Value = { Rests };

    ghost view = { λ m. (rest_of m.left, rest_of m.right) };

    ghost invariant = { λ m. IsAhead m.left × IsAhead m.right × AreTold m.changed m.left m.right };
}

impl<'a> Merge<'a> {
    /// Returns the merge of two directories, before the first entries.
    ///
    /// If they have the same names, their columns are compared here.
    pub(crate) fn new(
        alloc: Global,
        left: Option<Rows<'a>>,
        right: Option<Rows<'a>>,
    ) -> Result<Merge<'a>, NoMemory>
        ensures { IfOk result (λ merge. merge ≡ (entries_lent left.entry, entries_lent right.entry)) }
    {
        let changed = Changed::between(alloc, &left, &right)?;
        Ok(Merge {
            left: Side::new(left),
            right: Side::new(right),
            changed,
        })
    }

    /// Skips to the first row that differs, if these rows are known.
    fn skip_alike(&mut self)
        ensures { IsLeftOut self.old self.new }
    {
        if let Some(changed) = &self.changed {
            let row = changed.first_or(self.left.end);
            self.left.row = row;
            self.right.row = row;
        }
    }

    /// Returns the next entry of the left side.
    fn left_entry(&self) -> Option<RawEntry<'a>>
        ensures { option_plain result ≡ first_of self.now.0 }
    {
        self.left.next()
    }

    /// Returns the next entry of the right side.
    fn right_entry(&self) -> Option<RawEntry<'a>>
        ensures { option_plain result ≡ first_of self.now.1 }
    {
        self.right.next()
    }

    /// Skips the next entry of the left side. The sides are then at different rows.
    fn skip_left(&mut self)
        ensures { self.new ≡ (drop 1 self.old.0, self.old.1) }
    {
        self.changed = None;
        self.left.pass();
    }

    /// Skips the next entry of the right side. The sides are then at different rows.
    fn skip_right(&mut self)
        ensures { self.new ≡ (self.old.0, drop 1 self.old.1) }
    {
        self.changed = None;
        self.right.pass();
    }

    /// Skips the next entries of both sides.
    fn skip_both(&mut self)
        ensures { self.new ≡ (drop 1 self.old.0, drop 1 self.old.1) }
    {
        let row = self.left.row;
        self.left.pass();
        self.right.pass();
        if let Some(changed) = &mut self.changed {
            changed.pass(row);
        }
    }

    /// Returns the next pair, if there is one.
    ///
    /// Entries that are the same on both sides may be left out before it.
    pub(crate) fn next(&mut self) -> Option<Pair<'a>>
        ensures { IsNextOf self.old self.new result }
    {
        self.skip_alike();
        let (first, second) = (self.left_entry(), self.right_entry());
        match order_of(&first, &second) {
            None => None,
            Some(Ordering::Less) => {
                self.skip_left();
                Some(Pair {
                    first,
                    second: None,
                })
            }
            Some(Ordering::Equal) => {
                self.skip_both();
                Some(Pair { first, second })
            }
            Some(Ordering::Greater) => {
                self.skip_right();
                Some(Pair {
                    first: None,
                    second,
                })
            }
        }
    }
}
