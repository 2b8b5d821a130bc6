//! Entries one after another, from one of a block to the last block's last.

ghost use Rattle.std.specs.Prelude.{◌≡◌, ◌∷◌, ◌++◌, [], T, List, IfSome, IfNone};
ghost use Rattle.std.specs.Iterator.{item_count, YieldsFirstRef};
ghost use Rattle.std.specs.Ordering.{is_lt};
ghost use Rattle.eden_overlay.specs.Layers.{Entry, by_bytes};
ghost use Rattle.eden_overlay.specs.Places.{place};
ghost use Rattle.eden_overlay.specs.internal.Blocks.{before, flat, AllFilled};

use crate::ascending::is_before;
use crate::blocks::Block;
use crate::marks::Marks;
use eden_ids::{Content, Path};
use std::marker::Model;

/// An iterator over an overlay's entries, in byte order of their paths. Does not allocate.
///
/// Its value is the list of those that are left.
#[derive(Drop)]
pub struct Walk<'a> {
    block: &'a [(Path, Option<Content>)],
    later: &'a [Block],
}

impl<'a> Model for Walk<'a> {
    ghost use Rattle.std.specs.Prelude.{◌≡◌, ◌++◌, [], List};
    ghost use Rattle.eden_overlay.specs.Layers.{Entry};
    ghost use Rattle.eden_overlay.specs.internal.Blocks.{flat, AllFilled};

    ghost Value = { List Entry };

    ghost view = { λ w. w.block.now ++ flat w.later.now };

    // If this block has none left, neither have the later ones.
    ghost invariant = { λ w. (w.block.now ≡ [] → flat w.later.now ≡ []) × AllFilled w.later.now };
}

impl<'a> Walk<'a> {
    /// Returns the entries of a part of a block, and then those of the later blocks.
    pub(crate) fn of(block: &'a [(Path, Option<Content>)], later: &'a [Block]) -> Walk<'a>
        requires { AllFilled later.now }
        ensures { result ≡ block.now ++ flat later.now }
    {
        if !block.is_empty() {
            return Walk { block, later };
        }
        match later.split_first() {
            Some((block, later)) => Walk { block, later },
            None => Walk { block, later },
        }
    }

    /// Returns the first entry that is left, if its path comes before another one.
    #[tactic(auto, using(crate::proofs::Walked::begins_before))]
    pub(crate) fn first_before(&self, path: &[u8]) -> Option<&'a (Path, Option<Content>)>
        ensures none { IfNone result (before path.now self.now ≡ []) }
        ensures some { IfSome result (λ entry. (rest : List Entry) × (before path.now self.now ≡ entry.now ∷ rest)) }
    {
        let (entry, _) = self.block.split_first()?;
        if is_before(entry, path) {
            Some(entry)
        } else {
            None
        }
    }

    /// Returns the next entry and passes it, if its path comes before another one.
    pub(crate) fn next_before(&mut self, path: &[u8]) -> Option<&'a (Path, Option<Content>)>
        ensures stays { IfNone result ((place path.now self.old ≡ 0) × (self.new ≡ self.old)) }
        ensures before { IfSome result (λ entry. T (is_lt (by_bytes entry.now.0 path.now))) }
        ensures steps { IfSome result (λ entry. self.old ≡ entry.now ∷ self.new) }
    {
        if is_before(self.block.first()?, path) {
            self.next()
        } else {
            None
        }
    }
}

impl<'a> Iterator for Walk<'a> {
    type Item = &'a (Path, Option<Content>);

    ghost next_gives = { YieldsFirstRef (λ w. w) };

    ghost remaining = { item_count (λ w. w) };

    fn next(&mut self) -> Option<&'a (Path, Option<Content>)> {
        let (entry, left) = self.block.split_first()?;
        *self = Walk::of(left, self.later);
        Some(entry)
    }
}

impl Marks for Walk<'_> {
    ghost use Rattle.eden_overlay.specs.Layers.{marks};

    ghost left = { λ walk. marks walk };

    #[tactic(auto, using(crate::proofs::Marked::first_marked, crate::proofs::Marked::none_marked))]
    fn first(&self) -> Option<(&Path, bool)> {
        match self.block.split_first() {
            Some((entry, _)) => Some((&entry.0, entry.1.is_some())),
            None => None,
        }
    }

    #[tactic(auto, using(crate::proofs::Marked::behind_marked, crate::proofs::Marked::behind_none))]
    fn pass(&mut self) {
        if let Some((_, left)) = self.block.split_first() {
            *self = Walk::of(left, self.later);
        }
    }
}
