//! The pairs of trees that a walk found to hold the same files.
ghost use Rattle.std.specs.Prelude.{◌≡◌, OnOk, true};
ghost use Rattle.std.specs.BTreeSet.{Updates};
ghost use Rattle.eden_treediff.specs.internal.Settled.{NoneSettled, is_settled, sides_cmp};

use eden_ids::{Id, NoMemory};
use std::alloc::Global;
use std::collections::BTreeSet;

/// Pairs of trees with the same files, perhaps under different ids.
///
/// A missing tree holds no file. The pairs are kept in order, so that a client cannot
/// slow look-ups down by its choice of ids.
#[derive(Drop)]
pub(crate) struct KnownPairs {
    pairs: BTreeSet<(Option<Id>, Option<Id>)>,
}

impl KnownPairs {
    /// Returns an empty set of pairs.
    pub(crate) fn new(alloc: Global) -> KnownPairs
        ensures { NoneSettled result }
    {
        KnownPairs {
            pairs: BTreeSet::new(alloc),
        }
    }

    /// Returns true if the pair is remembered.
    pub(crate) fn has(&self, first: Option<Id>, second: Option<Id>) -> bool
        ensures { result ≡ is_settled self.now first second }
    {
        self.pairs.contains(&(first, second))
    }

    /// Remembers a pair.
    pub(crate) fn add(&mut self, first: Option<Id>, second: Option<Id>) -> Result<(), NoMemory>
        ensures { OnOk result (Updates sides_cmp self.old.pairs self.new.pairs (first, second) true) }
    {
        self.pairs.insert((first, second))?;
        Ok(())
    }
}
