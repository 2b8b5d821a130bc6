//! What a tree's earlier entries require of the next one.
ghost use Rattle.std.specs.Prelude.{◌≡◌, ◌∷◌, [], List, OnOk};
ghost use Rattle.eden_git.specs.Trees.{Entry};
ghost use Rattle.eden_git.specs.Entries.{option_plain, plain};
ghost use Rattle.eden_objects.specs.internal.Earlier.{HasSeen, has_name, is_above_last};

use eden_git::{RawEntry, key_order};
use eden_ids::NoMemory;
use std::alloc::Global;
use std::cmp::Ordering;
use std::collections::BTreeSet;

/// The names of the entries so far, and the last entry.
#[derive(Drop)]
pub(crate) struct Seen<'a> {
    names: BTreeSet<&'a [u8]>,
    last: Option<RawEntry<'a>>,
}

impl<'a> Seen<'a> {
    /// Returns the state before the first entry.
    pub(crate) fn new(alloc: Global) -> Seen<'a>
        ensures { HasSeen result [] }
    {
        Seen {
            names: BTreeSet::new(alloc),
            last: None,
        }
    }

    /// Returns true if there was an entry with this name.
    pub(crate) fn has_name(&self, name: &'a [u8]) -> bool
        ensures { (earlier : List Entry) → HasSeen self.now earlier → result ≡ has_name name.now earlier }
    {
        self.names.contains(&name)
    }

    /// Returns true if the entry sorts after the last one.
    pub(crate) fn is_below(&self, entry: &RawEntry<'_>) -> bool
        ensures { result ≡ is_above_last (plain entry.now) (option_plain self.now.last) }
    {
        match &self.last {
            None => true,
            Some(before) => key_order(before, entry) == Ordering::Less,
        }
    }

    /// Notes the next entry.
    pub(crate) fn note(&mut self, entry: RawEntry<'a>) -> Result<(), NoMemory>
        ensures { OnOk result ((earlier : List Entry) → HasSeen self.old earlier → HasSeen self.new (plain entry.entry ∷ earlier)) }
    {
        self.names.insert(entry.name)?;
        self.last = Some(entry);
        Ok(())
    }
}
