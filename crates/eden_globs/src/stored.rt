//! A list of patterns, as the copies of a filter share it.

ghost use Rattle.std.specs.Prelude.{◌≡◌, None};
ghost use Rattle.eden_globs.specs.Filters.{filter_fault, lists};
ghost use Rattle.eden_globs.specs.internal.Compiled.{AreCompiled};

use crate::pattern::Part;
use std::marker::Model;

/// Patterns and their parts, which do not change.
#[derive(Drop)]
pub(crate) struct Stored {
    patterns: Vec<Vec<u8>>,
    /// The parts of each pattern, read once.
    compiled: Vec<Vec<Part>>,
}

impl Model for Stored {
    ghost use Rattle.std.specs.Prelude.{◌≡◌, ℕ, List, None};
    ghost use Rattle.eden_globs.specs.Filters.{filter_fault, lists};
    ghost use Rattle.eden_globs.specs.internal.Compiled.{AreCompiled};

    ghost Value = { List (List ℕ) };

    ghost view = { λ s. lists s.patterns.items };

    ghost invariant = { λ s. (filter_fault (lists s.patterns.items) ≡ None) × AreCompiled s.compiled.items (lists s.patterns.items) };
}

impl Stored {
    /// Returns these patterns with their parts.
    pub(crate) fn new(patterns: Vec<Vec<u8>>, compiled: Vec<Vec<Part>>) -> Stored
        requires legal { filter_fault (lists patterns.items) ≡ None }
        requires parts { AreCompiled compiled.items (lists patterns.items) }
        ensures { result ≡ lists patterns.items }
    {
        Stored { patterns, compiled }
    }

    /// Returns the patterns, in their order.
    pub(crate) fn patterns(&self) -> &[Vec<u8>]
        ensures patterns { lists result.now ≡ self.now }
        ensures legal { filter_fault self.now ≡ None }
    {
        self.patterns.as_slice()
    }

    /// Returns the parts of each pattern.
    pub(crate) fn compiled(&self) -> &[Vec<Part>]
        ensures { AreCompiled result.now self.now }
    {
        self.compiled.as_slice()
    }
}
