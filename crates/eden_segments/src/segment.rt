//! The rows of a table that one map holds.

ghost use Rattle.std.specs.Prelude.{◌≡◌, ◌++◌, ◌∷◌, [], None, IfOk, OnOk, OnErr, length, option_copied, reverse};
ghost use Rattle.std.specs.Map.{lookup};
ghost use Rattle.eden_ids.specs.Sameness.{same_id};
ghost use Rattle.eden_segments.specs.Tables.{AreDistinct};

use crate::share::Share;
use eden_ids::{Id, NoMemory};
use indexmap::IndexMap;
use std::alloc::Global;
use std::marker::Model;

/// The rows of a table that one map holds, in the order in which they were added.
#[derive(Drop)]
pub(crate) struct Segment<V> {
    rows: IndexMap<Id, V>,
}

impl<V> Model for Segment<V> {
    ghost use Rattle.std.specs.Prelude.{List};
    ghost use Rattle.eden_ids.specs.declared.id.Id.{Id};

    ghost Value = { List (Id × V) };

    ghost view = { λ s. s.rows.entries };
}

impl<V> Segment<V> {
    /// Returns a segment without rows. Does not allocate.
    pub(crate) fn new(alloc: Global) -> Segment<V>
        ensures { result ≡ [] }
    {
        Segment {
            rows: IndexMap::new(alloc),
        }
    }

    /// Returns the allocator of the segment.
    pub(crate) fn allocator(&self) -> Global {
        *self.rows.allocator()
    }

    /// Returns the number of rows.
    pub(crate) fn len(&self) -> usize
        ensures { result ≡ length self.now }
    {
        self.rows.len()
    }

    /// Returns the value of an id.
    pub(crate) fn get(&self, id: Id) -> Option<&V>
        ensures { option_copied result ≡ lookup (same_id id) self.now }
    {
        self.rows.get(&id)
    }
}

impl<V: Drop> Segment<V> {
    /// Returns a segment without rows, with room for this number of them.
    pub(crate) fn with_room(alloc: Global, rows: usize) -> Result<Segment<V>, NoMemory>
        ensures { IfOk result (λ segment. segment ≡ []) }
    {
        match IndexMap::with_capacity(alloc, rows) {
            Ok(rows) => Ok(Segment { rows }),
            Err(_) => Err(NoMemory),
        }
    }

    /// Appends a row, whose id no other row has.
    pub(crate) fn add(&mut self, id: Id, value: V) -> Result<(), NoMemory>
        requires { lookup (same_id id) self.old ≡ None }
        ensures ok { OnOk result (self.new ≡ self.old ++ (id, value) ∷ []) }
        ensures err { OnErr result (self.new ≡ self.old) }
    {
        match self.rows.insert(id, value) {
            Ok(_) => Ok(()),
            Err(_) => Err(NoMemory),
        }
    }
}

impl<V: Share + Drop> Segment<V> {
    /// Appends the rows of another segment. Their values are shared.
    pub(crate) fn take_rows(&mut self, other: &Segment<V>) -> Result<(), NoMemory>
        requires { AreDistinct (reverse (self.old ++ other.now)) }
        ensures { OnOk result (self.new ≡ self.old ++ other.now) }
    {
        for (id, value) in other.rows.iter() {
            self.add(*id, value.share()?)?;
        }
        Ok(())
    }
}
