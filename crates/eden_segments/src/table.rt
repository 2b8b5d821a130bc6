//! A table from ids to values that only grows.

ghost use Rattle.std.specs.Prelude.{◌≡◌, ◌∷◌, [], None, IfOk, OnOk, OnErr, option_copied};
ghost use Rattle.std.specs.Map.{lookup};
ghost use Rattle.eden_ids.specs.Sameness.{same_id};

use crate::freezing::{find_in, freeze, shared};
use crate::segment::Segment;
use crate::share::Share;
use eden_ids::{Id, NoMemory};
use std::alloc::Global;
use std::marker::Model;
use std::sync::Arc;

/// A table from ids to values that only grows, and whose copies take a few pointers.
///
/// Its rows are in segments: frozen ones, which copies share, and the newest one, to which rows are
/// added in place. Each frozen segment has more than twice the rows of the next one. So n rows have
/// at most about log n segments, and adding n rows takes time of order n log n, however often the
/// table is copied meanwhile. When segments are merged, the values are shared and never copied.
#[derive(Drop)]
pub struct Table<V> {
    /// Oldest first.
    frozen: Vec<Arc<Segment<V>>>,
    newest: Segment<V>,
}

impl<V> Model for Table<V> {
    ghost use Rattle.std.specs.Prelude.{List, reverse};
    ghost use Rattle.eden_ids.specs.declared.id.Id.{Id};

    ghost Value = { List (Id × V) };

    ghost use Rattle.eden_segments.specs.Tables.{AreDistinct};
    ghost use Rattle.eden_segments.specs.internal.Segments.{stored};

    ghost view = { λ t. reverse (stored t.frozen.items t.newest) };

    ghost invariant = { λ t. AreDistinct (reverse (stored t.frozen.items t.newest)) };
}

impl<V> Table<V> {
    /// Returns a table without rows. Does not allocate.
    pub fn new(alloc: Global) -> Table<V>
        ensures { result ≡ [] }
    {
        Table {
            frozen: Vec::new(alloc),
            newest: Segment::new(alloc),
        }
    }

    /// Returns the allocator of the table.
    pub fn allocator(&self) -> Global {
        self.newest.allocator()
    }

    /// Returns the value of an id.
    ///
    /// This takes no memory, and searches at most about log n maps.
    pub fn get(&self, id: Id) -> Option<&V>
        ensures { option_copied result ≡ lookup (same_id id) self.now }
    {
        match find_in(self.frozen.as_slice(), id) {
            Some(value) => Some(value),
            None => self.newest.get(id),
        }
    }
}

impl<V: Drop> Table<V> {
    /// Adds a row, whose id no other row has.
    ///
    /// `NoMemory` if an allocation fails; then nothing is changed.
    pub fn add(&mut self, id: Id, value: V) -> Result<(), NoMemory>
        requires fresh { lookup (same_id id) self.old ≡ None }
        ensures ok { OnOk result (self.new ≡ (id, value) ∷ self.old) }
        ensures err { OnErr result (self.new ≡ self.old) }
    {
        self.newest.add(id, value)
    }
}

impl<V: Share + Drop> Table<V> {
    /// Returns a copy, which keeps its rows whatever is added to either table later.
    ///
    /// `NoMemory` if an allocation fails or a value cannot be shared. No row is changed. A copy
    /// takes at most about log n pointers. The rows that were added since the last copy are frozen
    /// first. This may merge segments, and then shares the value of each of their rows.
    pub fn share(&mut self) -> Result<Table<V>, NoMemory>
        ensures copy { IfOk result (λ copy. copy ≡ self.old) }
        ensures same { self.new ≡ self.old }
    {
        freeze(&mut self.frozen, &mut self.newest)?;
        let alloc = self.allocator();
        Ok(Table {
            frozen: shared(alloc, self.frozen.as_slice())?,
            newest: Segment::new(alloc),
        })
    }

    /// Freezes the rows that were added since the last copy.
    ///
    /// The next copy then has no segments to merge. If an allocation fails, they are left to that
    /// copy.
    pub fn freeze(&mut self)
        ensures { self.new ≡ self.old }
    {
        let _ = freeze(&mut self.frozen, &mut self.newest);
    }
}
