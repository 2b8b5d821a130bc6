//! An immutable value with several owners.

ghost use Rattle.std.specs.Prelude.{◌≡◌, IfOk};

use crate::share::Share;
use eden_ids::NoMemory;
use std::alloc::Global;
use std::marker::Model;
use std::ops::Deref;
use std::sync::Arc;

/// An immutable value on the heap, with several owners in any threads.
///
/// It is an `Arc` that is known only by its value: two are equal if their values are, at whatever
/// address.
#[derive(Drop)]
pub struct Counted<T> {
    value: Arc<T>,
}

impl<T> Model for Counted<T> {
    ghost use Rattle.std.specs.Arc.{arc_value};

    ghost Value = { T };

    ghost view = { λ s. arc_value s.value };
}

impl<T: Drop> Counted<T> {
    /// Returns a value with one owner. `NoMemory` if an allocation fails.
    pub fn new(alloc: Global, value: T) -> Result<Counted<T>, NoMemory>
        ensures { IfOk result (λ counted. counted ≡ value) }
    {
        match Arc::new(alloc, value) {
            Ok(value) => Ok(Counted { value }),
            Err(_) => Err(NoMemory),
        }
    }
}

impl<T> Deref for Counted<T> {
    type Target = T;

    ghost deref_gives = { λ counted value. value ≡ counted };

    fn deref(&self) -> &T {
        &self.value
    }
}

impl<T> Share for Counted<T> {
    fn share(&self) -> Result<Counted<T>, NoMemory> {
        match Arc::try_clone(&self.value) {
            Ok(value) => Ok(Counted { value }),
            Err(_) => Err(NoMemory),
        }
    }
}
