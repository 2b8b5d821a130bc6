//! Values whose copies take only a few pointers.

use eden_ids::NoMemory;

/// A value whose copies take only a few pointers, whatever it holds.
pub trait Share: Sized {
    ghost use Rattle.std.specs.Prelude.{◌≡◌, IfOk};

    /// Returns an equal value.
    ///
    /// `NoMemory` if an allocation fails, or if a value has as many owners as can be counted.
    fn share(&self) -> Result<Self, NoMemory>
        ensures { IfOk result (λ copy. copy ≡ self.now) };
}
