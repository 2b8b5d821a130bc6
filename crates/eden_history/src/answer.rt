//! The answer to a change, and why the changes since a position are not known.

ghost use Rattle.std.specs.Prelude.{◌≡◌, IfOk};

use crate::change::ChangeFault;
use crate::position::Position;
use eden_ids::{NoMemory, Path, Sequence};
use thiserror::Error;

/// The answer to a change.
#[derive(Clone, Debug, PartialEq, Drop)]
pub enum Answer {
    /// The change was made, or there was nothing to do: the position after it.
    At(Position),
    /// A checkout was made, or in mode `Dry` only tried.
    Checked {
        /// The position after it.
        position: Position,
        /// The paths of changed files that conflict with the commit, ascending.
        conflicts: Sequence<Path>,
    },
    /// The change was refused, and nothing changed.
    Refused(ChangeFault),
}

impl Answer {
    /// Returns a copy of this answer.
    ///
    /// # Errors
    ///
    /// - `NoMemory` if an allocation fails.
    pub fn copy(&self) -> Result<Answer, NoMemory>
        ensures { IfOk result (λ answer. answer ≡ self.now) }
    {
        Ok(self.clone()?)
    }
}

/// Why the changes since a position cannot be listed.
///
/// The first cause in this order is reported.
#[derive(Clone, Copy, Debug, PartialEq, Eq, Error)]
pub enum SinceFault {
    /// The position is of another generation than the mount's, which is given.
    #[error("Stale {0}")]
    Stale(u64),
    /// The position's number is above the head, which is given.
    #[error("Ahead {0}")]
    Ahead(u64),
    /// The position's number is below the floor, which is given: older changes are no
    /// longer held.
    #[error("Truncated {0}")]
    Truncated(u64),
    /// An allocation failed.
    #[error("NoMemory")]
    NoMemory,
}

impl From<NoMemory> for SinceFault {
    ghost use Rattle.eden_history.specs.declared.answer.SinceFault.TheVariants as faults;

    ghost from_gives = { λ _ fault. fault ≡ faults.NoMemory };

    fn from(_fault: NoMemory) -> SinceFault {
        SinceFault::NoMemory
    }
}
