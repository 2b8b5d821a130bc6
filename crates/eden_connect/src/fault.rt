//! Why following ends early.

use eden_ids::NoMemory;
use thiserror::Error;

/// Why rounds end before their number is reached.
#[derive(Clone, Copy, Debug, PartialEq, Eq, Error)]
pub enum RoundFault {
    /// The connections of a round are spent, and the round is not over.
    #[error("NoConnection")]
    NoConnection,
    /// An allocation failed.
    #[error("NoMemory")]
    NoMemory,
}

impl From<NoMemory> for RoundFault {
    ghost use Rattle.std.specs.Prelude.{◌≡◌};
    ghost use Rattle.eden_connect.specs.declared.fault.RoundFault.TheVariants.{NoMemory};

    ghost from_gives = { λ _ fault. fault ≡ NoMemory };

    fn from(_refused: NoMemory) -> RoundFault {
        RoundFault::NoMemory
    }
}

/// Why `connect_program` did not end well.
#[derive(Clone, Copy, Debug, PartialEq, Eq, Error)]
pub enum ConnectFault {
    /// The mirror has no position after its rounds, as the output says.
    #[error("Unplaced")]
    Unplaced,
    /// The output could not be written. The first bytes of the text may be there.
    #[error("Write")]
    Write,
    /// The connections of a round are spent. Nothing is written.
    #[error("NoConnection")]
    NoConnection,
    /// An allocation failed. Nothing is written.
    #[error("NoMemory")]
    NoMemory,
}
