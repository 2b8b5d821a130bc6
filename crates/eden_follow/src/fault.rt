//! Why a follower takes no step, and why logs do not vouch for one.

use eden_ids::NoMemory;
use thiserror::Error;

/// Why a follower took no step. The first cause in this order is reported; nothing
/// changes.
#[derive(Clone, Copy, Debug, PartialEq, Eq, Error)]
pub enum StepFault {
    /// No round is under way, and round numbers are used up.
    #[error("NumbersExhausted")]
    NumbersExhausted,
    /// An allocation failed.
    #[error("NoMemory")]
    NoMemory,
}

impl From<NoMemory> for StepFault {
    ghost use Rattle.std.specs.Prelude.{◌≡◌};
    ghost use Rattle.eden_follow.specs.declared.fault.StepFault.TheVariants as faults;

    ghost from_gives = { λ _ fault. fault ≡ faults.NoMemory };

    fn from(_fault: NoMemory) -> StepFault {
        StepFault::NoMemory
    }
}

/// Why logs do not vouch for a follower.
///
/// Its notes are checked in their order, and the first with a cause decides. The requests
/// of the logs are checked after them.
#[derive(Clone, Copy, Debug, PartialEq, Eq, Error)]
pub enum VouchFault {
    /// A reply came that no log has under its ticket.
    #[error("StrangeReply")]
    StrangeReply,
    /// A log has a request under too low a ticket.
    ///
    /// The request was sent after a reply came, and its ticket is not above that reply's.
    /// The request had not been sent before that reply.
    #[error("BeforeCause")]
    BeforeCause,
    /// A log has a request of the follower that it never sent.
    ///
    /// No note has a cause. A request is the follower's if it is under its id and life.
    #[error("StrangeRequest")]
    StrangeRequest,
    /// An allocation failed.
    #[error("NoMemory")]
    NoMemory,
}

impl From<NoMemory> for VouchFault {
    ghost use Rattle.std.specs.Prelude.{◌≡◌};
    ghost use Rattle.eden_follow.specs.declared.fault.VouchFault.TheVariants as faults;

    ghost from_gives = { λ _ fault. fault ≡ faults.NoMemory };

    fn from(_fault: NoMemory) -> VouchFault {
        VouchFault::NoMemory
    }
}
