//! An audit of a mount's history together with a follower of that mount.

ghost use Rattle.std.specs.Prelude.{◌≡◌, IfErr, OnOk};
ghost use Rattle.eden_headline.specs.Vouched.{IsVouched};
ghost use Rattle.eden_shared.specs.Followings.{AgreesAlong, FollowsHistory, HoldsAtHead, IsFollowFault};

use crate::audited::Audited;
use crate::auditing::audit;
use eden_follow::{Follower, VouchFault, vouch};
use eden_ids::Naming;
use eden_logs::{AuditFault, CallLog};
use std::alloc::Global;
use thiserror::Error;

/// Why it is not found that a follower's mirror is faithful to a mount.
#[derive(Clone, Copy, Debug, PartialEq, Eq, Error)]
pub enum FollowFault {
    /// The logs do not agree with the stored history.
    #[error("{0}")]
    Audit(AuditFault),
    /// The logs agree with it, and do not vouch for the follower.
    #[error("{0}")]
    Vouch(VouchFault),
}

/// Audits the logs of a mount, and checks that a follower's mirror is faithful to it.
///
/// It calls `audit` and then `vouch`. If both accept the logs, the follower's mirror is faithful to
/// the world that the stored history makes, from each world of the opening. Each path at which the
/// mirror differs from the working copy is reported by the next poll, or that poll is refused. At
/// the head, the mirror holds the mount's files at the paths that its filter admits.
///
/// # Errors
///
/// - `Audit` with the fault of `audit`, if it finds one.
/// - `Vouch` with the fault of `vouch`, if only that finds one.
#[tactic(auto, using(crate::proofs::Followed::follows_history, crate::proofs::Followed::head_holds))]
pub fn follows<N: Naming + Drop>(
    alloc: Global,
    audited: &mut Audited<N>,
    logs: &[CallLog],
    follower: &Follower,
) -> Result<(), FollowFault>
    ensures faithful { OnOk result (FollowsHistory N.id audited.old follower.now.mirror) }
    ensures at_head { OnOk result (HoldsAtHead audited.old.present follower.now.mirror) }
    ensures agree { OnOk result (AgreesAlong N.id audited.old logs.now) }
    ensures vouched { OnOk result (IsVouched logs.now follower.now.mirror follower.now.notes) }
    ensures fault { IfErr result (λ fault. IsFollowFault N.id audited.old logs.now follower.now fault) }
    ensures same { audited.new ≡ audited.old }
{
    audited.opening_law();
    let _ = audited.mount();
    if let Err(fault) = audit(alloc, audited, logs) {
        return Err(FollowFault::Audit(fault));
    }
    match vouch(alloc, logs, follower) {
        Ok(()) => Ok(()),
        Err(fault) => Err(FollowFault::Vouch(fault)),
    }
}
