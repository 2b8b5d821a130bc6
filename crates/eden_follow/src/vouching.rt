//! The check whether logs vouch for a follower.

ghost use Rattle.std.specs.Prelude.{◌≢◌, IfErr, OnOk};
ghost use Rattle.eden_headline.specs.Merges.{GoesWith};
ghost use Rattle.eden_headline.specs.Vouched.{IsVouched};
ghost use Rattle.eden_follow.specs.Causes.{IsAgainst};

use crate::fault::VouchFault;
use crate::follower::Follower;
use crate::judging::check;
use crate::ordering::{sort_replies, sort_requests};
use crate::rows::{list_replies, list_requests};
use eden_logs::CallLog;
use std::alloc::Global;

/// Checks whether the logs of a mount's callers vouch for a follower.
///
/// They do if:
///
/// - each reply that came to it is an answer that a log has under its ticket;
/// - each request that it sent was sent before a reply came under the request's ticket or
///   a later one;
/// - it sent each request that a log has under its id and life.
///
/// Then, no matter what the network did, the follower's notes merge into one schedule
/// with each history with which the logs agree, from any world. The schedule ends with
/// the history's world and the follower's mirror. So each path at which that mirror and
/// the working copy differ is reported since its place, or the place is refused; and at
/// the head they agree.
///
/// The entries of all logs are sorted once, by their tickets and by their questions; then
/// each note is looked up by binary search. So n notes and entries take n log n steps.
/// This assumes that the logs have no ticket twice, as holds for all that agree with a
/// history. It also assumes no two different requests under one question and path, as
/// holds for all that mirrors send.
///
/// # Errors
///
/// The notes are checked in their order, and the first with a cause decides:
///
/// - `StrangeReply` at a reply that no log has as the answer under its ticket.
/// - `BeforeCause` at a request that was not sent before, if a log has it under a ticket
///   that is not above that of a reply which came earlier. It does not matter whether the
///   request's own reply was delivered.
///
/// Then `StrangeRequest` if a log has a request under the follower's id and life that it
/// never sent. `NoMemory` if an allocation fails; it may be returned instead of any other
/// answer.
pub fn vouch(alloc: Global, logs: &[CallLog], follower: &Follower) -> Result<(), VouchFault>
    ensures vouched { OnOk result (IsVouched logs.now follower.now.mirror follower.now.notes) }
    // With each history that agrees, the notes merge into a schedule, and what is true
    // after every schedule is true of the mirror.
    ensures merges { OnOk result (GoesWith logs.now follower.now.mirror follower.now.notes) }
    ensures fault { IfErr result (λ fault. IsAgainst logs.now follower.now.mirror follower.now.notes fault) }
    // If a fault other than `NoMemory` is returned, they do not vouch for it.
    ensures excluded { IfErr result (λ fault. fault ≢ VouchFault.NoMemory → IsVouched logs.now follower.now.mirror follower.now.notes → ⊥) }
{
    let mut replies = list_replies(alloc, logs)?;
    sort_replies(&mut replies)?;
    let mut rows = list_requests(alloc, logs)?;
    sort_requests(&mut rows)?;
    let mirror = follower.mirror();
    let notes = follower.notes.as_slice();
    check(
        replies.as_slice(),
        rows.as_mut_slice(),
        notes,
        mirror.id(),
        mirror.life(),
    )
}
