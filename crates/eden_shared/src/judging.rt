//! The check of all logs by a history and its answers.

ghost use Rattle.std.specs.Prelude.{◌≡◌, ◌≢◌, ◌↔◌, [], length, IsTrue, OnOk, IfErr};
ghost use Rattle.eden_logs.specs.Logs.{LogsGood, tickets_in};
ghost use Rattle.eden_shared.specs.Faults.{LogsFault};
ghost use Rattle.eden_shared.specs.internal.Marks.{Marks};

use crate::checking::check_log;
use crate::marking::mark_tickets;
use eden_logs::{AuditFault, CallAnswer, CallLog, HistoryEntry};
use std::alloc::Global;

/// Judges the entries of all logs, each once.
///
/// There is a mark for each entry of the history, and none is set.
fn check_with_marks(
    history: &[HistoryEntry],
    answers: &[CallAnswer],
    marks: &mut [bool],
    logs: &[CallLog],
) -> Result<(), AuditFault>
    requires count { length marks.old ≡ length history.now }
    requires none { Marks marks.old [] }
    ensures good { OnOk result (LogsGood history.now answers.now [] logs.now) }
    ensures fault { IfErr result (λ fault. LogsFault history.now answers.now [] logs.now fault) }
{
    for log in logs {
        check_log(history, answers, marks, log)?;
        mark_tickets(marks, log);
    }
    Ok(())
}

/// Judges the entries of all logs, with marks of its own.
#[tactic(auto, using(crate::proofs::Marked::unmarked))]
pub(crate) fn check_logs(
    alloc: Global,
    history: &[HistoryEntry],
    answers: &[CallAnswer],
    logs: &[CallLog],
) -> Result<(), AuditFault>
    ensures good { OnOk result (LogsGood history.now answers.now [] logs.now) }
    ensures fault { IfErr result (λ fault. fault ≢ AuditFault.NoMemory → LogsFault history.now answers.now [] logs.now fault) }
{
    match Vec::from_elem(alloc, false, history.len()) {
        Ok(marks) => {
            let mut marks = marks;
            check_with_marks(history, answers, marks.as_mut_slice(), logs)
        }
        Err(_) => Err(AuditFault::NoMemory),
    }
}

/// Returns whether the logs have `count` entries in all.
#[tactic(auto, using(crate::proofs::Walked::count_next, crate::proofs::Walked::count_within))]
pub(crate) fn are_as_many(count: usize, logs: &[CallLog]) -> bool
    ensures { IsTrue result ↔ (length (tickets_in logs.now) ≡ count) }
{
    let mut left = count;
    for log in logs {
        match left.checked_sub(log.entries.len()) {
            Some(rest) => left = rest,
            None => return false,
        }
    }
    left == 0
}
