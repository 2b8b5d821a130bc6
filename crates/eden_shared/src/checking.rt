//! The check of a log by a history.

ghost use Rattle.std.specs.Prelude.{◌≡◌, ◌↔◌, ℕ, List, IsTrue, OnOk, IfErr};
ghost use Rattle.std.specs.Option.{option_copied};
ghost use Rattle.eden_logs.specs.Logs.{AllGood, IsGood, IsKnown, IsRight, under};
ghost use Rattle.eden_shared.specs.Faults.{FirstFault, IsFault};
ghost use Rattle.eden_shared.specs.internal.Marks.{Marks};

use crate::marking::is_marked;
use eden_logs::{AuditFault, Call, CallAnswer, CallLog, HistoryEntry, LogEntry};

/// Returns the item under a ticket. The first item is under ticket 1.
fn at_ticket<T>(items: &[T], ticket: u64) -> Option<&T>
    ensures { option_copied result ≡ under items.now ticket }
{
    let place = ticket.checked_sub(1)?;
    items.get(place as usize)
}

/// Compares two calls.
fn same_call(one: &Call, other: &Call) -> bool
    ensures { IsTrue result ↔ (one.now ≡ other.now) }
{
    one == other
}

/// Compares two answers.
fn same_answer(one: &CallAnswer, other: &CallAnswer) -> bool
    ensures { IsTrue result ↔ (one.now ≡ other.now) }
{
    one == other
}

/// Returns whether the history has this call of this caller under its ticket.
fn is_known(history: &[HistoryEntry], caller: u64, noted: &LogEntry) -> bool
    ensures { IsTrue result ↔ IsKnown history.now caller noted.now }
{
    match at_ticket(history, noted.ticket) {
        Some(entry) => entry.caller == caller && same_call(&entry.call, &noted.call),
        None => false,
    }
}

/// Returns whether the answer is the right one, or there is none.
fn is_right(answers: &[CallAnswer], noted: &LogEntry) -> bool
    ensures { IsTrue result ↔ IsRight answers.now noted.now }
{
    if let CallAnswer::Unanswered = &noted.answer {
        return true;
    }
    match at_ticket(answers, noted.ticket) {
        Some(answer) => same_answer(answer, &noted.answer),
        None => false,
    }
}

/// Judges an entry of a log.
///
/// The entry before it in the log has the ticket `last`, or `last` is 0. The marked tickets are in
/// earlier logs.
fn check_entry(
    history: &[HistoryEntry],
    answers: &[CallAnswer],
    marks: &[bool],
    caller: u64,
    last: u64,
    noted: &LogEntry,
) -> Result<(), AuditFault>
    ensures good { OnOk result ((earlier : List ℕ) → Marks marks.now earlier → IsGood history.now answers.now earlier caller last noted.now) }
    ensures fault { IfErr result (λ fault. (earlier : List ℕ) → Marks marks.now earlier
        → IsFault history.now answers.now earlier caller last noted.now fault) }
{
    if !is_known(history, caller, noted) {
        return Err(AuditFault::UnknownCall);
    }
    if !is_right(answers, noted) {
        return Err(AuditFault::WrongReply);
    }
    if noted.ticket <= last {
        return Err(AuditFault::OutOfOrder);
    }
    if is_marked(marks, noted.ticket) {
        return Err(AuditFault::Twice);
    }
    Ok(())
}

/// Judges the entries of a log. The marked tickets are in earlier logs.
pub(crate) fn check_log(
    history: &[HistoryEntry],
    answers: &[CallAnswer],
    marks: &[bool],
    log: &CallLog,
) -> Result<(), AuditFault>
    ensures good { OnOk result ((earlier : List ℕ) → Marks marks.now earlier
        → AllGood history.now answers.now earlier log.now.caller 0 log.now.entries) }
    ensures fault { IfErr result (λ fault. (earlier : List ℕ) → Marks marks.now earlier
        → FirstFault history.now answers.now earlier log.now.caller 0 log.now.entries fault) }
{
    let mut last = 0;
    for noted in log.entries.as_slice() {
        check_entry(history, answers, marks, log.caller, last, noted)?;
        last = noted.ticket;
    }
    Ok(())
}
