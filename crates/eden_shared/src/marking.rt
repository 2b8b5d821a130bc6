//! Marks of the tickets that are in logs.

ghost use Rattle.std.specs.Prelude.{◌≡◌, ℕ, List, ◌++◌, ◌∷◌, [], length, All};
ghost use Rattle.eden_logs.specs.Logs.{IsNumber, tickets_of};
ghost use Rattle.eden_shared.specs.internal.Marks.{Marks, is_marked};

use eden_logs::{CallLog, LogEntry};

/// Returns whether a ticket is marked.
pub(crate) fn is_marked(marks: &[bool], ticket: u64) -> bool
    ensures { result ≡ is_marked marks.now ticket }
{
    let Some(place) = ticket.checked_sub(1) else {
        return false;
    };
    marks.get(place as usize).copied().unwrap_or(false)
}

/// Marks a ticket.
#[tactic(auto, using(crate::proofs::Marked::marks_more))]
fn mark(marks: &mut [bool], ticket: u64)
    requires { IsNumber (length marks.old) ticket }
    ensures { (earlier : List ℕ) → Marks marks.old earlier → Marks marks.new (earlier ++ ticket ∷ []) }
{
    marks[(ticket - 1) as usize] = true;
}

/// Marks the tickets of a log.
pub(crate) fn mark_tickets(marks: &mut [bool], log: &CallLog)
    requires { All (λ (noted : LogEntry). IsNumber (length marks.old) noted.ticket) log.now.entries }
    ensures { (earlier : List ℕ) → Marks marks.old earlier → Marks marks.new (earlier ++ tickets_of log.now) }
{
    for noted in log.entries.as_slice() {
        mark(marks, noted.ticket);
    }
}
