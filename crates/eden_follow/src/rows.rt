//! The replies and requests of logs, row by row.

ghost use Rattle.std.specs.Prelude.{◌≡◌, ◌++◌, map, All, IfOk, OnOk};
ghost use Rattle.eden_logs.specs.Logs.{entries_in};
ghost use Rattle.eden_follow.specs.internal.Rows.{IsUnsent, asked, asked_by, asked_in, told, told_by, told_in};

use eden_ids::NoMemory;
use eden_logs::{Call, CallAnswer, CallLog, LogEntry};
use eden_messages::{Reply, Request};
use std::alloc::Global;

/// A reply that a log has as the answer under a ticket.
#[derive(Clone, Copy)]
pub(crate) struct ReplyRow<'a> {
    pub(crate) ticket: u64,
    pub(crate) reply: &'a Reply,
}

/// A request in a log, its ticket, and whether it was sent.
#[derive(Clone, Copy)]
pub(crate) struct RequestRow<'a> {
    pub(crate) ticket: u64,
    pub(crate) request: &'a Request,
    pub(crate) sent: bool,
}

/// Adds a row for the reply of an entry, if any.
fn add_reply<'a>(rows: &mut Vec<ReplyRow<'a>>, entry: &'a LogEntry) -> Result<(), NoMemory>
    ensures { OnOk result (map told rows.new.items ≡ map told rows.old.items ++ told_by entry.now.ticket entry.now.answer) }
{
    let ticket = entry.ticket;
    match &entry.answer {
        CallAnswer::Replied(reply) => {
            rows.push(ReplyRow { ticket, reply })?;
            Ok(())
        }
        CallAnswer::At(_) => Ok(()),
        CallAnswer::Checked { .. } => Ok(()),
        CallAnswer::Refused(_) => Ok(()),
        CallAnswer::Unanswered => Ok(()),
    }
}

/// Adds a row for each reply of a log.
fn add_replies<'a>(rows: &mut Vec<ReplyRow<'a>>, entries: &'a [LogEntry]) -> Result<(), NoMemory>
    ensures { OnOk result (map told rows.new.items ≡ map told rows.old.items ++ told_in entries.now) }
{
    for entry in entries {
        add_reply(rows, entry)?;
    }
    Ok(())
}

/// Returns a row for each reply of the logs.
#[tactic(auto, using(crate::proofs::RowLists::told_next))]
pub(crate) fn list_replies<'a>(
    alloc: Global,
    logs: &'a [CallLog],
) -> Result<Vec<ReplyRow<'a>>, NoMemory>
    ensures { IfOk result (λ rows. map told rows.items ≡ told_in (entries_in logs.now)) }
{
    let mut rows = Vec::new(alloc);
    for log in logs {
        add_replies(&mut rows, log.entries.as_slice())?;
    }
    Ok(rows)
}

/// Adds a row for the request of an entry, if any.
fn add_request<'a>(rows: &mut Vec<RequestRow<'a>>, entry: &'a LogEntry) -> Result<(), NoMemory>
    ensures rows { OnOk result (map asked rows.new.items ≡ map asked rows.old.items ++ asked_by entry.now.ticket entry.now.call) }
    ensures unsent { OnOk result (All IsUnsent rows.old.items → All IsUnsent rows.new.items) }
{
    let ticket = entry.ticket;
    match &entry.call {
        Call::Change(_) => Ok(()),
        Call::Ask(request) => {
            let sent = false;
            rows.push(RequestRow {
                ticket,
                request,
                sent,
            })?;
            Ok(())
        }
    }
}

/// Adds a row for each request of a log, as not sent.
fn add_requests<'a>(rows: &mut Vec<RequestRow<'a>>, entries: &'a [LogEntry]) -> Result<(), NoMemory>
    ensures rows { OnOk result (map asked rows.new.items ≡ map asked rows.old.items ++ asked_in entries.now) }
    ensures unsent { OnOk result (All IsUnsent rows.old.items → All IsUnsent rows.new.items) }
{
    for entry in entries {
        add_request(rows, entry)?;
    }
    Ok(())
}

/// Returns a row for each request of the logs, as not sent.
#[tactic(auto, using(crate::proofs::RowLists::asked_next))]
pub(crate) fn list_requests<'a>(
    alloc: Global,
    logs: &'a [CallLog],
) -> Result<Vec<RequestRow<'a>>, NoMemory>
    ensures rows { IfOk result (λ rows. map asked rows.items ≡ asked_in (entries_in logs.now)) }
    ensures unsent { IfOk result (λ rows. All IsUnsent rows.items) }
{
    let mut rows = Vec::new(alloc);
    for log in logs {
        add_requests(&mut rows, log.entries.as_slice())?;
    }
    Ok(rows)
}
