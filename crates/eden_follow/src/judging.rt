//! The check of a follower's notes, in their order, against the rows of logs.

ghost use Rattle.std.specs.Prelude.{◌≡◌, ℕ, ◌++◌, ◌∷◌, [], List, map, All, true, IfOk, IfErr, OnOk};
ghost use Rattle.std.specs.List.Sorted.{IsNonDecreasingBy};
ghost use Rattle.eden_headline.specs.declared.note.Note.{Note};
ghost use Rattle.eden_headline.specs.Notes.{sent_in};
ghost use Rattle.eden_headline.specs.Vouched.{AreVouched, IsVouched, IsVouchedNote, is_own};
ghost use Rattle.eden_logs.specs.declared.log.CallLog.{CallLog};
ghost use Rattle.eden_logs.specs.declared.log.LogEntry.{LogEntry};
ghost use Rattle.eden_logs.specs.Logs.{entries_in};
ghost use Rattle.eden_messages.specs.Mirrors.{MirrorState};
ghost use Rattle.eden_follow.specs.declared.rows.RequestRow.{RequestRow};
ghost use Rattle.eden_follow.specs.Causes.{FirstCause, IsAgainst, IsCause};
ghost use Rattle.eden_follow.specs.internal.Rows.{IsHighest, IsMarked, IsUnsent, asked, told};
ghost use Rattle.eden_follow.specs.declared.rows.ReplyRow.{ReplyRow};
ghost use Rattle.eden_follow.specs.internal.Orders.{AreInOrder};
ghost use Rattle.eden_follow.specs.internal.Judged.{HasStrange, IsAt, Lists};

use crate::fault::VouchFault;
use crate::marking::{is_above, is_told, send_all};
use crate::rows::{ReplyRow, RequestRow};
use eden_headline::Note;
use eden_messages::Request;

/// Returns the higher of a ticket and the highest so far.
fn higher(highest: Option<u64>, ticket: u64) -> Option<u64>
    ensures { (tickets : List ℕ) → IsHighest tickets highest → IsHighest (tickets ++ ticket ∷ []) result }
{
    if is_above(ticket, highest) {
        return Some(ticket);
    }
    highest
}

/// Checks a note, and returns the highest ticket after it.
///
/// `highest` is the highest ticket of the replies that came before.
fn check_note(
    replies: &[ReplyRow],
    rows: &mut [RequestRow],
    highest: Option<u64>,
    note: &Note,
) -> Result<Option<u64>, VouchFault>
    requires replies { IsNonDecreasingBy (λ (row : ReplyRow). row.ticket) replies.now }
    requires requests { AreInOrder rows.old }
    ensures rows { map asked rows.new ≡ map asked rows.old }
    ensures at { IfOk result (λ higher. (earlier : List Note) → IsAt earlier rows.old highest → IsAt (earlier ++ note.now ∷ []) rows.new higher) }
    ensures vouched { OnOk result ((entries : List LogEntry) (earlier : List Note) → Lists entries (map told replies.now) (map asked rows.old)
        → IsAt earlier rows.old highest → IsVouchedNote entries earlier note.now) }
    ensures cause { IfErr result (λ fault. (entries : List LogEntry) (earlier : List Note) → Lists entries (map told replies.now) (map asked rows.old)
        → IsAt earlier rows.old highest → IsCause entries earlier note.now fault) }
{
    match note {
        Note::Began => Ok(highest),
        Note::Sent { requests } => {
            send_all(rows, requests.as_slice(), highest)?;
            Ok(highest)
        }
        Note::Came { ticket, reply } => {
            if !is_told(replies, *ticket, reply) {
                return Err(VouchFault::StrangeReply);
            }
            Ok(higher(highest, *ticket))
        }
    }
}

/// Checks notes in their order, and marks what was sent.
fn check_notes(
    replies: &[ReplyRow],
    rows: &mut [RequestRow],
    notes: &[Note],
) -> Result<(), VouchFault>
    requires replies { IsNonDecreasingBy (λ (row : ReplyRow). row.ticket) replies.now }
    requires requests { AreInOrder rows.old }
    requires unsent { All IsUnsent rows.old }
    ensures rows { map asked rows.new ≡ map asked rows.old }
    ensures marked { OnOk result (All (IsMarked (sent_in notes.now)) rows.new) }
    ensures vouched { OnOk result ((entries : List LogEntry) → Lists entries (map told replies.now) (map asked rows.old) → AreVouched entries [] notes.now) }
    ensures cause { IfErr result (λ fault. (entries : List LogEntry) → Lists entries (map told replies.now) (map asked rows.old) → FirstCause entries [] notes.now fault) }
{
    let mut highest = None;
    for note in notes {
        highest = check_note(replies, rows, highest, note)?;
    }
    Ok(())
}

/// Returns true if a request is under an id and a life.
fn is_own(request: &Request, id: u64, life: u64) -> bool
    ensures { result ≡ is_own id life request.now }
{
    let query = request.query();
    query.mirror == id && query.life == life
}

/// Checks that the logs' requests of a follower are marked.
///
/// They are those under its id and its life.
fn check_requests(rows: &[RequestRow], id: u64, life: u64) -> Result<(), VouchFault>
    ensures all { OnOk result (All (λ (row : RequestRow). is_own id life row.request.now ≡ true → row.sent ≡ true) rows.now) }
    ensures strange { IfErr result (λ fault. HasStrange rows.now id life fault) }
{
    for row in rows {
        if !row.sent && is_own(row.request, id, life) {
            return Err(VouchFault::StrangeRequest);
        }
    }
    Ok(())
}

/// Checks notes against rows of logs, and then the logs' requests.
///
/// The requests are those under an id and a life.
pub(crate) fn check(
    replies: &[ReplyRow],
    rows: &mut [RequestRow],
    notes: &[Note],
    id: u64,
    life: u64,
) -> Result<(), VouchFault>
    requires replies { IsNonDecreasingBy (λ (row : ReplyRow). row.ticket) replies.now }
    requires requests { AreInOrder rows.old }
    requires unsent { All IsUnsent rows.old }
    ensures vouched { OnOk result ((logs : List CallLog) (m : MirrorState) → Lists (entries_in logs) (map told replies.now) (map asked rows.old)
        → id ≡ m.id → life ≡ m.life → IsVouched logs m notes.now) }
    ensures against { IfErr result (λ fault. (logs : List CallLog) (m : MirrorState) → Lists (entries_in logs) (map told replies.now) (map asked rows.old)
        → id ≡ m.id → life ≡ m.life → IsAgainst logs m notes.now fault) }
{
    check_notes(replies, rows, notes)?;
    check_requests(rows, id, life)
}
