//! Rows of what logs note, searched and marked.

ghost use Rattle.std.specs.Prelude.{◌≡◌, ◌↔◌, ◌++◌, ◌∷◌, [], true, false, List, map, All, Contains, IsTrue, IfErr, OnOk};
ghost use Rattle.std.specs.List.Sorted.{IsNonDecreasingBy};
ghost use Rattle.eden_messages.specs.declared.message.Request.{Request};
ghost use Rattle.eden_follow.specs.declared.rows.RequestRow.{RequestRow};
ghost use Rattle.eden_follow.specs.declared.rows.ReplyRow.{ReplyRow};
ghost use Rattle.eden_follow.specs.internal.Orders.{AreInOrder, IsGroup};
ghost use Rattle.eden_follow.specs.internal.Rows.{HasLate, HasLow, IsAbove, IsLateRow, IsMarked, IsTimelyRow, asked, told};

use crate::fault::VouchFault;
use crate::ordering::{rows_of, rows_under};
use crate::rows::{ReplyRow, RequestRow};
use eden_messages::{Reply, Request};

/// Returns true if two replies are equal.
fn same_reply(one: &Reply, other: &Reply) -> bool
    ensures { IsTrue result ↔ (one.now ≡ other.now) }
{
    one == other
}

/// Returns true if two requests are equal.
fn same_request(one: &Request, other: &Request) -> bool
    ensures { IsTrue result ↔ (one.now ≡ other.now) }
{
    one == other
}

/// Returns true if a ticket is above the highest one.
///
/// It also is if there is no highest one.
pub(crate) fn is_above(ticket: u64, highest: Option<u64>) -> bool
    ensures { IsTrue result ↔ IsAbove highest ticket }
{
    match highest {
        Some(highest) => highest < ticket,
        None => true,
    }
}

/// Returns true if a row has the reply under the ticket.
fn has_reply(rows: &[ReplyRow], ticket: u64, reply: &Reply) -> bool
    ensures told { result ≡ true → Contains (map told rows.now) (ticket, reply.now) }
    ensures untold { result ≡ false → All (λ (row : ReplyRow). row.ticket ≡ ticket → row.reply.now ≡ reply.now → ⊥) rows.now }
{
    for row in rows {
        if row.ticket == ticket && same_reply(row.reply, reply) {
            return true;
        }
    }
    false
}

/// Returns true if a row has the reply under the ticket.
///
/// The rows are in the order of their tickets.
pub(crate) fn is_told(rows: &[ReplyRow], ticket: u64, reply: &Reply) -> bool
    requires { IsNonDecreasingBy (λ (row : ReplyRow). row.ticket) rows.now }
    ensures told { result ≡ true → Contains (map told rows.now) (ticket, reply.now) }
    ensures untold { result ≡ false → All (λ (row : ReplyRow). row.ticket ≡ ticket → row.reply.now ≡ reply.now → ⊥) rows.now }
{
    let (start, end) = rows_under(rows, ticket);
    has_reply(&rows[start..end], ticket, reply)
}

/// Returns true if the request was sent, by its rows' marks.
fn was_sent(rows: &[RequestRow], request: &Request) -> bool
    ensures sent { result ≡ true → (sent : List Request) → All (IsMarked sent) rows.now → Contains sent request.now }
    ensures unsent { result ≡ false → All (λ (row : RequestRow). row.request.now ≡ request.now → row.sent ≡ false) rows.now }
{
    for row in rows {
        if row.sent && same_request(row.request, request) {
            return true;
        }
    }
    false
}

/// Returns true if the request's rows are above the highest ticket.
fn are_above(rows: &[RequestRow], request: &Request, highest: Option<u64>) -> bool
    ensures above { result ≡ true → All (λ (row : RequestRow). row.request.now ≡ request.now → IsAbove highest row.ticket) rows.now }
    ensures low { result ≡ false → HasLow rows.now request.now highest }
{
    for row in rows {
        if !is_above(row.ticket, highest) && same_request(row.request, request) {
            return false;
        }
    }
    true
}

/// Marks a row if it has the request.
fn mark_row(row: &mut RequestRow, request: &Request)
    ensures row { asked row.new ≡ asked row.old }
    ensures marked { (sent : List Request) → IsMarked sent row.old → IsMarked (sent ++ request.now ∷ []) row.new }
{
    if same_request(row.request, request) {
        row.sent = true;
    }
}

/// Marks the rows of a request, which are all between two indexes.
fn mark(rows: &mut [RequestRow], start: usize, end: usize, request: &Request)
    requires { IsGroup (λ (row : RequestRow). row.request.now ≡ request.now) rows.old start end }
    ensures rows { map asked rows.new ≡ map asked rows.old }
    ensures marked { (sent : List Request) → All (IsMarked sent) rows.old → All (IsMarked (sent ++ request.now ∷ [])) rows.new }
{
    for at in start..end {
        mark_row(&mut rows[at], request);
    }
}

/// Notes that a request is sent.
///
/// Replies came before under tickets up to the highest one. Its rows are found by binary
/// search. If it was sent before, the first of them is marked.
fn send(rows: &mut [RequestRow], request: &Request, highest: Option<u64>) -> Result<(), VouchFault>
    requires { AreInOrder rows.old }
    ensures rows { map asked rows.new ≡ map asked rows.old }
    ensures marked { OnOk result ((sent : List Request) → All (IsMarked sent) rows.old → All (IsMarked (sent ++ request.now ∷ [])) rows.new) }
    ensures timely { OnOk result ((sent : List Request) → All (IsMarked sent) rows.old → IsTimelyRow (map asked rows.old) sent highest request.now) }
    ensures late { IfErr result (λ fault. (fault ≡ VouchFault.BeforeCause)
        × ((sent : List Request) → All (IsMarked sent) rows.old → IsLateRow (map asked rows.old) sent highest request.now)) }
{
    let (start, end) = rows_of(rows, request);
    let group = &rows[start..end];
    if was_sent(group, request) {
        return Ok(());
    }
    if !are_above(group, request, highest) {
        return Err(VouchFault::BeforeCause);
    }
    mark(rows, start, end, request);
    Ok(())
}

/// Notes that requests are sent together.
pub(crate) fn send_all(
    rows: &mut [RequestRow],
    requests: &[Request],
    highest: Option<u64>,
) -> Result<(), VouchFault>
    requires { AreInOrder rows.old }
    ensures rows { map asked rows.new ≡ map asked rows.old }
    ensures marked { OnOk result ((sent : List Request) → All (IsMarked sent) rows.old → All (IsMarked (sent ++ requests.now)) rows.new) }
    ensures timely { OnOk result ((sent : List Request) → All (IsMarked sent) rows.old
        → All (IsTimelyRow (map asked rows.old) sent highest) requests.now) }
    ensures late { IfErr result (λ fault. (fault ≡ VouchFault.BeforeCause)
        × ((sent : List Request) → All (IsMarked sent) rows.old → HasLate (map asked rows.old) sent highest requests.now)) }
{
    for request in requests {
        send(rows, request, highest)?;
    }
    Ok(())
}
