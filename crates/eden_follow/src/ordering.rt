//! Rows in order, and binary search of them.

ghost use Rattle.std.specs.Prelude.{◌≡◌, All, OnOk};
ghost use Rattle.std.specs.List.Sorted.{IsNonDecreasingBy, IsPermutation};
ghost use Rattle.eden_follow.specs.declared.rows.RequestRow.{RequestRow};
ghost use Rattle.eden_follow.specs.declared.rows.ReplyRow.{ReplyRow};
ghost use Rattle.eden_follow.specs.internal.Orders.{AreInOrder, IsGroup, path_in, question_cmp};
ghost use Rattle.eden_follow.specs.internal.Rows.{IsUnsent};

use crate::rows::{ReplyRow, RequestRow};
use eden_ids::NoMemory;
use eden_messages::Request;
use std::cmp::Ordering;

/// Returns the path whose content or list is requested.
fn path_of(request: &Request) -> &[u8]
    ensures { result.now ≡ path_in request.now }
{
    match request {
        Request::Basis { .. } => &[],
        Request::Poll { .. } => &[],
        Request::Fetch { path, .. } => path.as_bytes(),
        Request::List { prefix, .. } => prefix.as_bytes(),
    }
}

/// Compares two requests by their questions: mirror, life and number, and then path.
fn by_question(one: &Request, other: &Request) -> Ordering
    ensures { result ≡ question_cmp one.now other.now }
{
    let (first, second) = (one.query(), other.query());
    first
        .mirror
        .cmp(&second.mirror)
        .then(first.life.cmp(&second.life))
        .then(first.number.cmp(&second.number))
        .then(path_of(one).cmp(path_of(other)))
}

/// Sorts rows by their tickets.
pub(crate) fn sort_replies(rows: &mut Vec<ReplyRow>) -> Result<(), NoMemory>
    ensures same { IsPermutation rows.old.items rows.new.items }
    ensures sorted { OnOk result (IsNonDecreasingBy (λ (row : ReplyRow). row.ticket) rows.new.items) }
{
    rows.sort_by_key(|row| row.ticket)?;
    Ok(())
}

/// Sorts rows by their questions.
pub(crate) fn sort_requests(rows: &mut Vec<RequestRow>) -> Result<(), NoMemory>
    ensures same { IsPermutation rows.old.items rows.new.items }
    ensures sorted { OnOk result (AreInOrder rows.new.items) }
    ensures unsent { All IsUnsent rows.old.items → All IsUnsent rows.new.items }
{
    rows.sort_by(|one, other| by_question(one.request, other.request))?;
    Ok(())
}

/// Returns where the rows of a ticket begin and end.
pub(crate) fn rows_under(rows: &[ReplyRow], ticket: u64) -> (usize, usize)
    requires { IsNonDecreasingBy (λ (row : ReplyRow). row.ticket) rows.now }
    ensures { IsGroup (λ (row : ReplyRow). row.ticket ≡ ticket) rows.now result.0 result.1 }
{
    let start = rows.partition_point(|row| row.ticket < ticket);
    let end = rows.partition_point(|row| row.ticket <= ticket);
    (start, end)
}

/// Returns where the rows of a request's question begin and end.
pub(crate) fn rows_of(rows: &[RequestRow], request: &Request) -> (usize, usize)
    requires { AreInOrder rows.now }
    ensures { IsGroup (λ (row : RequestRow). row.request.now ≡ request.now) rows.now result.0 result.1 }
{
    let start = rows.partition_point(|row| by_question(row.request, request).is_lt());
    let end = rows.partition_point(|row| by_question(row.request, request).is_le());
    (start, end)
}
