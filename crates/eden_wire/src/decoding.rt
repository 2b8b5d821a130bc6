//! Decoding: a request or a reply from the bytes of its body.

ghost use Rattle.std.specs.Prelude.{◌≡◌, None, Some, Ok, IfOk};
ghost use Rattle.std.specs.Option.{option_copied};
ghost use Rattle.eden_messages.specs.declared.message.Request.{Request};
ghost use Rattle.eden_messages.specs.declared.message.Request.TheVariants.{Basis, Poll, Fetch, List as Below};
ghost use Rattle.eden_messages.specs.declared.message.Reply.{Reply};
ghost use Rattle.eden_messages.specs.declared.message.Reply.TheVariants.{BasisIs, ChangesAre, ContentIs, Refused, ListIs};
ghost use Rattle.eden_messages.specs.Spells.{SpellsRequest, SpellsReply};
ghost use Rattle.eden_wire.specs.Formats.{byte, items_at, only, tagged, then_by, versioned, ◌▹◌};
ghost use Rattle.eden_wire.specs.Messages.{query, position, path, filter, excluded, excepting, filtered_of, filtered_cases, marked_path, is_above, is_within, paths_within, ascending_marks, marked_paths, content, cause};
ghost use Rattle.eden_wire.specs.Messages as messages;
ghost use Rattle.eden_wire.specs.Reading.{Gives, after_tag, ended, read_to_end, tag_at, read_request, read_reply};
ghost use Rattle.eden_wire.specs.internal.Listing.{last_item};

use crate::fault::DecodeFault;
use crate::fields::{
    byte_of, cause_of, content_of, excluded_of, filter_of, mark_of, path_of, position_of, query_of,
    u32_of,
};
use eden_globs::Filter;
use eden_history::Marked;
use eden_ids::{NoMemory, Path, Sequence};
use eden_messages::{Reply, Request};
use eden_stream::BODY_LIMIT;
use std::alloc::Global;

/// Reads the version and the tag after it.
pub(crate) fn head_of(bytes: &[u8]) -> Result<(u8, &[u8]), DecodeFault>
    ensures { Gives (λ x. (x.0, x.1.now)) result ((versioned byte).read bytes.now) }
{
    let (version, rest) = byte_of(bytes)?;
    if version != 2 {
        return Err(DecodeFault::Version);
    }
    byte_of(rest)
}

/// Reads the version and the tag of a body.
#[tactic(auto, unfolding(crate::specs::Reading::tag_at))]
pub(crate) fn tag_of(body: &[u8]) -> Result<(u8, &[u8]), DecodeFault>
    ensures { Gives (λ x. (x.0, x.1.now)) result (tag_at body.now) }
{
    if body.len() > BODY_LIMIT {
        return Err(DecodeFault::TooLarge);
    }
    head_of(body)
}

/// Reads the version and this tag. Returns the bytes after them.
pub(crate) fn after_tag(wanted: u8, body: &[u8]) -> Result<&[u8], DecodeFault>
    ensures { Gives (λ rest. rest.now) result (after_tag wanted body.now) }
{
    let (tag, rest) = tag_of(body)?;
    if tag != wanted {
        return Err(DecodeFault::BadTag);
    }
    Ok(rest)
}

/// Returns true if the path sorts after the last one.
///
/// It also does if there is none.
pub(crate) fn is_above(last: Option<&Path>, path: &Path) -> bool
    ensures { result ≡ messages.is_above (option_copied last.entry) path.now }
{
    match last {
        None => true,
        Some(last) => *last < *path,
    }
}

/// Returns true if the path is below the directory.
///
/// It also is if there is none.
pub(crate) fn is_within(prefix: Option<&Path>, path: &Path) -> bool
    ensures { result ≡ messages.is_within (option_copied prefix.entry) path.now }
{
    match prefix {
        None => true,
        Some(prefix) => path.is_below(prefix),
    }
}

/// Reads a path that may follow these in a list.
///
/// The list is that of a directory or of any paths.
fn next_of<'a>(
    alloc: Global,
    prefix: Option<&Path>,
    before: &[Path],
    bytes: &'a [u8],
) -> Result<(Path, &'a [u8]), DecodeFault>
    ensures { Gives (λ x. (x.0, x.1.now)) result ((only (only path (is_within (option_copied prefix.entry))) (is_above (last_item before.now))).read bytes.now) }
{
    let (path, rest) = path_of(alloc, bytes)?;
    if !is_above(before.last(), &path) || !is_within(prefix, &path) {
        return Err(DecodeFault::BadField);
    }
    Ok((path, rest))
}

/// Reads `count` paths, each after the one before it.
///
/// Each must be below the directory, if there is one. No room is reserved for a count
/// that was only read.
fn paths_of<'a>(
    alloc: Global,
    prefix: Option<&Path>,
    count: u32,
    bytes: &'a [u8],
) -> Result<(Vec<Path>, &'a [u8]), DecodeFault>
    ensures { Gives (λ x. (x.0.items, x.1.now)) result (items_at (only path (is_within (option_copied prefix.entry))) is_above count None bytes.now) }
{
    let mut list = Vec::new(alloc);
    let mut rest = bytes;
    for _ in 0..count {
        let (path, after) = next_of(alloc, prefix, list.as_slice(), rest)?;
        list.push(path)?;
        rest = after;
    }
    Ok((list, rest))
}

/// Reads ascending paths, all below a prefix if there is one.
pub(crate) fn path_listing_of<'a>(
    alloc: Global,
    prefix: Option<&Path>,
    bytes: &'a [u8],
) -> Result<(Sequence<Path>, &'a [u8]), DecodeFault>
    ensures { Gives (λ x. (x.0, x.1.now)) result ((paths_within (option_copied prefix.entry)).read bytes.now) }
{
    let (count, rest) = u32_of(bytes)?;
    let (list, rest) = paths_of(alloc, prefix, count, rest)?;
    Ok((Sequence::from_vec(list), rest))
}

/// Reads a marked path that may follow these.
fn marked_of<'a>(
    alloc: Global,
    before: &[Marked],
    bytes: &'a [u8],
) -> Result<(Marked, &'a [u8]), DecodeFault>
    ensures { Gives (λ x. (x.0, x.1.now)) result ((only marked_path (ascending_marks (last_item before.now))).read bytes.now) }
{
    let (mark, rest) = mark_of(bytes)?;
    let (path, rest) = path_of(alloc, rest)?;
    if !is_above(before.last().map(|last| &last.path), &path) {
        return Err(DecodeFault::BadField);
    }
    Ok((Marked { mark, path }, rest))
}

/// Reads `count` marked paths, each after the one before it.
///
/// No room is reserved for a count that was only read.
fn list_of(alloc: Global, count: u32, bytes: &[u8]) -> Result<(Vec<Marked>, &[u8]), DecodeFault>
    ensures { Gives (λ x. (x.0.items, x.1.now)) result (items_at marked_path ascending_marks count None bytes.now) }
{
    let mut list = Vec::new(alloc);
    let mut rest = bytes;
    for _ in 0..count {
        let (marked, after) = marked_of(alloc, list.as_slice(), rest)?;
        list.push(marked)?;
        rest = after;
    }
    Ok((list, rest))
}

/// Reads a list of marked paths. Returns it and the bytes after it.
pub(crate) fn listing_of(
    alloc: Global,
    bytes: &[u8],
) -> Result<(Sequence<Marked>, &[u8]), DecodeFault>
    ensures { Gives (λ x. (x.0, x.1.now)) result (marked_paths.read bytes.now) }
{
    let (count, rest) = u32_of(bytes)?;
    let (list, rest) = list_of(alloc, count, rest)?;
    Ok((Sequence::from_vec(list), rest))
}

/// Returns the message that was read, if nothing follows it.
pub(crate) fn whole<T: Drop>(message: T, rest: &[u8]) -> Result<T, DecodeFault>
    ensures { result ≡ ended message rest.now }
{
    if rest.is_empty() {
        Ok(message)
    } else {
        Err(DecodeFault::Trailing)
    }
}

/// Reads the rest of a Basis, after its tag.
fn basis_of(alloc: Global, bytes: &[u8]) -> Result<Request, DecodeFault>
    ensures { Gives (λ request. request) result (read_to_end (query ▹ filter) (λ x. Basis x.0 x.1) bytes.now) }
{
    let (query, rest) = query_of(bytes)?;
    let (filter, rest) = filter_of(alloc, rest)?;
    whole(Request::Basis { query, filter }, rest)
}

/// Reads the rest of a Fetch, after its tag.
fn fetch_of(alloc: Global, bytes: &[u8]) -> Result<Request, DecodeFault>
    ensures { Gives (λ request. request) result (read_to_end (query ▹ path) (λ x. Fetch x.0 x.1) bytes.now) }
{
    let (query, rest) = query_of(bytes)?;
    let (path, rest) = path_of(alloc, rest)?;
    whole(Request::Fetch { query, path }, rest)
}

/// Reads the rest of a Poll, after its tag.
fn poll_of(alloc: Global, bytes: &[u8]) -> Result<Request, DecodeFault>
    ensures { Gives (λ request. request) result (read_to_end (query ▹ position ▹ filter) (λ x. Poll x.0 x.1.0 x.1.1) bytes.now) }
{
    let (query, rest) = query_of(bytes)?;
    let (since, rest) = position_of(rest)?;
    let (filter, rest) = filter_of(alloc, rest)?;
    let message = Request::Poll {
        query,
        since,
        filter,
    };
    whole(message, rest)
}

/// Reads the rest of a List, after its tag.
fn list_request_of(alloc: Global, bytes: &[u8]) -> Result<Request, DecodeFault>
    ensures { Gives (λ request. request) result (read_to_end (query ▹ path ▹ filter) (λ x. Below x.0 x.1.0 x.1.1) bytes.now) }
{
    let (query, rest) = query_of(bytes)?;
    let (prefix, rest) = path_of(alloc, rest)?;
    let (filter, rest) = filter_of(alloc, rest)?;
    let message = Request::List {
        query,
        prefix,
        filter,
    };
    whole(message, rest)
}

/// Returns the request with the patterns of another filter excluded.
pub(crate) fn excepting(request: Request, excluded: &Filter) -> Result<Request, NoMemory>
    ensures { IfOk result (λ r. r ≡ excepting excluded.now request) }
{
    match request {
        Request::Basis { query, filter } => {
            let filter = filter.except(excluded)?;
            Ok(Request::Basis { query, filter })
        }
        Request::Poll {
            query,
            since,
            filter,
        } => {
            let filter = filter.except(excluded)?;
            Ok(Request::Poll {
                query,
                since,
                filter,
            })
        }
        Request::List {
            query,
            prefix,
            filter,
        } => {
            let filter = filter.except(excluded)?;
            Ok(Request::List {
                query,
                prefix,
                filter,
            })
        }
        Request::Fetch { .. } => Ok(request),
    }
}

/// Reads a request with a filter, from its version on.
#[tactic(auto, using(crate::proofs::Whole::filtered_whole))]
pub(crate) fn filtered_of(alloc: Global, bytes: &[u8]) -> Result<Request, DecodeFault>
    ensures { Gives (λ request. request) result (read_to_end (versioned (tagged filtered_cases)) filtered_of bytes.now) }
{
    let (tag, rest) = head_of(bytes)?;
    match tag {
        0x01 => basis_of(alloc, rest),
        0x02 => poll_of(alloc, rest),
        0x04 => list_request_of(alloc, rest),
        _ => Err(DecodeFault::BadTag),
    }
}

/// Reads what a filter excludes, and the request after it.
fn excluding_of(alloc: Global, bytes: &[u8]) -> Result<Request, DecodeFault>
    ensures { Gives (λ request. request) result (read_to_end (excluded ▹ versioned (tagged filtered_cases)) (λ x. excepting x.0 (filtered_of x.1)) bytes.now) }
{
    let (excluded, rest) = excluded_of(alloc, bytes)?;
    let request = filtered_of(alloc, rest)?;
    Ok(excepting(request, &excluded)?)
}

/// Reads the rest of a BasisIs, after its tag.
fn basis_is_of(alloc: Global, bytes: &[u8]) -> Result<Reply, DecodeFault>
    ensures { Gives (λ reply. reply) result (read_to_end (query ▹ position ▹ paths_within None) (λ x. BasisIs x.0 x.1.0 x.1.1) bytes.now) }
{
    let (query, rest) = query_of(bytes)?;
    let (position, rest) = position_of(rest)?;
    let (paths, rest) = path_listing_of(alloc, None, rest)?;
    let message = Reply::BasisIs {
        query,
        position,
        paths,
    };
    whole(message, rest)
}

/// Reads the rest of a ContentIs, after its tag.
fn content_is_of(alloc: Global, bytes: &[u8]) -> Result<Reply, DecodeFault>
    ensures { Gives (λ reply. reply) result (read_to_end (query ▹ position ▹ path ▹ content) (λ x. ContentIs x.0 x.1.0 x.1.1.0 x.1.1.1) bytes.now) }
{
    let (query, rest) = query_of(bytes)?;
    let (position, rest) = position_of(rest)?;
    let (path, rest) = path_of(alloc, rest)?;
    let (content, rest) = content_of(alloc, rest)?;
    let message = Reply::ContentIs {
        query,
        position,
        path,
        content,
    };
    whole(message, rest)
}

/// Reads the rest of a ChangesAre, after its tag.
fn changes_are_of(alloc: Global, bytes: &[u8]) -> Result<Reply, DecodeFault>
    ensures { Gives (λ reply. reply) result (read_to_end (query ▹ position ▹ marked_paths ▹ paths_within None) (λ x. ChangesAre x.0 x.1.0 x.1.1.0 x.1.1.1) bytes.now) }
{
    let (query, rest) = query_of(bytes)?;
    let (target, rest) = position_of(rest)?;
    let (marked, rest) = listing_of(alloc, rest)?;
    let (prefixes, rest) = path_listing_of(alloc, None, rest)?;
    let message = Reply::ChangesAre {
        query,
        target,
        marked,
        prefixes,
    };
    whole(message, rest)
}

/// Reads the rest of a Refused, after its tag.
fn refused_of(bytes: &[u8]) -> Result<Reply, DecodeFault>
    ensures { Gives (λ reply. reply) result (read_to_end (query ▹ cause) (λ x. Refused x.0 x.1) bytes.now) }
{
    let (query, rest) = query_of(bytes)?;
    let (cause, rest) = cause_of(rest)?;
    whole(Reply::Refused { query, cause }, rest)
}

/// Reads the rest of a ListIs, after its tag.
fn list_is_of(alloc: Global, bytes: &[u8]) -> Result<Reply, DecodeFault>
    ensures { Gives (λ reply. reply) result (read_to_end (query ▹ position ▹ then_by path (λ prefix. paths_within (Some prefix))) (λ x. ListIs x.0 x.1.0 x.1.1.0 x.1.1.1) bytes.now) }
{
    let (query, rest) = query_of(bytes)?;
    let (position, rest) = position_of(rest)?;
    let (prefix, rest) = path_of(alloc, rest)?;
    let (paths, rest) = path_listing_of(alloc, Some(&prefix), rest)?;
    let message = Reply::ListIs {
        query,
        position,
        prefix,
        paths,
    };
    whole(message, rest)
}

/// Reads the whole body of a request.
#[tactic(auto, using(crate::proofs::Whole::request_whole))]
pub(crate) fn request_of(alloc: Global, body: &[u8]) -> Result<Request, DecodeFault>
    ensures { Gives (λ request. request) result (read_request body.now) }
{
    let (tag, rest) = tag_of(body)?;
    match tag {
        0x01 => basis_of(alloc, rest),
        0x02 => poll_of(alloc, rest),
        0x03 => fetch_of(alloc, rest),
        0x04 => list_request_of(alloc, rest),
        0x07 => excluding_of(alloc, rest),
        _ => Err(DecodeFault::BadTag),
    }
}

/// Reads the whole body of a reply.
#[tactic(auto, using(crate::proofs::Whole::reply_whole))]
fn reply_of(alloc: Global, body: &[u8]) -> Result<Reply, DecodeFault>
    ensures { Gives (λ reply. reply) result (read_reply body.now) }
{
    let (tag, rest) = tag_of(body)?;
    match tag {
        0x81 => basis_is_of(alloc, rest),
        0x82 => changes_are_of(alloc, rest),
        0x83 => content_is_of(alloc, rest),
        0x84 => refused_of(rest),
        0x85 => list_is_of(alloc, rest),
        _ => Err(DecodeFault::BadTag),
    }
}

/// Reads the body of a request: accepts exactly the bodies that encode one.
///
/// # Errors
///
/// `TooLarge` if the body has more than 16,777,216 bytes. Else the first fault from the
/// left:
///
/// - `CutShort` if the body ends inside a field.
/// - `Version` or `BadTag` if a version or a tag is wrong: of the first two bytes, or of those
///   after what a filter excludes.
/// - `BadField` if a field has an invalid value.
/// - `Trailing` if there are bytes after the last field.
///
/// `NoMemory` if an allocation fails; it may be returned instead of any other answer.
pub fn decode_request(alloc: Global, body: &[u8]) -> Result<Request, DecodeFault>
    ensures spelled { IfOk result (λ request. SpellsRequest body.now request) }
    ensures all { (request : Request) → SpellsRequest body.now request → Gives (λ r. r) result (Ok request) }
    // The fault is this one.
    ensures exact { Gives (λ request. request) result (read_request body.now) }
{
    request_of(alloc, body)
}

/// Reads the body of a reply: accepts exactly the bodies that encode one.
///
/// # Errors
///
/// As of `decode_request`, in the same order. `BadField` also if a path does not sort
/// after the one before it, or is not below the directory of its list.
pub fn decode_reply(alloc: Global, body: &[u8]) -> Result<Reply, DecodeFault>
    ensures spelled { IfOk result (λ reply. SpellsReply body.now reply) }
    ensures all { (reply : Reply) → SpellsReply body.now reply → Gives (λ r. r) result (Ok reply) }
    // The fault is this one.
    ensures exact { Gives (λ reply. reply) result (read_reply body.now) }
{
    reply_of(alloc, body)
}
