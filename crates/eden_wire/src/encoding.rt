//! Encoding: bodies, and the frames around them.

ghost use Rattle.std.specs.Prelude.{◌≡◌, ◌≢◌, ◌<◌, ◌≤◌, ◌^◌, ◌↔◌, ◌++◌, ◌∷◌, List, ℕ, length, Err, None, OnOk, IfOk};
ghost use Rattle.std.specs.Int.{w32, to_be_bytes};
ghost use Rattle.eden_ids.specs.Fronts.{KeepsFront};
ghost use Rattle.eden_globs.specs.Filters.{filter_fault, lists};
ghost use Rattle.eden_messages.specs.declared.message.Reply.TheVariants as ReplyIs;
ghost use Rattle.eden_messages.specs.Spells.{query_bytes, position_bytes, text_bytes, excluded_bytes, filter_bytes, paths_bytes, mark_byte, marked_bytes, list_bytes, kind_byte, content_bytes, cause_bytes, request_bytes, reply_bytes, SpellsRequest, SpellsReply};
ghost use Rattle.eden_stream.specs.Frames.{frame};

use crate::fault::EncodeFault;
use bytes::BufMut;
use eden_globs::Filter;
use eden_history::{Mark, Marked, Position};
use eden_ids::{Content, Kind, Path};
use eden_messages::{Cause, Query, Reply, Request, request_text_law};
use std::alloc::{AllocError, Global};

/// Adds the bytes after the others.
#[tactic(auto, using(eden_ids::proofs::Fronts::grown_keeps))]
pub(crate) fn put_bytes(out: &mut Vec<u8>, bytes: &[u8]) -> Result<(), AllocError>
    ensures told { OnOk result (out.new.items ≡ out.old.items ++ bytes.now) }
    ensures front { KeepsFront out.old.items out.new.items }
{
    out.extend_from_slice(bytes)
}

/// Writes the numbers of a query.
#[tactic(auto, using(eden_ids::proofs::Fronts::grown_keeps))]
fn put_query(out: &mut Vec<u8>, query: &Query) -> Result<(), AllocError>
    ensures told { OnOk result (out.new.items ≡ out.old.items ++ query_bytes query.now) }
    ensures front { KeepsFront out.old.items out.new.items }
{
    out.put_u64(query.mirror)?;
    out.put_u64(query.life)?;
    out.put_u64(query.number)
}

/// Writes a position: its generation, its number and its root.
#[tactic(auto, using(eden_ids::proofs::Fronts::grown_keeps))]
pub(crate) fn put_position(out: &mut Vec<u8>, position: &Position) -> Result<(), AllocError>
    ensures told { OnOk result (out.new.items ≡ out.old.items ++ position_bytes position.now) }
    ensures front { KeepsFront out.old.items out.new.items }
{
    out.put_u64(position.generation)?;
    out.put_u64(position.sequence)?;
    out.put_slice(&position.root.0)
}

/// Writes a text: two bytes of length, and its bytes.
fn put_text(out: &mut Vec<u8>, text: &[u8]) -> Result<(), AllocError>
    requires { length text.now < 2 ^ 16 }
    ensures told { OnOk result (out.new.items ≡ out.old.items ++ text_bytes text.now) }
    ensures front { KeepsFront out.old.items out.new.items }
{
    put_bytes(out, &(text.len() as u16).to_be_bytes())?;
    put_bytes(out, text)
}

/// Writes the patterns of a list: their count, and each with its length.
#[tactic(auto, using(eden_messages::proofs::Filters::patterns_few, eden_messages::proofs::Filters::patterns_short))]
fn put_patterns(out: &mut Vec<u8>, patterns: &[Vec<u8>]) -> Result<(), AllocError>
    requires { filter_fault (lists patterns.now) ≡ None }
    ensures told { OnOk result (out.new.items ≡ out.old.items ++ filter_bytes (lists patterns.now)) }
    ensures front { KeepsFront out.old.items out.new.items }
{
    put_bytes(out, &[patterns.len() as u8])?;
    for pattern in patterns {
        put_text(out, pattern)?;
    }
    Ok(())
}

/// Writes what a filter excludes, if it excludes anything.
pub(crate) fn put_excluded(out: &mut Vec<u8>, filter: &Filter) -> Result<(), AllocError>
    ensures told { OnOk result (out.new.items ≡ out.old.items ++ excluded_bytes filter.now.excluded) }
    ensures front { KeepsFront out.old.items out.new.items }
{
    let patterns = filter.excluded();
    if patterns.is_empty() {
        return Ok(());
    }
    put_bytes(out, &[0x02, 0x07])?;
    put_patterns(out, patterns)
}

/// Writes what a filter includes.
pub(crate) fn put_included(out: &mut Vec<u8>, filter: &Filter) -> Result<(), AllocError>
    ensures told { OnOk result (out.new.items ≡ out.old.items ++ filter_bytes filter.now.included) }
    ensures front { KeepsFront out.old.items out.new.items }
{
    put_patterns(out, filter.patterns())
}

/// Returns the byte that names a mark.
fn byte_of_mark(mark: Mark) -> u8
    ensures { result ≡ mark_byte mark }
{
    match mark {
        Mark::Created => 1,
        Mark::Removed => 2,
        Mark::Changed => 3,
        Mark::Root => 4,
    }
}

/// Writes a mark and its path.
fn put_marked(out: &mut Vec<u8>, marked: &Marked) -> Result<(), AllocError>
    ensures told { OnOk result (out.new.items ≡ out.old.items ++ marked_bytes marked.now) }
    ensures front { KeepsFront out.old.items out.new.items }
{
    put_bytes(out, &[byte_of_mark(marked.mark)])?;
    put_path(out, &marked.path)
}

/// Returns the length of a path with its two bytes of length.
#[tactic(auto, using(eden_messages::proofs::Spelling::path_few))]
pub(crate) fn len_of_path(path: &Path) -> usize
    ensures len { result ≡ length (text_bytes path.now) }
    ensures few { result ≤ 1026 }
{
    2 + path.as_bytes().len()
}

/// Writes a path: its length and its bytes.
#[tactic(auto, using(eden_messages::proofs::Spelling::path_few))]
pub(crate) fn put_path(out: &mut Vec<u8>, path: &Path) -> Result<(), AllocError>
    ensures told { OnOk result (out.new.items ≡ out.old.items ++ text_bytes path.now) }
    ensures front { KeepsFront out.old.items out.new.items }
{
    put_text(out, path.as_bytes())
}

/// Writes paths: their number, and each of them.
pub(crate) fn put_paths(out: &mut Vec<u8>, paths: &[Path]) -> Result<(), AllocError>
    requires { length paths.now < 2 ^ 32 }
    ensures told { OnOk result (out.new.items ≡ out.old.items ++ paths_bytes paths.now) }
    ensures front { KeepsFront out.old.items out.new.items }
{
    put_bytes(out, &(paths.len() as u32).to_be_bytes())?;
    for path in paths {
        put_path(out, path)?;
    }
    Ok(())
}

/// Writes marked paths: their number, and each of them.
pub(crate) fn put_list(out: &mut Vec<u8>, list: &[Marked]) -> Result<(), AllocError>
    requires { length list.now < 2 ^ 32 }
    ensures told { OnOk result (out.new.items ≡ out.old.items ++ list_bytes list.now) }
    ensures front { KeepsFront out.old.items out.new.items }
{
    put_bytes(out, &(list.len() as u32).to_be_bytes())?;
    for marked in list {
        put_marked(out, marked)?;
    }
    Ok(())
}

/// Returns the byte that names a kind of file.
pub(crate) fn byte_of_kind(kind: Kind) -> u8
    ensures { result ≡ kind_byte kind }
{
    match kind {
        Kind::Plain => 1,
        Kind::Exec => 2,
        Kind::Link => 3,
    }
}

/// Writes four bytes of count, and the bytes.
pub(crate) fn put_counted(out: &mut Vec<u8>, bytes: &[u8]) -> Result<(), AllocError>
    requires { length bytes.now < 2 ^ 32 }
    ensures told { OnOk result (out.new.items ≡ out.old.items ++ (to_be_bytes w32 (length bytes.now) ++ bytes.now)) }
    ensures front { KeepsFront out.old.items out.new.items }
{
    put_bytes(out, &(bytes.len() as u32).to_be_bytes())?;
    put_bytes(out, bytes)
}

/// Writes a file: its kind, and its bytes with their count.
pub(crate) fn put_file(out: &mut Vec<u8>, kind: Kind, bytes: &[u8]) -> Result<(), AllocError>
    requires { length bytes.now < 2 ^ 32 }
    ensures told { OnOk result (out.new.items ≡ out.old.items ++ (kind_byte kind ∷ to_be_bytes w32 (length bytes.now) ++ bytes.now)) }
    ensures front { KeepsFront out.old.items out.new.items }
{
    put_bytes(out, &[byte_of_kind(kind)])?;
    put_counted(out, bytes)
}

/// Writes a file, or that there is none.
fn put_content(out: &mut Vec<u8>, content: &Option<Content>) -> Result<(), AllocError>
    requires { length (content_bytes content.now) ≤ 16777216 }
    ensures told { OnOk result (out.new.items ≡ out.old.items ++ content_bytes content.now) }
    ensures front { KeepsFront out.old.items out.new.items }
{
    match content {
        None => put_bytes(out, &[0]),
        Some(content) => put_file(out, content.kind, content.bytes.as_slice()),
    }
}

/// Writes why a request is refused.
fn put_cause(out: &mut Vec<u8>, cause: Cause) -> Result<(), AllocError>
    ensures told { OnOk result (out.new.items ≡ out.old.items ++ cause_bytes cause) }
    ensures front { KeepsFront out.old.items out.new.items }
{
    let (byte, value) = match cause {
        Cause::Stale(generation) => (1, generation),
        Cause::Ahead(head) => (2, head),
        Cause::Truncated(floor) => (3, floor),
        Cause::TooLarge => (4, 0),
    };
    put_bytes(out, &[byte])?;
    put_bytes(out, &value.to_be_bytes())
}

/// Writes the beginning of each body: the version, the tag and the query.
#[tactic(auto, using(eden_ids::proofs::Fronts::grown_keeps))]
pub(crate) fn put_head(out: &mut Vec<u8>, tag: u8, query: &Query) -> Result<(), AllocError>
    ensures told { OnOk result (out.new.items ≡ out.old.items ++ (2 ∷ tag ∷ query_bytes query.now)) }
    ensures front { KeepsFront out.old.items out.new.items }
{
    out.put_u8(2)?;
    out.put_u8(tag)?;
    put_query(out, query)?;
    Ok(())
}

/// Writes the body of a request.
pub(crate) fn put_request(out: &mut Vec<u8>, request: &Request) -> Result<(), AllocError>
    ensures told { OnOk result (out.new.items ≡ out.old.items ++ request_bytes request.now) }
    ensures front { KeepsFront out.old.items out.new.items }
{
    match request {
        Request::Basis { query, filter } => {
            put_excluded(out, filter)?;
            put_head(out, 0x01, query)?;
            put_included(out, filter)?;
            Ok(())
        }
        Request::Poll {
            query,
            since,
            filter,
        } => {
            put_excluded(out, filter)?;
            put_head(out, 0x02, query)?;
            put_position(out, since)?;
            put_included(out, filter)?;
            Ok(())
        }
        Request::Fetch { query, path } => {
            put_head(out, 0x03, query)?;
            put_path(out, path)?;
            Ok(())
        }
        Request::List {
            query,
            prefix,
            filter,
        } => {
            put_excluded(out, filter)?;
            put_head(out, 0x04, query)?;
            put_path(out, prefix)?;
            put_included(out, filter)?;
            Ok(())
        }
    }
}

/// Writes the body of a reply.
fn put_reply(out: &mut Vec<u8>, reply: &Reply) -> Result<(), AllocError>
    requires { length (reply_bytes reply.now) ≤ 16777216 }
    ensures told { OnOk result (out.new.items ≡ out.old.items ++ reply_bytes reply.now) }
    ensures front { KeepsFront out.old.items out.new.items }
{
    match reply {
        Reply::BasisIs {
            query,
            position,
            paths,
        } => {
            put_head(out, 0x81, query)?;
            put_position(out, position)?;
            put_paths(out, paths.as_slice())?;
            Ok(())
        }
        Reply::ChangesAre {
            query,
            target,
            marked,
            prefixes,
        } => {
            put_head(out, 0x82, query)?;
            put_position(out, target)?;
            put_list(out, marked.as_slice())?;
            put_paths(out, prefixes.as_slice())?;
            Ok(())
        }
        Reply::ContentIs {
            query,
            position,
            path,
            content,
        } => {
            put_head(out, 0x83, query)?;
            put_position(out, position)?;
            put_path(out, path)?;
            put_content(out, content)?;
            Ok(())
        }
        Reply::Refused { query, cause } => {
            put_head(out, 0x84, query)?;
            put_cause(out, *cause)?;
            Ok(())
        }
        Reply::ListIs {
            query,
            position,
            prefix,
            paths,
        } => {
            put_head(out, 0x85, query)?;
            put_position(out, position)?;
            put_path(out, prefix)?;
            put_paths(out, paths.as_slice())?;
            Ok(())
        }
    }
}

/// Returns the frame of a request: four bytes of length, and its body.
///
/// Each request has a body, which is never too long.
///
/// # Errors
///
/// - `NoMemory` if an allocation fails.
#[tactic(auto, unfolding(eden_stream::specs::Frames::frame))]
pub fn encode_request(alloc: Global, request: &Request) -> Result<Vec<u8>, EncodeFault>
    ensures read_back { IfOk result (λ bytes. (body : List ℕ) × SpellsRequest body request.now × (bytes.items ≡ frame body)) }
    ensures spelled { (body : List ℕ) → SpellsRequest body request.now → IfOk result (λ bytes. bytes.items ≡ frame body) }
    ensures exact { IfOk result (λ bytes. bytes.items ≡ frame (request_bytes request.now)) }
    ensures fits { result ≢ Err EncodeFault.TooLarge }
{
    request_text_law(request);
    let len = request.body_len();
    let mut frame = Vec::with_capacity(alloc, 4 + len as usize)?;
    put_bytes(&mut frame, &len.to_be_bytes())?;
    put_request(&mut frame, request)?;
    Ok(frame)
}

/// Writes the frame of a reply after a text: four bytes of length, and its body.
///
/// The reply's body must not be too long (`Reply::body_len`).
///
/// # Errors
///
/// - `AllocError` if an allocation fails. The text may then end with a part of the frame;
///   what was there before is unchanged.
#[tactic(auto, unfolding(eden_stream::specs::Frames::frame))]
pub fn append_reply(text: &mut Vec<u8>, reply: &Reply) -> Result<(), AllocError>
    requires fits { length (reply_bytes reply.now) ≤ 16777216 }
    ensures exact { OnOk result (text.new.items ≡ text.old.items ++ frame (reply_bytes reply.now)) }
    ensures front { KeepsFront text.old.items text.new.items }
{
    let start = text.len();
    put_bytes(text, &[0; 4])?;
    let body = text.len();
    put_reply(text, reply)?;
    let len = (text.len() - body) as u32;
    text[start..body].copy_from_slice(&len.to_be_bytes());
    Ok(())
}

/// Writes the frame of a refusal as `TooLarge` after a text.
#[tactic(auto, using(crate::proofs::Lengths::too_large_fits))]
pub(crate) fn append_too_large(text: &mut Vec<u8>, query: Query) -> Result<(), AllocError>
    ensures told { OnOk result (text.new.items ≡ text.old.items ++ frame (reply_bytes (ReplyIs.Refused query Cause.TooLarge))) }
    ensures front { KeepsFront text.old.items text.new.items }
{
    let cause = Cause::TooLarge;
    append_reply(text, &Reply::Refused { query, cause })
}

/// Returns the frame of a reply: four bytes of length, and its body.
///
/// A reply whose paths do not ascend, or are not below the directory of their list, has a
/// frame too, but it cannot be decoded again.
///
/// # Errors
///
/// - `TooLarge` exactly if the body would have more than 16,777,216 bytes; it is returned
///   before anything is allocated.
/// - `NoMemory` if an allocation fails.
pub fn encode_reply(alloc: Global, reply: &Reply) -> Result<Vec<u8>, EncodeFault>
    ensures spelled { (body : List ℕ) → SpellsReply body reply.now → IfOk result (λ bytes. bytes.items ≡ frame body) }
    ensures exact { IfOk result (λ bytes. bytes.items ≡ frame (reply_bytes reply.now)) }
    ensures too_large { (result ≡ Err EncodeFault.TooLarge) ↔ (16777216 < length (reply_bytes reply.now)) }
{
    let Some(len) = reply.body_len() else {
        return Err(EncodeFault::TooLarge);
    };
    let mut frame = Vec::with_capacity(alloc, 4 + len as usize)?;
    append_reply(&mut frame, reply)?;
    Ok(frame)
}
