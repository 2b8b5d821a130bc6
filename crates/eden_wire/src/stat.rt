//! Files without their bytes: what a service replies to a Stat.

ghost use Rattle.std.specs.Prelude.{◌≡◌, ◌≤◌, ◌++◌, ℕ, List, length, IfOk, OnOk, Ok};
ghost use Rattle.eden_ids.specs.Fronts.{KeepsFront};
ghost use Rattle.eden_messages.specs.Spells.{reply_bytes};
ghost use Rattle.eden_stream.specs.Frames.{frame};
ghost use Rattle.eden_wire.specs.Formats.{optional};
ghost use Rattle.eden_wire.specs.Stats as formats;
ghost use Rattle.eden_wire.specs.Stats.{SpellsStat, read_stat, stat, stat_bytes, stat_is};
ghost use Rattle.eden_wire.specs.Reading.{Gives, read_to_end};
ghost use Rattle.eden_wire.specs.Wanted.{said};

use crate::decoding::{after_tag, whole};
use crate::encoding::{
    append_reply, byte_of_kind, len_of_path, put_bytes, put_head, put_path, put_position,
};
use crate::fault::DecodeFault;
use crate::fields::{byte_of, id_of, kind_of_byte, path_of, position_of, query_of, u32_of};
use crate::question::Wants;
use eden_history::Position;
use eden_ids::{Naming, Path, id_law, path_law};
use eden_messages::{Query, Reply, position_law, query_law};
use eden_objects::Stat;
use std::alloc::{AllocError, Global};

/// The reply to a Stat: a position, and what was at the path then.
#[derive(Debug, PartialEq, Eq, Drop)]
pub struct StatIs {
    /// The question.
    pub query: Query,
    /// The position at which it is true.
    pub position: Position,
    /// The path.
    pub path: Path,
    /// The file without its bytes, or `None` if no file was there.
    pub stat: Option<Stat>,
}

// ---- reading

/// Reads a kind, a length and an id.
pub(crate) fn stat_of(bytes: &[u8]) -> Result<(Stat, &[u8]), DecodeFault>
    ensures { Gives (λ x. (x.0, x.1.now)) result (stat.read bytes.now) }
{
    let (byte, rest) = byte_of(bytes)?;
    let kind = kind_of_byte(byte)?;
    let (length, rest) = u32_of(rest)?;
    let (id, rest) = id_of(rest)?;
    Ok((Stat { kind, length, id }, rest))
}

/// Reads what is at a path, or that no file is there.
#[tactic(auto, using(crate::proofs::Whole::found_whole))]
fn found_of(bytes: &[u8]) -> Result<(Option<Stat>, &[u8]), DecodeFault>
    ensures { Gives (λ x. (x.0, x.1.now)) result ((optional stat).read bytes.now) }
{
    let (byte, rest) = byte_of(bytes)?;
    match byte {
        0 => Ok((None, rest)),
        1 => {
            let (stat, rest) = stat_of(rest)?;
            Ok((Some(stat), rest))
        }
        _ => Err(DecodeFault::BadField),
    }
}

/// Reads what comes after the tag, up to the end.
fn stat_is_of(alloc: Global, bytes: &[u8]) -> Result<StatIs, DecodeFault>
    ensures { Gives (λ s. s) result (read_to_end stat_is (λ s. s) bytes.now) }
{
    let (query, rest) = query_of(bytes)?;
    let (position, rest) = position_of(rest)?;
    let (path, rest) = path_of(alloc, rest)?;
    let (stat, rest) = found_of(rest)?;
    let message = StatIs {
        query,
        position,
        path,
        stat,
    };
    whole(message, rest)
}

/// Reads the whole body of a reply to a Stat.
fn body_of(alloc: Global, body: &[u8]) -> Result<StatIs, DecodeFault>
    ensures { Gives (λ s. s) result (read_stat body.now) }
{
    let rest = after_tag(0x88, body)?;
    stat_is_of(alloc, rest)
}

/// Reads the body of a reply to a Stat: accepts exactly the bodies that encode one.
///
/// # Errors
///
/// As of `decode_reply`, in the same order. `BadTag` also if the body encodes another reply.
pub fn decode_stat(alloc: Global, body: &[u8]) -> Result<StatIs, DecodeFault>
    ensures spelled { IfOk result (λ s. SpellsStat body.now s) }
    ensures all { (s : StatIs) → SpellsStat body.now s → Gives (λ x. x) result (Ok s) }
    // The fault is this one.
    ensures exact { Gives (λ s. s) result (read_stat body.now) }
{
    body_of(alloc, body)
}

// ---- writing

/// Writes a kind, a length and an id.
pub(crate) fn put_stat(out: &mut Vec<u8>, stat: &Stat) -> Result<(), AllocError>
    ensures told { OnOk result (out.new.items ≡ out.old.items ++ formats.stat.spell stat.now) }
    ensures front { KeepsFront out.old.items out.new.items }
{
    put_bytes(out, &[byte_of_kind(stat.kind)])?;
    put_bytes(out, &stat.length.to_be_bytes())?;
    put_bytes(out, &stat.id.0)
}

/// Writes what is at a path, or that no file is there.
fn put_found(out: &mut Vec<u8>, found: &Option<Stat>) -> Result<(), AllocError>
    ensures told { OnOk result (out.new.items ≡ out.old.items ++ (optional stat).spell found.now) }
    ensures front { KeepsFront out.old.items out.new.items }
{
    match found {
        None => put_bytes(out, &[0]),
        Some(stat) => {
            put_bytes(out, &[1])?;
            put_stat(out, stat)
        }
    }
}

/// Writes the body of a reply to a Stat.
fn put_stat_is(out: &mut Vec<u8>, stat: &StatIs) -> Result<(), AllocError>
    ensures told { OnOk result (out.new.items ≡ out.old.items ++ stat_bytes stat.now) }
    ensures front { KeepsFront out.old.items out.new.items }
{
    put_head(out, 0x88, &stat.query)?;
    put_position(out, &stat.position)?;
    put_path(out, &stat.path)?;
    put_found(out, &stat.stat)
}

/// Returns the length of the body of a reply to a Stat.
fn len_of_stat(stat: &StatIs) -> u32
    ensures len { result ≡ length (stat_bytes stat.now) }
    ensures few { result ≤ 1114 }
{
    id_law(stat.position.root);
    let found = match &stat.stat {
        None => 1,
        Some(found) => {
            id_law(found.id);
            26
        }
    };
    (62 + len_of_path(&stat.path) + found) as u32
}

/// States that a kind, a length and an id can be encoded.
fn stat_law(stat: Stat)
    ensures { formats.stat.fits stat }
{
    id_law(stat.id);
}

/// States that what is at a path can be encoded.
fn found_law(found: &Option<Stat>)
    ensures { (optional stat).fits found.now }
{
    match found {
        None => {}
        Some(found) => stat_law(*found),
    }
}

/// States that each part of a reply to a Stat can be encoded.
fn stat_is_law(stat: &StatIs)
    ensures { formats.stat_is.fits stat.now }
{
    query_law(stat.query);
    position_law(stat.position);
    path_law(&stat.path);
    found_law(&stat.stat);
}

/// Writes the frame of a reply to a Stat after a text: four bytes of length, and its body.
///
/// # Errors
///
/// - `AllocError` if an allocation fails. The text may then end with a part of the frame; what was
///   there before is unchanged.
pub fn append_stat(text: &mut Vec<u8>, stat: &StatIs) -> Result<(), AllocError>
    ensures read_back { OnOk result ((body : List ℕ) × SpellsStat body stat.now × (text.new.items ≡ text.old.items ++ frame body)) }
    ensures exact { OnOk result (text.new.items ≡ text.old.items ++ frame (stat_bytes stat.now)) }
    ensures front { KeepsFront text.old.items text.new.items }
{
    stat_is_law(stat);
    let len = len_of_stat(stat);
    put_bytes(text, &len.to_be_bytes())?;
    put_stat_is(text, stat)
}

/// Writes the frame of what is wanted of a reply after a text.
///
/// That is the reply itself, unless of a file only the kind, the length and the id are wanted. Its
/// bytes are hashed then. The reply's body must not be too long (`Reply::body_len`).
///
/// # Errors
///
/// - `AllocError` if an allocation fails. The text may then end with a part of the frame; what was
///   there before is unchanged.
pub fn append_wanted<N: Naming>(
    text: &mut Vec<u8>,
    naming: &N,
    wants: Wants,
    reply: Reply,
) -> Result<(), AllocError>
    requires fits { length (reply_bytes reply) ≤ 16777216 }
    ensures exact { OnOk result (text.new.items ≡ text.old.items ++ frame (said N.id wants reply)) }
    ensures front { KeepsFront text.old.items text.new.items }
{
    match (wants, reply) {
        (
            Wants::Stat,
            Reply::ContentIs {
                query,
                position,
                path,
                content,
            },
        ) => {
            let stat = content.map(|content| Stat::of(naming, &content));
            let stat = StatIs {
                query,
                position,
                path,
                stat,
            };
            append_stat(text, &stat)
        }
        (_, reply) => append_reply(text, &reply),
    }
}
