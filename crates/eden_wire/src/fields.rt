//! The fields of bodies, read one after another.

ghost use Rattle.std.specs.Prelude.{◌≡◌, None, map};
ghost use Rattle.std.specs.Int.{w16, w32, w64};
ghost use Rattle.eden_messages.specs.Spells.{kind_byte, mark_byte};
ghost use Rattle.eden_wire.specs.Formats.{byte, number, exactly, items_at, find, optional};
ghost use Rattle.eden_wire.specs.Messages.{query, position, text, path, any_order, filter, excluded, marks, mark, file_bytes, kinds, content, cause};
ghost use Rattle.eden_wire.specs.Reading.{Gives};
ghost use Rattle.eden_wire.specs.internal.Steps.{path_of, filter_of, cause_by};

use crate::fault::DecodeFault;
use bytes::{Buf, Bytes};
use eden_globs::{Filter, FilterFault};
use eden_history::{Mark, Position};
use eden_ids::{Content, Id, Kind, Path, PathFault};
use eden_messages::{Cause, Query};
use std::alloc::Global;

/// Reads a byte, and returns it with the bytes after it.
///
/// Each reader below returns a field in this way, or the first fault in it.
pub(crate) fn byte_of(bytes: &[u8]) -> Result<(u8, &[u8]), DecodeFault>
    ensures { Gives (λ x. (x.0, x.1.now)) result (byte.read bytes.now) }
{
    let mut rest = bytes;
    let byte = rest.try_get_u8()?;
    Ok((byte, rest))
}

/// Reads a number of two bytes, the highest first.
fn u16_of(bytes: &[u8]) -> Result<(u16, &[u8]), DecodeFault>
    ensures { Gives (λ x. (x.0, x.1.now)) result ((number w16).read bytes.now) }
{
    let mut rest = bytes;
    let number = rest.try_get_u16()?;
    Ok((number, rest))
}

/// Reads a number of four bytes, the highest first.
pub(crate) fn u32_of(bytes: &[u8]) -> Result<(u32, &[u8]), DecodeFault>
    ensures { Gives (λ x. (x.0, x.1.now)) result ((number w32).read bytes.now) }
{
    let mut rest = bytes;
    let number = rest.try_get_u32()?;
    Ok((number, rest))
}

/// Reads a number of eight bytes, the highest first.
pub(crate) fn u64_of(bytes: &[u8]) -> Result<(u64, &[u8]), DecodeFault>
    ensures { Gives (λ x. (x.0, x.1.now)) result ((number w64).read bytes.now) }
{
    let mut rest = bytes;
    let number = rest.try_get_u64()?;
    Ok((number, rest))
}

/// Reads a count of two bytes and that many bytes: at least one and at most `limit`.
fn text_of(limit: u16, bytes: &[u8]) -> Result<(&[u8], &[u8]), DecodeFault>
    ensures { Gives (λ x. (x.0.now, x.1.now)) result ((text limit).read bytes.now) }
{
    let (count, rest) = u16_of(bytes)?;
    if count == 0 || count > limit {
        return Err(DecodeFault::BadField);
    }
    let count = count as usize;
    if rest.len() < count {
        return Err(DecodeFault::CutShort);
    }
    Ok(rest.split_at(count))
}

/// Reads the numbers of a query.
pub(crate) fn query_of(bytes: &[u8]) -> Result<(Query, &[u8]), DecodeFault>
    ensures { Gives (λ x. (x.0, x.1.now)) result (query.read bytes.now) }
{
    let (mirror, rest) = u64_of(bytes)?;
    let (life, rest) = u64_of(rest)?;
    let (number, rest) = u64_of(rest)?;
    let query = Query {
        mirror,
        life,
        number,
    };
    Ok((query, rest))
}

/// Reads an id of 20 bytes.
pub(crate) fn id_of(bytes: &[u8]) -> Result<(Id, &[u8]), DecodeFault>
    ensures { Gives (λ x. (x.0.0, x.1.now)) result ((exactly 20).read bytes.now) }
{
    let mut rest = bytes;
    let mut id = [0; 20];
    rest.try_copy_to_slice(&mut id)?;
    Ok((Id(id), rest))
}

/// Reads a position: its generation, its number and its root.
pub(crate) fn position_of(bytes: &[u8]) -> Result<(Position, &[u8]), DecodeFault>
    ensures { Gives (λ x. (x.0, x.1.now)) result (position.read bytes.now) }
{
    let (generation, rest) = u64_of(bytes)?;
    let (sequence, rest) = u64_of(rest)?;
    let (root, rest) = id_of(rest)?;
    let position = Position {
        generation,
        sequence,
        root,
    };
    Ok((position, rest))
}

/// Returns the path that a text spells.
fn parsed_path(alloc: Global, text: &[u8]) -> Result<Path, DecodeFault>
    ensures { Gives (λ path. path) result (path_of text.now) }
{
    match Path::parse(alloc, text) {
        Ok(path) => Ok(path),
        Err(PathFault::NoMemory) => Err(DecodeFault::NoMemory),
        Err(_) => Err(DecodeFault::BadField),
    }
}

/// Reads a path: its length and its bytes.
pub(crate) fn path_of(alloc: Global, bytes: &[u8]) -> Result<(Path, &[u8]), DecodeFault>
    ensures { Gives (λ x. (x.0, x.1.now)) result (path.read bytes.now) }
{
    let (text, rest) = text_of(1024, bytes)?;
    Ok((parsed_path(alloc, text)?, rest))
}

/// Reads the path of a prefix, or that there is none.
#[tactic(auto, using(crate::proofs::Whole::prefix_whole))]
pub(crate) fn prefix_of(alloc: Global, bytes: &[u8]) -> Result<(Option<Path>, &[u8]), DecodeFault>
    ensures { Gives (λ x. (x.0, x.1.now)) result ((optional path).read bytes.now) }
{
    let (byte, rest) = byte_of(bytes)?;
    match byte {
        0 => Ok((None, rest)),
        1 => {
            let (prefix, rest) = path_of(alloc, rest)?;
            Ok((Some(prefix), rest))
        }
        _ => Err(DecodeFault::BadField),
    }
}

/// Returns the filter that these patterns make.
fn parsed_filter(alloc: Global, patterns: &[&[u8]]) -> Result<Filter, DecodeFault>
    ensures { Gives (λ filter. filter) result (filter_of (map (λ p. p.now) patterns.now)) }
{
    match Filter::parse(alloc, patterns) {
        Ok(filter) => Ok(filter),
        Err(FilterFault::NoMemory) => Err(DecodeFault::NoMemory),
        Err(_) => Err(DecodeFault::BadField),
    }
}

/// Reads `count` patterns, without copying them.
fn patterns_of(alloc: Global, count: u8, bytes: &[u8]) -> Result<(Vec<&[u8]>, &[u8]), DecodeFault>
    ensures { Gives (λ x. (map (λ p. p.now) x.0.items, x.1.now)) result (items_at (text 256) any_order count None bytes.now) }
{
    let mut patterns = Vec::new(alloc);
    let mut rest = bytes;
    for _ in 0..count {
        let (pattern, after) = text_of(256, rest)?;
        match patterns.push(pattern) {
            Ok(()) => {}
            Err(_) => return Err(DecodeFault::NoMemory),
        }
        rest = after;
    }
    Ok((patterns, rest))
}

/// Reads a filter: the number of its patterns, and each of them.
pub(crate) fn filter_of(alloc: Global, bytes: &[u8]) -> Result<(Filter, &[u8]), DecodeFault>
    ensures { Gives (λ x. (x.0, x.1.now)) result (filter.read bytes.now) }
{
    let (count, rest) = byte_of(bytes)?;
    if count > 32 {
        return Err(DecodeFault::BadField);
    }
    let (patterns, rest) = patterns_of(alloc, count, rest)?;
    Ok((parsed_filter(alloc, patterns.as_slice())?, rest))
}

/// Reads the patterns that a filter excludes, of which there is one at least.
pub(crate) fn excluded_of(alloc: Global, bytes: &[u8]) -> Result<(Filter, &[u8]), DecodeFault>
    ensures { Gives (λ x. (x.0, x.1.now)) result (excluded.read bytes.now) }
{
    let (filter, rest) = filter_of(alloc, bytes)?;
    if filter.patterns().is_empty() {
        return Err(DecodeFault::BadField);
    }
    Ok((filter, rest))
}

/// Returns the mark that this byte names.
fn mark_of_byte(byte: u8) -> Result<Mark, DecodeFault>
    ensures { result ≡ find mark_byte marks byte }
{
    match byte {
        1 => Ok(Mark::Created),
        2 => Ok(Mark::Removed),
        3 => Ok(Mark::Changed),
        4 => Ok(Mark::Root),
        _ => Err(DecodeFault::BadField),
    }
}

/// Reads a mark.
pub(crate) fn mark_of(bytes: &[u8]) -> Result<(Mark, &[u8]), DecodeFault>
    ensures { Gives (λ x. (x.0, x.1.now)) result (mark.read bytes.now) }
{
    let (byte, rest) = byte_of(bytes)?;
    Ok((mark_of_byte(byte)?, rest))
}

/// Returns the kind of file that this byte names.
pub(crate) fn kind_of_byte(byte: u8) -> Result<Kind, DecodeFault>
    ensures { result ≡ find kind_byte kinds byte }
{
    match byte {
        1 => Ok(Kind::Plain),
        2 => Ok(Kind::Exec),
        3 => Ok(Kind::Link),
        _ => Err(DecodeFault::BadField),
    }
}

/// Reads the count and the bytes of a file or of an object.
///
/// Copies nothing before all of them are there.
pub(crate) fn bytes_of(bytes: &[u8]) -> Result<(&[u8], &[u8]), DecodeFault>
    ensures { Gives (λ x. (x.0.now, x.1.now)) result (file_bytes.read bytes.now) }
{
    let (count, rest) = u32_of(bytes)?;
    let len = count as usize;
    if len > Content::LIMIT {
        return Err(DecodeFault::BadField);
    }
    if rest.len() < len {
        return Err(DecodeFault::CutShort);
    }
    Ok(rest.split_at(len))
}

/// Reads a file, or its absence.
#[tactic(auto, using(crate::proofs::Whole::content_whole))]
pub(crate) fn content_of(
    alloc: Global,
    bytes: &[u8],
) -> Result<(Option<Content>, &[u8]), DecodeFault>
    ensures { Gives (λ x. (x.0, x.1.now)) result (content.read bytes.now) }
{
    let (byte, rest) = byte_of(bytes)?;
    if byte == 0 {
        return Ok((None, rest));
    }
    let kind = kind_of_byte(byte)?;
    let (held, rest) = bytes_of(rest)?;
    let content = Content {
        kind,
        bytes: Bytes::copy_from_slice(alloc, held)?,
    };
    Ok((Some(content), rest))
}

/// Returns the cause that this byte and this number name.
fn cause_by(byte: u8, value: u64) -> Result<Cause, DecodeFault>
    ensures { result ≡ cause_by byte value }
{
    match byte {
        1 => Ok(Cause::Stale(value)),
        2 => Ok(Cause::Ahead(value)),
        3 => Ok(Cause::Truncated(value)),
        _ if value == 0 => Ok(Cause::TooLarge),
        _ => Err(DecodeFault::BadField),
    }
}

/// Reads why a request is refused.
#[tactic(auto, using(crate::proofs::Whole::cause_whole))]
pub(crate) fn cause_of(bytes: &[u8]) -> Result<(Cause, &[u8]), DecodeFault>
    ensures { Gives (λ x. (x.0, x.1.now)) result (cause.read bytes.now) }
{
    let (byte, rest) = byte_of(bytes)?;
    if byte == 0 || byte > 4 {
        return Err(DecodeFault::BadField);
    }
    let (value, rest) = u64_of(rest)?;
    Ok((cause_by(byte, value)?, rest))
}
