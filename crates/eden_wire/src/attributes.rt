//! Files without their bytes, all or those below a prefix: what a service replies to attributes.

ghost use Rattle.std.specs.Prelude.{◌≡◌, ◌≤◌, ◌<◌, ◌^◌, ◌++◌, ℕ, List, length, None, IfOk, OnOk, Ok};
ghost use Rattle.std.specs.Int.{w32, to_be_bytes};
ghost use Rattle.std.specs.List.{flat_map};
ghost use Rattle.std.specs.Option.{option_copied};
ghost use Rattle.eden_ids.specs.Fronts.{KeepsFront};
ghost use Rattle.eden_messages.specs.Spells.{if_small};
ghost use Rattle.eden_stream.specs.Frames.{frame};
ghost use Rattle.eden_wire.specs.Attributes.{SpellsAttributes, ascending_files, attributes_are, attributes_bytes, described_bytes, file_within, files_within, read_attributes};
ghost use Rattle.eden_wire.specs.Formats.{items_at, only};
ghost use Rattle.eden_wire.specs.Reading.{Gives, read_to_end};
ghost use Rattle.eden_wire.specs.Wanted.{or_refused};
ghost use Rattle.eden_wire.specs.internal.Listing.{last_item};

use crate::decoding::{after_tag, is_above, is_within, whole};
use crate::encoding::{append_too_large, len_of_path, put_bytes, put_head, put_path, put_position};
use crate::fault::DecodeFault;
use crate::fields::{path_of, position_of, prefix_of, query_of, u32_of};
use crate::question::{len_of_prefix, put_prefix};
use crate::stat::{put_stat, stat_of};
use eden_history::{Described, Position};
use eden_ids::{Path, Sequence, id_law};
use eden_messages::Query;
use eden_stream::BODY_LIMIT;
use std::alloc::{AllocError, Global};

/// The reply to attributes: a position, and the files that were there then.
#[derive(Debug, PartialEq, Drop)]
pub struct AttributesAre {
    /// The question.
    pub query: Query,
    /// The position at which it is true.
    pub position: Position,
    /// The directory below which the files are, or `None` for all files.
    pub prefix: Option<Path>,
    /// The files by their paths, ascending.
    pub files: Sequence<Described>,
}

// ---- reading

/// Reads a file that may follow these in a list.
fn file_of<'a>(
    alloc: Global,
    prefix: Option<&Path>,
    before: &[Described],
    bytes: &'a [u8],
) -> Result<(Described, &'a [u8]), DecodeFault>
    ensures { Gives (λ x. (x.0, x.1.now)) result ((only (file_within (option_copied prefix.entry)) (ascending_files (last_item before.now))).read bytes.now) }
{
    let (path, rest) = path_of(alloc, bytes)?;
    if !is_within(prefix, &path) {
        return Err(DecodeFault::BadField);
    }
    let (stat, rest) = stat_of(rest)?;
    if !is_above(before.last().map(|last| &last.path), &path) {
        return Err(DecodeFault::BadField);
    }
    Ok((Described { path, stat }, rest))
}

/// Reads `count` files, each after the one before it.
///
/// No room is reserved for a count that was only read.
fn list_of<'a>(
    alloc: Global,
    prefix: Option<&Path>,
    count: u32,
    bytes: &'a [u8],
) -> Result<(Vec<Described>, &'a [u8]), DecodeFault>
    ensures { Gives (λ x. (x.0.items, x.1.now)) result (items_at (file_within (option_copied prefix.entry)) ascending_files count None bytes.now) }
{
    let mut list = Vec::new(alloc);
    let mut rest = bytes;
    for _ in 0..count {
        let (file, after) = file_of(alloc, prefix, list.as_slice(), rest)?;
        list.push(file)?;
        rest = after;
    }
    Ok((list, rest))
}

/// Reads a list of files. Returns it and the bytes after it.
fn files_of<'a>(
    alloc: Global,
    prefix: &Option<Path>,
    bytes: &'a [u8],
) -> Result<(Sequence<Described>, &'a [u8]), DecodeFault>
    ensures { Gives (λ x. (x.0, x.1.now)) result ((files_within prefix.now).read bytes.now) }
{
    let (count, rest) = u32_of(bytes)?;
    let (list, rest) = list_of(alloc, prefix.as_ref(), count, rest)?;
    Ok((Sequence::from_vec(list), rest))
}

/// Reads what comes after the tag, up to the end.
fn attributes_are_of(alloc: Global, bytes: &[u8]) -> Result<AttributesAre, DecodeFault>
    ensures { Gives (λ a. a) result (read_to_end attributes_are (λ a. a) bytes.now) }
{
    let (query, rest) = query_of(bytes)?;
    let (position, rest) = position_of(rest)?;
    let (prefix, rest) = prefix_of(alloc, rest)?;
    let (files, rest) = files_of(alloc, &prefix, rest)?;
    let message = AttributesAre {
        query,
        position,
        prefix,
        files,
    };
    whole(message, rest)
}

/// Reads the whole body of a reply to attributes.
fn body_of(alloc: Global, body: &[u8]) -> Result<AttributesAre, DecodeFault>
    ensures { Gives (λ a. a) result (read_attributes body.now) }
{
    let rest = after_tag(0x89, body)?;
    attributes_are_of(alloc, rest)
}

/// Reads the body of a reply to attributes: accepts exactly the bodies that encode one.
///
/// # Errors
///
/// As of `decode_reply`, in the same order. `BadTag` also if the body encodes another reply. A path
/// that is not below the prefix is refused before its file is read. One that does not sort after
/// the path before it is refused after its file.
pub fn decode_attributes(alloc: Global, body: &[u8]) -> Result<AttributesAre, DecodeFault>
    ensures spelled { IfOk result (λ a. SpellsAttributes body.now a) }
    ensures all { (a : AttributesAre) → SpellsAttributes body.now a → Gives (λ x. x) result (Ok a) }
    // The fault is this one.
    ensures exact { Gives (λ a. a) result (read_attributes body.now) }
{
    body_of(alloc, body)
}

// ---- writing

/// Writes files: their number, and each path and what it says of the file.
fn put_files(out: &mut Vec<u8>, files: &[Described]) -> Result<(), AllocError>
    requires { length files.now < 2 ^ 32 }
    ensures told { OnOk result (out.new.items ≡ out.old.items ++ (to_be_bytes w32 (length files.now) ++ flat_map described_bytes files.now)) }
    ensures front { KeepsFront out.old.items out.new.items }
{
    put_bytes(out, &(files.len() as u32).to_be_bytes())?;
    for file in files {
        put_path(out, &file.path)?;
        put_stat(out, &file.stat)?;
    }
    Ok(())
}

/// Writes the body of a reply to attributes.
#[tactic(auto, using(crate::proofs::Lists::files_few))]
fn put_attributes(out: &mut Vec<u8>, attributes: &AttributesAre) -> Result<(), AllocError>
    requires { length (attributes_bytes attributes.now) ≤ 16777216 }
    ensures told { OnOk result (out.new.items ≡ out.old.items ++ attributes_bytes attributes.now) }
    ensures front { KeepsFront out.old.items out.new.items }
{
    put_head(out, 0x89, &attributes.query)?;
    put_position(out, &attributes.position)?;
    put_prefix(out, &attributes.prefix)?;
    put_files(out, attributes.files.as_slice())
}

/// Returns the length of a file: its path, its kind, its length and its id.
#[tactic(auto, using(crate::proofs::Lengths::described_len))]
fn len_of_file(file: &Described) -> usize
    ensures len { result ≡ length (described_bytes file.now) }
    ensures few { result ≤ 1051 }
{
    id_law(file.stat.id);
    len_of_path(&file.path) + 25
}

/// Returns the length of files, without their count, or `None` if a body cannot be that long.
#[tactic(auto, using(crate::proofs::Lengths::files_front_small))]
fn len_of_files(files: &[Described]) -> Option<usize>
    ensures { result ≡ if_small (length (flat_map described_bytes files.now)) }
{
    let mut len = 0;
    for file in files {
        len += len_of_file(file);
        if len > BODY_LIMIT {
            return None;
        }
    }
    Some(len)
}

/// Returns the length of the body of a reply to attributes, or `None` if it would be too long.
#[tactic(auto, using(crate::proofs::Lengths::attributes_are_len))]
fn len_of_attributes(attributes: &AttributesAre) -> Option<u32>
    ensures { result ≡ if_small (length (attributes_bytes attributes.now)) }
{
    id_law(attributes.position.root);
    // The version, the tag, the query, the position, the prefix and the count come first.
    let front = 66 + len_of_prefix(&attributes.prefix);
    match len_of_files(attributes.files.as_slice()) {
        Some(len) if front + len <= BODY_LIMIT => Some((front + len) as u32),
        _ => None,
    }
}

/// Writes the frame of a reply to attributes after a text: four bytes of length, and its body.
///
/// If the body would have more than 16,777,216 bytes, the frame is that of a refusal as `TooLarge`.
///
/// # Errors
///
/// - `AllocError` if an allocation fails. The text may then end with a part of the frame; what was
///   there before is unchanged.
pub fn append_attributes(text: &mut Vec<u8>, attributes: &AttributesAre) -> Result<(), AllocError>
    ensures spelled { (body : List ℕ) → SpellsAttributes body attributes.now → OnOk result (text.new.items ≡ text.old.items ++ frame body) }
    ensures exact { OnOk result (text.new.items ≡ text.old.items ++ frame (or_refused attributes.now.query (attributes_bytes attributes.now))) }
    ensures front { KeepsFront text.old.items text.new.items }
{
    let Some(len) = len_of_attributes(attributes) else {
        return append_too_large(text, attributes.query);
    };
    put_bytes(text, &len.to_be_bytes())?;
    put_attributes(text, attributes)
}
