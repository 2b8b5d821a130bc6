//! What is answered to a change over a connection.

ghost use Rattle.std.specs.Prelude.{◌≡◌, ◌≤◌, ◌+◌, ◌++◌, ℕ, List, length, nat_le, Ok, OnOk, IfOk, None};
ghost use Rattle.std.specs.Int.{w32, w64};
ghost use Rattle.std.specs.List.{AllByRecursion, flat_map};
ghost use Rattle.eden_history.specs.declared.answer.Answer.TheVariants as answers;
ghost use Rattle.eden_history.specs.declared.change.ChangeFault.TheVariants.{BadObject};
ghost use Rattle.eden_ids.specs.Fronts.{KeepsFront};
ghost use Rattle.eden_ids.specs.Texts.{IsPathText};
ghost use Rattle.eden_messages.specs.declared.message.Query.{Query};
ghost use Rattle.eden_messages.specs.Spells.{text_bytes};
ghost use Rattle.eden_stream.specs.Frames.{body_limit, frame};
ghost use Rattle.eden_wire.specs.declared.done.Done.{Done};
ghost use Rattle.eden_wire.specs.declared.done.Done.TheVariants.{At, Checked, Conflicting, Refused};
ghost use Rattle.eden_wire.specs.Commands as formats;
ghost use Rattle.eden_wire.specs.Commands.{ListsInOrder, SpellsDone, done, done_bytes, done_of, fault, fault_byte, no_object, plain_faults, put_byte, put_fault, put_faults, read_done};
ghost use Rattle.eden_wire.specs.Formats.{find, number, ◌▹◌};
ghost use Rattle.eden_wire.specs.Messages.{paths_within, position, query};
ghost use Rattle.eden_wire.specs.Reading.{Gives, read_to_end};
ghost use Rattle.eden_wire.specs.internal.Steps.{object_in, read_as};

use crate::decoding::{path_listing_of, tag_of, whole};
use crate::encoding::{len_of_path, put_bytes, put_head, put_paths, put_position};
use crate::fault::DecodeFault;
use crate::fields::{byte_of, position_of, query_of, u32_of, u64_of};
use eden_history::{Answer, ChangeFault, Position};
use eden_ids::{Path, Sequence, id_law, path_law};
use eden_messages::Query;
use eden_objects::PutFault;
use eden_stream::BODY_LIMIT;
use std::alloc::{AllocError, Global};

/// How a change over a connection ended.
#[derive(Debug, PartialEq, Drop)]
pub enum Done {
    /// The connection may not change the mount; nothing was done.
    NotWritable,
    /// The change was made, or there was nothing to do: the position after it.
    At(Position),
    /// A checkout was made, or in mode `Dry` only tried.
    Checked {
        /// The position after it.
        position: Position,
        /// The paths of changed files that conflict with the commit, ascending.
        conflicts: Sequence<Path>,
    },
    /// The change was refused, and nothing changed.
    Refused(ChangeFault),
    /// A checkout was made, or only tried, with more conflicts than a body holds.
    Conflicting {
        /// The position after it.
        position: Position,
        /// The number of conflicts, or 4,294,967,295 if there are more.
        count: u32,
    },
}

impl Done {
    /// Makes what is answered over a connection of the answer to a change.
    ///
    /// It always fits a body: of conflicts that do not, only the number is left. Does not
    /// allocate.
    pub fn of(answer: Answer) -> Done
        ensures exact { result ≡ done_of answer }
        ensures fits { (query : Query) → length (done_bytes query result) ≤ body_limit }
    {
        match answer {
            Answer::At(position) => Done::At(position),
            Answer::Checked {
                position,
                conflicts,
            } => checked(position, conflicts),
            Answer::Refused(fault) => Done::Refused(fault),
        }
    }
}

// ---- what an answer to a change is over a connection

/// Returns true if a body holds these conflicts.
fn fit(conflicts: &[Path]) -> bool
    ensures { result ≡ nat_le (67 + length (flat_map text_bytes conflicts.now)) body_limit }
{
    // The version, the tag, the query, the kind, a position and the count come first.
    let mut len = 67;
    for path in conflicts {
        len += len_of_path(path);
        if len > BODY_LIMIT {
            return false;
        }
    }
    true
}

/// Returns what is answered to a checkout.
#[tactic(auto, using(crate::proofs::DoneLaws::checked_len, crate::proofs::DoneLaws::conflicting_len))]
fn checked(position: Position, conflicts: Sequence<Path>) -> Done
    ensures exact { result ≡ done_of (answers.Checked position conflicts) }
    ensures fits { (query : Query) → length (done_bytes query result) ≤ body_limit }
{
    id_law(position.root);
    if fit(conflicts.as_slice()) {
        return Done::Checked {
            position,
            conflicts,
        };
    }
    let count = conflicts.len().min(u32::MAX as usize) as u32;
    Done::Conflicting { position, count }
}

// ---- reading

/// Reads the position after a change.
fn at_of(bytes: &[u8]) -> Result<(Done, &[u8]), DecodeFault>
    ensures { Gives (λ x. (x.0, x.1.now)) result (read_as position (λ position. At position) bytes.now) }
{
    let (position, rest) = position_of(bytes)?;
    Ok((Done::At(position), rest))
}

/// Reads the position after a checkout, and its conflicts.
fn checked_of(alloc: Global, bytes: &[u8]) -> Result<(Done, &[u8]), DecodeFault>
    ensures { Gives (λ x. (x.0, x.1.now)) result (read_as (position ▹ paths_within None) (λ x. Checked x.0 x.1) bytes.now) }
{
    let (position, rest) = position_of(bytes)?;
    let (conflicts, rest) = path_listing_of(alloc, None, rest)?;
    let done = Done::Checked {
        position,
        conflicts,
    };
    Ok((done, rest))
}

/// Reads the position after a checkout, and the number of its conflicts.
fn conflicting_of(bytes: &[u8]) -> Result<(Done, &[u8]), DecodeFault>
    ensures { Gives (λ x. (x.0, x.1.now)) result (read_as (position ▹ number w32) (λ x. Conflicting x.0 x.1) bytes.now) }
{
    let (position, rest) = position_of(bytes)?;
    let (count, rest) = u32_of(rest)?;
    Ok((Done::Conflicting { position, count }, rest))
}

/// Returns the fault of an object that this byte names.
fn put_fault_of_byte(byte: u8) -> Result<PutFault, DecodeFault>
    ensures { result ≡ find put_byte put_faults byte }
{
    match byte {
        1 => Ok(PutFault::TooLarge),
        2 => Ok(PutFault::IdTaken),
        3 => Ok(PutFault::ZeroId),
        4 => Ok(PutFault::BadMode),
        5 => Ok(PutFault::BadName),
        6 => Ok(PutFault::OutOfOrder),
        7 => Ok(PutFault::Duplicate),
        8 => Ok(PutFault::MissingChild),
        9 => Ok(PutFault::WrongChildKind),
        10 => Ok(PutFault::TooDeep),
        11 => Ok(PutFault::PathTooLong),
        12 => Ok(PutFault::CutShort),
        13 => Ok(PutFault::BadCommit),
        14 => Ok(PutFault::NoMemory),
        _ => Err(DecodeFault::BadField),
    }
}

/// Returns the fault of a byte, if that fault names no object.
fn fault_of_byte(byte: u8) -> Result<ChangeFault, DecodeFault>
    ensures { result ≡ find fault_byte plain_faults byte }
{
    match byte {
        1 => Ok(ChangeFault::NotADirectory),
        2 => Ok(ChangeFault::IsADirectory),
        3 => Ok(ChangeFault::NoEntry),
        4 => Ok(ChangeFault::TooLarge),
        5 => Ok(ChangeFault::IntoItself),
        6 => Ok(ChangeFault::PathTooLong),
        7 => Ok(ChangeFault::NoCommit),
        8 => Ok(ChangeFault::SequenceExhausted),
        9 => Ok(ChangeFault::GenerationNotNew),
        11 => Ok(ChangeFault::NoMemory),
        _ => Err(DecodeFault::BadField),
    }
}

/// Reads the place and the fault of no object: zeros.
fn no_object_of(bytes: &[u8]) -> Result<&[u8], DecodeFault>
    ensures { Gives (λ rest. (tt, rest.now)) result (no_object.read bytes.now) }
{
    let (place, rest) = u64_of(bytes)?;
    if place != 0 {
        return Err(DecodeFault::BadField);
    }
    let (fault, rest) = byte_of(rest)?;
    if fault != 0 {
        return Err(DecodeFault::BadField);
    }
    Ok(rest)
}

/// Reads the place of an object and its fault.
fn bad_object_of(bytes: &[u8]) -> Result<(ChangeFault, &[u8]), DecodeFault>
    ensures { Gives (λ x. (x.0, x.1.now)) result (read_as (number w64 ▹ put_fault) (λ x. BadObject x.0 x.1) bytes.now) }
{
    let (place, rest) = u64_of(bytes)?;
    let (byte, rest) = byte_of(rest)?;
    let fault = put_fault_of_byte(byte)?;
    Ok((ChangeFault::BadObject { place, fault }, rest))
}

/// Reads why a change was refused.
#[tactic(auto, using(crate::proofs::WholeChanges::fault_whole))]
fn fault_of(bytes: &[u8]) -> Result<(ChangeFault, &[u8]), DecodeFault>
    ensures { Gives (λ x. (x.0, x.1.now)) result (fault.read bytes.now) }
{
    let (cause, rest) = byte_of(bytes)?;
    if cause == 10 {
        return bad_object_of(rest);
    }
    let fault = fault_of_byte(cause)?;
    let rest = no_object_of(rest)?;
    Ok((fault, rest))
}

/// Reads the refusal of a change.
fn refused_of(bytes: &[u8]) -> Result<(Done, &[u8]), DecodeFault>
    ensures { Gives (λ x. (x.0, x.1.now)) result (read_as fault (λ fault. Refused fault) bytes.now) }
{
    let (fault, rest) = fault_of(bytes)?;
    Ok((Done::Refused(fault), rest))
}

/// Reads how a change ended. Returns it and the bytes after it.
#[tactic(auto, using(crate::proofs::WholeChanges::done_whole))]
fn done_of(alloc: Global, bytes: &[u8]) -> Result<(Done, &[u8]), DecodeFault>
    ensures { Gives (λ x. (x.0, x.1.now)) result (done.read bytes.now) }
{
    let (kind, rest) = byte_of(bytes)?;
    match kind {
        0x00 => Ok((Done::NotWritable, rest)),
        0x01 => at_of(rest),
        0x02 => checked_of(alloc, rest),
        0x03 => refused_of(rest),
        0x04 => conflicting_of(rest),
        _ => Err(DecodeFault::BadField),
    }
}

/// Reads what comes after the tag of an answer, up to the end.
fn rest_of(alloc: Global, bytes: &[u8]) -> Result<(Query, Done), DecodeFault>
    ensures { Gives (λ x. x) result (read_to_end (query ▹ done) (λ x. x) bytes.now) }
{
    let (query, rest) = query_of(bytes)?;
    let (done, rest) = done_of(alloc, rest)?;
    whole((query, done), rest)
}

/// Reads the whole body of a Done.
#[tactic(auto, using(crate::proofs::WholeChanges::answered_whole))]
fn answered_of(alloc: Global, body: &[u8]) -> Result<(Query, Done), DecodeFault>
    ensures { Gives (λ x. x) result (read_done body.now) }
{
    let (tag, rest) = tag_of(body)?;
    if tag != 0x86 {
        return Err(DecodeFault::BadTag);
    }
    rest_of(alloc, rest)
}

// ---- writing

/// Returns the byte that names the fault of an object.
fn byte_of_put_fault(fault: PutFault) -> u8
    ensures { result ≡ put_byte fault }
{
    match fault {
        PutFault::TooLarge => 1,
        PutFault::IdTaken => 2,
        PutFault::ZeroId => 3,
        PutFault::BadMode => 4,
        PutFault::BadName => 5,
        PutFault::OutOfOrder => 6,
        PutFault::Duplicate => 7,
        PutFault::MissingChild => 8,
        PutFault::WrongChildKind => 9,
        PutFault::TooDeep => 10,
        PutFault::PathTooLong => 11,
        PutFault::CutShort => 12,
        PutFault::BadCommit => 13,
        PutFault::NoMemory => 14,
    }
}

/// Returns the byte that names why a change was refused.
fn byte_of_fault(fault: ChangeFault) -> u8
    ensures { result ≡ fault_byte fault }
{
    match fault {
        ChangeFault::NotADirectory => 1,
        ChangeFault::IsADirectory => 2,
        ChangeFault::NoEntry => 3,
        ChangeFault::TooLarge => 4,
        ChangeFault::IntoItself => 5,
        ChangeFault::PathTooLong => 6,
        ChangeFault::NoCommit => 7,
        ChangeFault::SequenceExhausted => 8,
        ChangeFault::GenerationNotNew => 9,
        ChangeFault::BadObject { .. } => 10,
        ChangeFault::NoMemory => 11,
    }
}

/// Returns the place and the number of the fault of the object that is refused, or zeros.
fn object_in(fault: ChangeFault) -> (u64, u8)
    ensures { result ≡ object_in fault }
{
    match fault {
        ChangeFault::BadObject { place, fault } => (place, byte_of_put_fault(fault)),
        _ => (0, 0),
    }
}

/// Writes why a change was refused.
#[tactic(auto, using(crate::proofs::DoneLaws::fault_encoded))]
fn put_fault(out: &mut Vec<u8>, fault: ChangeFault) -> Result<(), AllocError>
    ensures told { OnOk result (out.new.items ≡ out.old.items ++ formats.fault.spell fault) }
    ensures front { KeepsFront out.old.items out.new.items }
{
    let (place, number) = object_in(fault);
    put_bytes(out, &[byte_of_fault(fault)])?;
    put_bytes(out, &place.to_be_bytes())?;
    put_bytes(out, &[number])
}

/// Writes the kind of an answer, and what the kind has.
fn put_done(out: &mut Vec<u8>, done: &Done) -> Result<(), AllocError>
    requires { length (formats.done.spell done.now) ≤ body_limit }
    ensures told { OnOk result (out.new.items ≡ out.old.items ++ formats.done.spell done.now) }
    ensures front { KeepsFront out.old.items out.new.items }
{
    match done {
        Done::NotWritable => put_bytes(out, &[0x00]),
        Done::At(position) => {
            put_bytes(out, &[0x01])?;
            put_position(out, position)
        }
        Done::Checked {
            position,
            conflicts,
        } => {
            put_bytes(out, &[0x02])?;
            put_position(out, position)?;
            put_paths(out, conflicts.as_slice())?;
            Ok(())
        }
        Done::Refused(fault) => {
            put_bytes(out, &[0x03])?;
            put_fault(out, *fault)
        }
        Done::Conflicting { position, count } => {
            put_bytes(out, &[0x04])?;
            put_position(out, position)?;
            put_bytes(out, &count.to_be_bytes())
        }
    }
}

// ---- what can be encoded

/// States that a position can be encoded.
fn position_law(at: Position)
    ensures { position.fits at }
{
    id_law(at.root);
}

/// States that each of these paths can be encoded.
fn paths_law(paths: &[Path])
    ensures { AllByRecursion IsPathText paths.now }
{
    for path in paths {
        path_law(path);
    }
}

/// States that a fault can be encoded.
fn fault_law(why: ChangeFault)
    ensures { fault.fits why }
{}

/// States that a count can be encoded.
fn count_law(count: u32)
    ensures { (number w32).fits count }
{}

/// States that each part of an answer can be encoded, if its conflicts ascend.
fn fields_law(done: &Done)
    requires { length (formats.done.spell done.now) ≤ body_limit }
    ensures { ListsInOrder done.now → formats.done.fits done.now }
{
    match done {
        Done::NotWritable => {}
        Done::At(position) => position_law(*position),
        Done::Checked {
            position,
            conflicts,
        } => {
            position_law(*position);
            paths_law(conflicts.as_slice());
        }
        Done::Refused(fault) => fault_law(*fault),
        Done::Conflicting { position, count } => {
            position_law(*position);
            count_law(*count);
        }
    }
}

/// States that the body of an answer encodes it, if its conflicts ascend.
fn spelled_law(query: Query, done: &Done)
    requires { length (done_bytes query done.now) ≤ body_limit }
    ensures { ListsInOrder done.now → SpellsDone (done_bytes query done.now) query done.now }
{
    fields_law(done);
}

/// Writes the frame of an answer: four bytes of length, and its body.
#[tactic(auto, unfolding(eden_stream::specs::Frames::frame))]
fn put_frame(text: &mut Vec<u8>, query: Query, done: &Done) -> Result<(), AllocError>
    requires { length (done_bytes query done.now) ≤ body_limit }
    ensures exact { OnOk result (text.new.items ≡ text.old.items ++ frame (done_bytes query done.now)) }
    ensures front { KeepsFront text.old.items text.new.items }
{
    let start = text.len();
    put_bytes(text, &[0; 4])?;
    let body = text.len();
    put_head(text, 0x86, &query)?;
    put_done(text, done)?;
    let len = (text.len() - body) as u32;
    text[start..body].copy_from_slice(&len.to_be_bytes());
    Ok(())
}

/// Writes the frame of an answer after a text: four bytes of length, and its body.
///
/// The body must not be too long; that of `Done::of` never is. If the conflicts ascend, as those of
/// a mount do, `decode_done` reads the answer from it.
///
/// # Errors
///
/// - `AllocError` if an allocation fails. The text may then end with a part of the frame; what
///   was there before is unchanged.
pub fn append_done(text: &mut Vec<u8>, query: Query, done: &Done) -> Result<(), AllocError>
    requires fits { length (done_bytes query done.now) ≤ body_limit }
    ensures spelled { ListsInOrder done.now → SpellsDone (done_bytes query done.now) query done.now }
    ensures exact { OnOk result (text.new.items ≡ text.old.items ++ frame (done_bytes query done.now)) }
    ensures front { KeepsFront text.old.items text.new.items }
{
    spelled_law(query, done);
    put_frame(text, query, done)
}

/// Reads the body of an answer to a change: accepts exactly the bodies that encode one.
///
/// # Errors
///
/// As of `decode_reply`, in the same order. `BadField` also if the kind of the answer, a cause or
/// an object's fault is unknown, or if a cause that names no object has a place or a fault.
pub fn decode_done(alloc: Global, body: &[u8]) -> Result<(Query, Done), DecodeFault>
    ensures spelled { IfOk result (λ x. SpellsDone body.now x.0 x.1) }
    ensures all { (query : Query) (done : Done) → SpellsDone body.now query done → Gives (λ x. x) result (Ok (query, done)) }
    // The fault is this one.
    ensures exact { Gives (λ x. x) result (read_done body.now) }
{
    answered_of(alloc, body)
}
