//! Changes that a client asks for over its connection.

ghost use Rattle.std.specs.Prelude.{◌≡◌, ◌<◌, ◌^◌, ◌++◌, ◌↔◌, ℕ, All, IsTrue, List, length, Err, None, Ok, OnOk, IfOk, IfSome, IsSome};
ghost use Rattle.std.specs.Int.{w64};
ghost use Rattle.std.specs.List.{flat_map};
ghost use Rattle.eden_history.specs.declared.change.Change.TheVariants.{Rename, RenameDir, Checkout, Remount, Import, Reset};
ghost use Rattle.eden_ids.specs.Fronts.{KeepsFront};
ghost use Rattle.eden_messages.specs.Spells.{if_small};
ghost use Rattle.eden_stream.specs.Frames.{frame};
ghost use Rattle.eden_wire.specs.declared.command.Command.{Command};
ghost use Rattle.eden_wire.specs.declared.command.Doing.{Doing};
ghost use Rattle.eden_wire.specs.Commands as formats;
ghost use Rattle.eden_wire.specs.Commands.{SpellsCommand, SpellsDo, change, do_bytes, mode, mode_byte, modes, object, objects, putting, read_command, object_type, type_byte, object_types};
ghost use Rattle.eden_wire.specs.Formats.{find, items_at, number, ◌▹◌};
ghost use Rattle.eden_wire.specs.Messages.{any_order, content, id, path, query};
ghost use Rattle.eden_wire.specs.Reading.{Gives, read_to_end};
ghost use Rattle.eden_wire.specs.internal.Steps.{IsSmallChange, IsSmallObject, read_as};

use crate::asked::{Asked, asked_of};
use crate::decoding::{tag_of, whole};
use crate::encoding::{len_of_path, put_bytes, put_counted, put_file, put_head, put_path};
use crate::fault::{DecodeFault, EncodeFault};
use crate::fields::{byte_of, bytes_of, content_of, id_of, path_of, query_of, u32_of, u64_of};
use bytes::Bytes;
use eden_history::{Change, Mode, change_law};
use eden_ids::{Content, Sequence, id_law};
use eden_messages::{Query, query_law};
use eden_objects::{Object, ObjectType};
use eden_stream::BODY_LIMIT;
use std::alloc::{AllocError, Global};

/// A change that a client asks for, and which of its queries that is.
#[derive(Debug, PartialEq, Drop)]
pub struct Doing {
    /// The query, which the answer repeats.
    pub query: Query,
    /// The change.
    pub change: Change,
}

/// What a body asks for.
#[derive(Debug, PartialEq, Drop)]
pub enum Command {
    /// A reply to a question.
    Ask(Asked),
    /// A change.
    Do(Doing),
}

// ---- reading

/// Reads the content of a path: a file to write, or its absence.
fn put_of(alloc: Global, bytes: &[u8]) -> Result<(Change, &[u8]), DecodeFault>
    ensures { Gives (λ x. (x.0, x.1.now)) result (read_as (path ▹ content) (λ x. putting x.0 x.1) bytes.now) }
{
    let (path, rest) = path_of(alloc, bytes)?;
    let (content, rest) = content_of(alloc, rest)?;
    let change = match content {
        None => Change::Remove { path },
        Some(Content { kind, bytes }) => Change::Write { path, kind, bytes },
    };
    Ok((change, rest))
}

/// Reads the two paths of a rename. Returns the change and the bytes after it.
fn rename_of(alloc: Global, bytes: &[u8]) -> Result<(Change, &[u8]), DecodeFault>
    ensures { Gives (λ x. (x.0, x.1.now)) result (read_as (path ▹ path) (λ x. Rename x.0 x.1) bytes.now) }
{
    let (old, rest) = path_of(alloc, bytes)?;
    let (new, rest) = path_of(alloc, rest)?;
    Ok((Change::Rename { old, new }, rest))
}

/// Reads the two paths of a renamed directory.
fn rename_dir_of(alloc: Global, bytes: &[u8]) -> Result<(Change, &[u8]), DecodeFault>
    ensures { Gives (λ x. (x.0, x.1.now)) result (read_as (path ▹ path) (λ x. RenameDir x.0 x.1) bytes.now) }
{
    let (old, rest) = path_of(alloc, bytes)?;
    let (new, rest) = path_of(alloc, rest)?;
    Ok((Change::RenameDir { old, new }, rest))
}

/// Returns the mode of a checkout that this byte names.
fn mode_of_byte(byte: u8) -> Result<Mode, DecodeFault>
    ensures { result ≡ find mode_byte modes byte }
{
    match byte {
        1 => Ok(Mode::Normal),
        2 => Ok(Mode::Dry),
        3 => Ok(Mode::Force),
        _ => Err(DecodeFault::BadField),
    }
}

/// Reads the commit and the mode of a checkout.
fn checkout_of(bytes: &[u8]) -> Result<(Change, &[u8]), DecodeFault>
    ensures { Gives (λ x. (x.0, x.1.now)) result (read_as (id ▹ mode) (λ x. Checkout x.0 x.1) bytes.now) }
{
    let (commit, rest) = id_of(bytes)?;
    let (byte, rest) = byte_of(rest)?;
    let mode = mode_of_byte(byte)?;
    Ok((Change::Checkout { commit, mode }, rest))
}

/// Reads the commit of a reset.
fn reset_of(bytes: &[u8]) -> Result<(Change, &[u8]), DecodeFault>
    ensures { Gives (λ x. (x.0, x.1.now)) result (read_as id (λ commit. Reset commit) bytes.now) }
{
    let (commit, rest) = id_of(bytes)?;
    Ok((Change::Reset { commit }, rest))
}

/// Reads the generation of a remount.
fn remount_of(bytes: &[u8]) -> Result<(Change, &[u8]), DecodeFault>
    ensures { Gives (λ x. (x.0, x.1.now)) result (read_as (number w64) (λ generation. Remount generation) bytes.now) }
{
    let (generation, rest) = u64_of(bytes)?;
    Ok((Change::Remount { generation }, rest))
}

/// Returns the object type that this byte names.
fn type_of_byte(byte: u8) -> Result<ObjectType, DecodeFault>
    ensures { result ≡ find type_byte object_types byte }
{
    match byte {
        1 => Ok(ObjectType::Blob),
        2 => Ok(ObjectType::Tree),
        3 => Ok(ObjectType::Commit),
        _ => Err(DecodeFault::BadField),
    }
}

/// Reads an object: its type and its payload.
fn object_of(alloc: Global, bytes: &[u8]) -> Result<(Object, &[u8]), DecodeFault>
    ensures { Gives (λ x. (x.0, x.1.now)) result (object.read bytes.now) }
{
    let (byte, rest) = byte_of(bytes)?;
    let object_type = type_of_byte(byte)?;
    let (held, rest) = bytes_of(rest)?;
    let payload = Bytes::copy_from_slice(alloc, held)?;
    Ok((
        Object {
            object_type,
            payload,
        },
        rest,
    ))
}

/// Reads `count` objects.
///
/// No room is reserved for a count that was only read.
fn objects_of(alloc: Global, count: u32, bytes: &[u8]) -> Result<(Vec<Object>, &[u8]), DecodeFault>
    ensures { Gives (λ x. (x.0.items, x.1.now)) result (items_at object any_order count None bytes.now) }
{
    let mut list = Vec::new(alloc);
    let mut rest = bytes;
    for _ in 0..count {
        let (object, after) = object_of(alloc, rest)?;
        list.push(object)?;
        rest = after;
    }
    Ok((list, rest))
}

/// Reads the objects of an import.
fn import_of(alloc: Global, bytes: &[u8]) -> Result<(Change, &[u8]), DecodeFault>
    ensures { Gives (λ x. (x.0, x.1.now)) result (read_as objects (λ objects. Import objects) bytes.now) }
{
    let (count, rest) = u32_of(bytes)?;
    let (list, rest) = objects_of(alloc, count, rest)?;
    let objects = Sequence::from_vec(list);
    Ok((Change::Import { objects }, rest))
}

/// Reads a change. Returns it and the bytes after it.
#[tactic(auto, using(crate::proofs::WholeChanges::change_whole))]
fn change_of(alloc: Global, bytes: &[u8]) -> Result<(Change, &[u8]), DecodeFault>
    ensures { Gives (λ x. (x.0, x.1.now)) result (change.read bytes.now) }
{
    let (kind, rest) = byte_of(bytes)?;
    match kind {
        0x01 => put_of(alloc, rest),
        0x02 => rename_of(alloc, rest),
        0x03 => rename_dir_of(alloc, rest),
        0x04 => checkout_of(rest),
        0x05 => reset_of(rest),
        0x06 => Ok((Change::Flush, rest)),
        0x07 => remount_of(rest),
        0x08 => import_of(alloc, rest),
        _ => Err(DecodeFault::BadField),
    }
}

/// Reads what comes after the tag of a change, up to the end.
fn doing_of(alloc: Global, bytes: &[u8]) -> Result<Doing, DecodeFault>
    ensures { Gives (λ doing. doing) result (read_to_end (query ▹ change) (λ x. record { query = x.0; change = x.1 }) bytes.now) }
{
    let (query, rest) = query_of(bytes)?;
    let (change, rest) = change_of(alloc, rest)?;
    whole(Doing { query, change }, rest)
}

/// Reads the whole body of a command.
#[tactic(auto, using(crate::proofs::WholeChanges::command_whole))]
fn command_of(alloc: Global, body: &[u8]) -> Result<Command, DecodeFault>
    ensures { Gives (λ command. command) result (read_command body.now) }
{
    let (tag, rest) = tag_of(body)?;
    if tag == 0x06 {
        let doing = doing_of(alloc, rest)?;
        return Ok(Command::Do(doing));
    }
    let asked = asked_of(alloc, body)?;
    Ok(Command::Ask(asked))
}

/// Reads a body that asks for something: a question, alone or after a patience, or a change.
///
/// A change has the version, the tag 6, a query and the kind of the change, then what that kind
/// needs. It comes after no patience and after no exclusions: its tag is a `BadTag` there.
///
/// # Errors
///
/// As of `decode_asked`, in the same order. `BadField` also if the kind of the change, a mode or
/// the type of an object is unknown, or if a payload has more than 8,388,608 bytes.
pub fn decode_command(alloc: Global, body: &[u8]) -> Result<Command, DecodeFault>
    ensures spelled { IfOk result (λ command. SpellsCommand body.now command) }
    ensures all { (command : Command) → SpellsCommand body.now command → Gives (λ c. c) result (Ok command) }
    // The fault is this one.
    ensures exact { Gives (λ command. command) result (read_command body.now) }
{
    command_of(alloc, body)
}

// ---- writing

/// Returns the byte that names a mode of a checkout.
fn byte_of_mode(mode: Mode) -> u8
    ensures { result ≡ mode_byte mode }
{
    match mode {
        Mode::Normal => 1,
        Mode::Dry => 2,
        Mode::Force => 3,
    }
}

/// Returns the byte that names an object type.
fn byte_of_type(object_type: ObjectType) -> u8
    ensures { result ≡ type_byte object_type }
{
    match object_type {
        ObjectType::Blob => 1,
        ObjectType::Tree => 2,
        ObjectType::Commit => 3,
    }
}

/// Writes an object: its type and its payload.
fn put_object(out: &mut Vec<u8>, object: &Object) -> Result<(), AllocError>
    requires { IsSmallObject object.now }
    ensures told { OnOk result (out.new.items ≡ out.old.items ++ formats.object.spell object.now) }
    ensures front { KeepsFront out.old.items out.new.items }
{
    put_bytes(out, &[byte_of_type(object.object_type)])?;
    put_counted(out, object.payload.as_slice())
}

/// Writes objects: their number, and each of them.
fn put_objects(out: &mut Vec<u8>, objects: &[Object]) -> Result<(), AllocError>
    requires count { length objects.now < 2 ^ 32 }
    requires small { All IsSmallObject objects.now }
    ensures told { OnOk result (out.new.items ≡ out.old.items ++ formats.objects.spell objects.now) }
    ensures front { KeepsFront out.old.items out.new.items }
{
    put_bytes(out, &(objects.len() as u32).to_be_bytes())?;
    for object in objects {
        put_object(out, object)?;
    }
    Ok(())
}

/// Writes the kind of a change, and what the kind needs.
fn put_change(out: &mut Vec<u8>, change: &Change) -> Result<(), AllocError>
    requires { formats.change.fits change.now }
    ensures told { OnOk result (out.new.items ≡ out.old.items ++ formats.change.spell change.now) }
    ensures front { KeepsFront out.old.items out.new.items }
{
    match change {
        Change::Write { path, kind, bytes } => {
            put_bytes(out, &[0x01])?;
            put_path(out, path)?;
            put_file(out, *kind, bytes.as_slice())
        }
        Change::Remove { path } => {
            put_bytes(out, &[0x01])?;
            put_path(out, path)?;
            put_bytes(out, &[0])
        }
        Change::Rename { old, new } => {
            put_bytes(out, &[0x02])?;
            put_path(out, old)?;
            put_path(out, new)
        }
        Change::RenameDir { old, new } => {
            put_bytes(out, &[0x03])?;
            put_path(out, old)?;
            put_path(out, new)
        }
        Change::Checkout { commit, mode } => {
            put_bytes(out, &[0x04])?;
            put_bytes(out, &commit.0)?;
            put_bytes(out, &[byte_of_mode(*mode)])
        }
        Change::Reset { commit } => {
            put_bytes(out, &[0x05])?;
            put_bytes(out, &commit.0)
        }
        Change::Flush => put_bytes(out, &[0x06]),
        Change::Remount { generation } => {
            put_bytes(out, &[0x07])?;
            put_bytes(out, &generation.to_be_bytes())
        }
        Change::Import { objects } => {
            put_bytes(out, &[0x08])?;
            put_objects(out, objects.as_slice())
        }
    }
}

/// Returns true if no payload is too long.
fn are_small(objects: &[Object]) -> bool
    ensures { IsTrue result ↔ All IsSmallObject objects.now }
{
    for object in objects {
        if object.payload.len() > Content::LIMIT {
            return false;
        }
    }
    true
}

/// Returns true if the bytes of the file, or of each object, are not too many.
fn is_small(change: &Change) -> bool
    ensures { IsTrue result ↔ IsSmallChange change.now }
{
    match change {
        Change::Write { bytes, .. } => bytes.len() <= Content::LIMIT,
        Change::Import { objects } => are_small(objects.as_slice()),
        _ => true,
    }
}

/// Returns the length of objects, without their count.
///
/// It is `None` if a body cannot be that long.
#[tactic(auto, using(crate::proofs::DoLengths::objects_front_small))]
fn len_of_objects(objects: &[Object]) -> Option<usize>
    requires { All IsSmallObject objects.now }
    ensures { result ≡ if_small (length (flat_map object.spell objects.now)) }
{
    let mut len = 0;
    for object in objects {
        len += 5 + object.payload.len();
        if len > BODY_LIMIT {
            return None;
        }
    }
    Some(len)
}

/// Returns the length of a change: its kind, and what the kind needs.
///
/// It is `None` if a body cannot be that long.
#[tactic(auto, using(crate::proofs::DoLengths::write_len, crate::proofs::DoLengths::remove_len, crate::proofs::DoLengths::rename_len, crate::proofs::DoLengths::rename_dir_len, crate::proofs::DoLengths::checkout_len, crate::proofs::DoLengths::reset_len, crate::proofs::DoLengths::import_len))]
fn len_of_change(change: &Change) -> Option<usize>
    requires { IsSmallChange change.now }
    ensures { result ≡ if_small (length (formats.change.spell change.now)) }
{
    match change {
        Change::Write { path, bytes, .. } => Some(6 + len_of_path(path) + bytes.len()),
        Change::Remove { path } => Some(2 + len_of_path(path)),
        Change::Rename { old, new } | Change::RenameDir { old, new } => {
            Some(1 + len_of_path(old) + len_of_path(new))
        }
        Change::Checkout { commit, .. } => {
            id_law(*commit);
            Some(22)
        }
        Change::Reset { commit } => {
            id_law(*commit);
            Some(21)
        }
        Change::Flush => Some(1),
        Change::Remount { .. } => Some(9),
        Change::Import { objects } => match len_of_objects(objects.as_slice()) {
            Some(len) if 5 + len <= BODY_LIMIT => Some(5 + len),
            _ => None,
        },
    }
}

/// Returns the length of the body that asks for a change.
///
/// It is `None` if no body does.
fn len_of_doing(doing: &Doing) -> Option<usize>
    ensures spelled { IfSome result (λ len. SpellsDo (do_bytes doing.now) doing.now × (len ≡ length (do_bytes doing.now))) }
    ensures all { (body : List ℕ) → SpellsDo body doing.now → IsSome result }
{
    query_law(doing.query);
    change_law(&doing.change);
    if !is_small(&doing.change) {
        return None;
    }
    match len_of_change(&doing.change) {
        Some(len) if 26 + len <= BODY_LIMIT => Some(26 + len),
        _ => None,
    }
}

/// Returns the frame of a body that asks for a change: four bytes of length, and the body.
///
/// # Errors
///
/// - `TooLarge` exactly if no body asks for the change: it would have more than 16,777,216 bytes,
///   or the bytes of a file or of an object would be more than 8,388,608. It is returned before
///   anything is allocated.
/// - `NoMemory` if an allocation fails.
#[tactic(auto, unfolding(eden_stream::specs::Frames::frame))]
pub fn encode_do(alloc: Global, doing: &Doing) -> Result<Vec<u8>, EncodeFault>
    ensures read_back { IfOk result (λ bytes. (body : List ℕ) × SpellsDo body doing.now × (bytes.items ≡ frame body)) }
    ensures exact { IfOk result (λ bytes. bytes.items ≡ frame (do_bytes doing.now)) }
    ensures too_large { (result ≡ Err EncodeFault.TooLarge) ↔ ((body : List ℕ) → SpellsDo body doing.now → ⊥) }
{
    let Some(len) = len_of_doing(doing) else {
        return Err(EncodeFault::TooLarge);
    };
    let mut frame = Vec::with_capacity(alloc, 4 + len)?;
    put_bytes(&mut frame, &(len as u32).to_be_bytes())?;
    put_head(&mut frame, 0x06, &doing.query)?;
    put_change(&mut frame, &doing.change)?;
    Ok(frame)
}
