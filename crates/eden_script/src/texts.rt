//! The parts of a script's output that have no labels: ids, refusals, paths, contents and
//! marks.
//!
//! Each call adds to the end of a text. If an allocation fails, the text may end with a
//! part of what was to be added; what was there before is unchanged.

ghost use Rattle.std.specs.Prelude.{◌≡◌, ◌++◌, OnOk};
ghost use Rattle.std.specs.List.{flat_map};
ghost use Rattle.hex.specs.Hex.{encode_lower};
ghost use Rattle.eden_ids.specs.Fronts.{KeepsFront};
ghost use Rattle.eden_script.specs.ToldText.{refused_text, refusal_name, refusal_number, number_text, put_fault_name, path_fault_name, change_fault_name, since_fault_name, filter_fault_name, mark_text, marked_text, path_text, paths_text, kind_text, content_text, ok_text, id_text};

use crate::escapes::{push_bytes, push_escaped};
use crate::numbers::push_number;
use crate::told::Refusal;
use eden_globs::FilterFault;
use eden_history::{ChangeFault, Mark, Marked, SinceFault};
use eden_ids::{Id, Kind, Path, PathFault};
use eden_objects::PutFault;
use std::alloc::AllocError;

/// Adds an id as forty hexadecimal digits.
pub fn push_id(text: &mut Vec<u8>, id: &Id) -> Result<(), AllocError>
    ensures told { OnOk result (text.new.items ≡ text.old.items ++ encode_lower id.now.0) }
    ensures front { KeepsFront text.old.items text.new.items }
{
    push_bytes(text, id.to_hex().as_slice())
}

/// Adds the line of an object that was put.
pub fn push_ok(text: &mut Vec<u8>) -> Result<(), AllocError>
    ensures told { OnOk result (text.new.items ≡ text.old.items ++ ok_text) }
    ensures front { KeepsFront text.old.items text.new.items }
{
    push_bytes(text, b"ok\n".as_slice())
}

/// Adds the line of an id that was asked for: `id` and the id.
pub fn push_id_line(text: &mut Vec<u8>, id: &Id) -> Result<(), AllocError>
    ensures told { OnOk result (text.new.items ≡ text.old.items ++ id_text id.now) }
    ensures front { KeepsFront text.old.items text.new.items }
{
    push_bytes(text, b"id ".as_slice())?;
    push_id(text, id)?;
    push_bytes(text, b"\n".as_slice())
}

/// Returns the name of a put's fault, as it is displayed.
fn put_fault_name(fault: PutFault) -> &'static [u8]
    ensures { result.now ≡ put_fault_name fault }
{
    match fault {
        PutFault::TooLarge => b"TooLarge".as_slice(),
        PutFault::IdTaken => b"IdTaken".as_slice(),
        PutFault::ZeroId => b"ZeroId".as_slice(),
        PutFault::BadMode => b"BadMode".as_slice(),
        PutFault::BadName => b"BadName".as_slice(),
        PutFault::OutOfOrder => b"OutOfOrder".as_slice(),
        PutFault::Duplicate => b"Duplicate".as_slice(),
        PutFault::MissingChild => b"MissingChild".as_slice(),
        PutFault::WrongChildKind => b"WrongChildKind".as_slice(),
        PutFault::TooDeep => b"TooDeep".as_slice(),
        PutFault::PathTooLong => b"PathTooLong".as_slice(),
        PutFault::CutShort => b"CutShort".as_slice(),
        PutFault::BadCommit => b"BadCommit".as_slice(),
        PutFault::NoMemory => b"NoMemory".as_slice(),
    }
}

/// Returns the name of a path's fault, as it is displayed.
fn path_fault_name(fault: PathFault) -> &'static [u8]
    ensures { result.now ≡ path_fault_name fault }
{
    match fault {
        PathFault::Empty => b"Empty".as_slice(),
        PathFault::TooLong => b"TooLong".as_slice(),
        PathFault::BadComponent => b"BadComponent".as_slice(),
        PathFault::TooDeep => b"TooDeep".as_slice(),
        PathFault::NoMemory => b"NoMemory".as_slice(),
    }
}

/// Returns the name of a change's fault, as it is displayed.
fn change_fault_name(fault: ChangeFault) -> &'static [u8]
    ensures { result.now ≡ change_fault_name fault }
{
    match fault {
        ChangeFault::NotADirectory => b"NotADirectory".as_slice(),
        ChangeFault::IsADirectory => b"IsADirectory".as_slice(),
        ChangeFault::NoEntry => b"NoEntry".as_slice(),
        ChangeFault::TooLarge => b"TooLarge".as_slice(),
        ChangeFault::IntoItself => b"IntoItself".as_slice(),
        ChangeFault::PathTooLong => b"PathTooLong".as_slice(),
        ChangeFault::NoCommit => b"NoCommit".as_slice(),
        ChangeFault::SequenceExhausted => b"SequenceExhausted".as_slice(),
        ChangeFault::GenerationNotNew => b"GenerationNotNew".as_slice(),
        ChangeFault::BadObject { .. } => b"BadObject".as_slice(),
        ChangeFault::NoMemory => b"NoMemory".as_slice(),
    }
}

/// Returns the name of a filter's fault, without its index.
fn filter_fault_name(fault: FilterFault) -> &'static [u8]
    ensures { result.now ≡ filter_fault_name fault }
{
    match fault {
        FilterFault::TooMany => b"TooMany".as_slice(),
        FilterFault::PatternTooLong => b"PatternTooLong".as_slice(),
        FilterFault::BadPattern(_) => b"BadPattern".as_slice(),
        FilterFault::NoMemory => b"NoMemory".as_slice(),
    }
}

/// Returns the name of a position's fault, without its number.
fn since_fault_name(fault: SinceFault) -> &'static [u8]
    ensures { result.now ≡ since_fault_name fault }
{
    match fault {
        SinceFault::Stale(_) => b"Stale".as_slice(),
        SinceFault::Ahead(_) => b"Ahead".as_slice(),
        SinceFault::Truncated(_) => b"Truncated".as_slice(),
        SinceFault::NoMemory => b"NoMemory".as_slice(),
    }
}

/// Returns the name of a cause, as it is printed.
fn refusal_name(cause: Refusal) -> &'static [u8]
    ensures { result.now ≡ refusal_name cause }
{
    match cause {
        Refusal::NoLabel => b"NoLabel".as_slice(),
        Refusal::Mounted => b"Mounted".as_slice(),
        Refusal::NotMounted => b"NotMounted".as_slice(),
        Refusal::NoCommit => b"NoCommit".as_slice(),
        Refusal::Put(fault) => put_fault_name(fault),
        Refusal::Path(fault) => path_fault_name(fault),
        Refusal::File(fault) => change_fault_name(fault),
        Refusal::Patterns(fault) => filter_fault_name(fault),
        Refusal::Since(fault) => since_fault_name(fault),
    }
}

/// Returns the number that is printed with a cause.
///
/// For a pattern it is its index, from 0; for a position the mount's number that refuses
/// it.
fn refusal_number(cause: Refusal) -> Option<u64>
    ensures { result ≡ refusal_number cause }
{
    match cause {
        Refusal::Patterns(FilterFault::BadPattern(place)) => Some(place as u64),
        Refusal::Since(SinceFault::Stale(generation)) => Some(generation),
        Refusal::Since(SinceFault::Ahead(head)) => Some(head),
        Refusal::Since(SinceFault::Truncated(floor)) => Some(floor),
        _ => None,
    }
}

/// Adds a space and a number, if there is one.
fn push_number_behind(text: &mut Vec<u8>, number: Option<u64>) -> Result<(), AllocError>
    ensures told { OnOk result (text.new.items ≡ text.old.items ++ number_text number) }
    ensures front { KeepsFront text.old.items text.new.items }
{
    let Some(number) = number else {
        return Ok(());
    };
    push_bytes(text, b" ".as_slice())?;
    push_number(text, number)
}

/// Adds the line of a refusal: the name of the cause, and its number if it has one.
pub fn push_refusal(text: &mut Vec<u8>, cause: Refusal) -> Result<(), AllocError>
    ensures told { OnOk result (text.new.items ≡ text.old.items ++ refused_text (refusal_name cause) (refusal_number cause)) }
    ensures front { KeepsFront text.old.items text.new.items }
{
    push_bytes(text, b"refused ".as_slice())?;
    push_bytes(text, refusal_name(cause))?;
    push_number_behind(text, refusal_number(cause))?;
    push_bytes(text, b"\n".as_slice())
}

/// Adds a path on a line of its own.
fn push_path(text: &mut Vec<u8>, path: &Path) -> Result<(), AllocError>
    ensures told { OnOk result (text.new.items ≡ text.old.items ++ path_text path.now) }
    ensures front { KeepsFront text.old.items text.new.items }
{
    push_escaped(text, path.as_bytes())?;
    push_bytes(text, b"\n".as_slice())
}

/// Adds each path on a line of its own.
fn push_paths(text: &mut Vec<u8>, paths: &[Path]) -> Result<(), AllocError>
    ensures told { OnOk result (text.new.items ≡ text.old.items ++ flat_map path_text paths.now) }
    ensures front { KeepsFront text.old.items text.new.items }
{
    for path in paths {
        push_path(text, path)?;
    }
    Ok(())
}

/// Adds a heading with the number of paths, then each path.
///
/// Each path is on a line of its own.
pub fn push_listed(text: &mut Vec<u8>, what: &[u8], paths: &[Path]) -> Result<(), AllocError>
    ensures told { OnOk result (text.new.items ≡ text.old.items ++ paths_text what.now paths.now) }
    ensures front { KeepsFront text.old.items text.new.items }
{
    push_bytes(text, what)?;
    push_number(text, paths.len() as u64)?;
    push_bytes(text, b"\n".as_slice())?;
    push_paths(text, paths)
}

/// Returns the word for a file's kind: `plain`, `exec` or `link`.
pub fn kind_name(kind: Kind) -> &'static [u8]
    ensures { result.now ≡ kind_text kind }
{
    match kind {
        Kind::Plain => b"plain".as_slice(),
        Kind::Exec => b"exec".as_slice(),
        Kind::Link => b"link".as_slice(),
    }
}

/// Adds the line of a file: its kind and its bytes.
pub fn push_content(text: &mut Vec<u8>, kind: Kind, bytes: &[u8]) -> Result<(), AllocError>
    ensures told { OnOk result (text.new.items ≡ text.old.items ++ content_text kind bytes.now) }
    ensures front { KeepsFront text.old.items text.new.items }
{
    push_bytes(text, kind_name(kind))?;
    push_bytes(text, b" ".as_slice())?;
    push_escaped(text, bytes)?;
    push_bytes(text, b"\n".as_slice())
}

/// Returns the name of a mark, as it is printed.
fn mark_name(mark: Mark) -> &'static [u8]
    ensures { result.now ≡ mark_text mark }
{
    match mark {
        Mark::Created => b"Created".as_slice(),
        Mark::Removed => b"Removed".as_slice(),
        Mark::Changed => b"Changed".as_slice(),
        Mark::Root => b"Root".as_slice(),
    }
}

/// Adds the line of a path with its mark.
fn push_marked(text: &mut Vec<u8>, marked: &Marked) -> Result<(), AllocError>
    ensures told { OnOk result (text.new.items ≡ text.old.items ++ marked_text marked.now) }
    ensures front { KeepsFront text.old.items text.new.items }
{
    push_bytes(text, mark_name(marked.mark))?;
    push_bytes(text, b" ".as_slice())?;
    push_escaped(text, marked.path.as_bytes())?;
    push_bytes(text, b"\n".as_slice())
}

/// Adds each path on a line of its own, after its mark.
pub fn push_all_marked(text: &mut Vec<u8>, marked: &[Marked]) -> Result<(), AllocError>
    ensures told { OnOk result (text.new.items ≡ text.old.items ++ flat_map marked_text marked.now) }
    ensures front { KeepsFront text.old.items text.new.items }
{
    for one in marked {
        push_marked(text, one)?;
    }
    Ok(())
}
