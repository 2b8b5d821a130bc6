//! What a line came to, as it is printed.

ghost use Rattle.std.specs.Prelude.{◌≡◌, ◌++◌, OnOk};
ghost use Rattle.eden_ids.specs.Fronts.{KeepsFront};
ghost use Rattle.eden_script.specs.ToldText.{root_text, position_text, at_text, prefixes_text, changes_text, answer_text, told_text};

use crate::labels::Labels;
use eden_history::{Answer, Marked, Position};
use eden_ids::{Id, Path};
use eden_script::{
    Refusal, Told, push_all_marked, push_bytes, push_content, push_id, push_id_line, push_listed,
    push_number, push_ok, push_refusal,
};
use std::alloc::AllocError;

/// Adds a root: `empty`, the first label bound to it, or its id.
fn push_root(text: &mut Vec<u8>, labels: &Labels, root: &Id) -> Result<(), AllocError>
    ensures told { OnOk result (text.new.items ≡ text.old.items ++ root_text labels.now root.now) }
    ensures front { KeepsFront text.old.items text.new.items }
{
    if *root == Id::ZERO {
        return push_bytes(text, b"empty".as_slice());
    }
    match labels.first_bound(*root) {
        Some(label) => push_bytes(text, label.as_bytes()),
        None => push_id(text, root),
    }
}

/// Adds a position: its generation, its number and its root.
fn push_position(text: &mut Vec<u8>, labels: &Labels, position: &Position) -> Result<(), AllocError>
    ensures told { OnOk result (text.new.items ≡ text.old.items ++ position_text labels.now position.now) }
    ensures front { KeepsFront text.old.items text.new.items }
{
    push_number(text, position.generation)?;
    push_bytes(text, b" ".as_slice())?;
    push_number(text, position.sequence)?;
    push_bytes(text, b" ".as_slice())?;
    push_root(text, labels, &position.root)
}

/// Adds the line of a position: the present one, or that after a change.
fn push_at(text: &mut Vec<u8>, labels: &Labels, position: &Position) -> Result<(), AllocError>
    ensures told { OnOk result (text.new.items ≡ text.old.items ++ at_text labels.now position.now) }
    ensures front { KeepsFront text.old.items text.new.items }
{
    push_bytes(text, b"at ".as_slice())?;
    push_position(text, labels, position)?;
    push_bytes(text, b"\n".as_slice())
}

/// Adds the lines of a change's answer.
fn push_answer(text: &mut Vec<u8>, labels: &Labels, answer: &Answer) -> Result<(), AllocError>
    ensures told { OnOk result (text.new.items ≡ text.old.items ++ answer_text labels.now answer.now) }
    ensures front { KeepsFront text.old.items text.new.items }
{
    match answer {
        Answer::At(position) => push_at(text, labels, position),
        Answer::Checked {
            position,
            conflicts,
        } => {
            push_at(text, labels, position)?;
            push_listed(text, b"conflicts ".as_slice(), conflicts.as_slice())
        }
        Answer::Refused(fault) => push_refusal(text, Refusal::File(*fault)),
    }
}

/// Adds the lines of the directories that were renamed, if there are some.
///
/// The first line has their number.
fn push_prefixes(text: &mut Vec<u8>, prefixes: &[Path]) -> Result<(), AllocError>
    ensures told { OnOk result (text.new.items ≡ text.old.items ++ prefixes_text prefixes.now) }
    ensures front { KeepsFront text.old.items text.new.items }
{
    if prefixes.is_empty() {
        return Ok(());
    }
    push_listed(text, b"prefixes ".as_slice(), prefixes)
}

/// Adds the lines of what changed since a position.
///
/// The first line has the number of paths, and the position up to which they changed.
fn push_changes(
    text: &mut Vec<u8>,
    labels: &Labels,
    marked: &[Marked],
    prefixes: &[Path],
    position: &Position,
) -> Result<(), AllocError>
    ensures told { OnOk result (text.new.items ≡ text.old.items ++ changes_text labels.now marked.now prefixes.now position.now) }
    ensures front { KeepsFront text.old.items text.new.items }
{
    push_bytes(text, b"changes ".as_slice())?;
    push_number(text, marked.len() as u64)?;
    push_bytes(text, b" to ".as_slice())?;
    push_position(text, labels, position)?;
    push_bytes(text, b"\n".as_slice())?;
    push_all_marked(text, marked)?;
    push_prefixes(text, prefixes)
}

/// Adds what a line came to, by the labels after it.
///
/// If an allocation fails, part of it may have been added.
pub(crate) fn push_told(
    text: &mut Vec<u8>,
    labels: &Labels,
    told: &Told<'_>,
) -> Result<(), AllocError>
    ensures told { OnOk result (text.new.items ≡ text.old.items ++ told_text labels.now told.now) }
    ensures front { KeepsFront text.old.items text.new.items }
{
    match told {
        Told::Done => push_ok(text),
        Told::Id(id) => push_id_line(text, id),
        Told::Answer(answer) => push_answer(text, labels, answer),
        Told::Refused(cause) => push_refusal(text, *cause),
        Told::Files(paths) => push_listed(text, b"files ".as_slice(), paths.as_slice()),
        Told::Dirty(paths) => push_listed(text, b"dirty ".as_slice(), paths.as_slice()),
        Told::File { kind, bytes } => push_content(text, *kind, bytes.as_slice()),
        Told::Changes {
            marked,
            prefixes,
            to,
        } => push_changes(text, labels, marked.as_slice(), prefixes.as_slice(), to),
    }
}
