//! What calls answer, as lines of text.

use anyhow::Result;
use eden_history::{Answer, Marked, Position};
use eden_ids::{Id, Path};
use std::str;

/// Bytes that are a text.
pub(crate) fn text_of(bytes: &[u8]) -> Result<&str> {
    Ok(str::from_utf8(bytes)?)
}

/// What a commit is called.
fn name_of(commits: &[(&'static str, Id)], root: Id) -> &'static str {
    if root == Id::ZERO {
        return "empty";
    }
    let found = commits.iter().find(|commit| commit.1 == root);
    found.map(|commit| commit.0).unwrap_or("unknown")
}

/// Ends a line with a position.
pub(crate) fn tell_position(
    rt: &HostRuntime,
    commits: &[(&'static str, Id)],
    position: &Position,
) -> Result<()> {
    let Position {
        generation,
        sequence,
        root,
    } = *position;
    println!(rt; " {generation} {sequence} {}", name_of(commits, root))?;
    Ok(())
}

/// How many paths there are, and each of them.
pub(crate) fn tell_paths(rt: &HostRuntime, what: &str, paths: &[Path]) -> Result<()> {
    println!(rt; "{what} {}", paths.len())?;
    for path in paths {
        println!(rt; "{}", text_of(path.as_bytes())?)?;
    }
    Ok(())
}

/// What became of each of some paths.
pub(crate) fn tell_marked(rt: &HostRuntime, marked: &[Marked]) -> Result<()> {
    for Marked { mark, path } in marked {
        println!(rt; "{mark:?} {}", text_of(path.as_bytes())?)?;
    }
    Ok(())
}

/// What a change answers.
pub(crate) fn tell_answer(
    rt: &HostRuntime,
    commits: &[(&'static str, Id)],
    answer: &Answer,
) -> Result<()> {
    match answer {
        Answer::At(position) => {
            print!(rt; "at")?;
            tell_position(rt, commits, position)
        }
        Answer::Checked {
            position,
            conflicts,
        } => {
            print!(rt; "at")?;
            tell_position(rt, commits, position)?;
            tell_paths(rt, "conflicts", conflicts.as_slice())
        }
        Answer::Refused(fault) => {
            println!(rt; "refused {fault}")?;
            Ok(())
        }
    }
}
