//! Renames of directories, in the order of the causes for which they are refused.

use eden_history::{Answer, Change, ChangeFault, Position};
use eden_ids::{GitNaming, Id, Path};
use eden_objects::Store;
use eden_world::World;
use std::alloc::Global;
use std::test::Fail;
use test_kit::write;

/// A name of 200 bytes, for which a `#` stands.
const LONG_NAME: [u8; 200] = [b'x'; 200];

/// Twenty components, for which a `%` stands.
const TWENTY: &str = "x/x/x/x/x/x/x/x/x/x/x/x/x/x/x/x/x/x/x/x";

/// Where files stand, the old path, the new one, and why the rename is refused; none where it is made.
type Case = (
    &'static [&'static str],
    &'static str,
    &'static str,
    Option<ChangeFault>,
);

/// The causes are those that `ChangeFault` tells of such a rename, each before the ones behind it. A path has at most 1,024 bytes and 64
/// components.
const CASES: &[Case] = &[
    // At or above the old path stands a file.
    (&["d"], "d", "d", Some(ChangeFault::NotADirectory)),
    (&["d"], "d", "d/e", Some(ChangeFault::NotADirectory)),
    (&["d"], "d", "n", Some(ChangeFault::NotADirectory)),
    (&["d"], "d/e", "d/e", Some(ChangeFault::NotADirectory)),
    (&["d"], "d/e/f", "n", Some(ChangeFault::NotADirectory)),
    // Below the old path stands none.
    (&["d.x", "d0"], "d", "d", Some(ChangeFault::NoEntry)),
    (&["d.x", "d0"], "d", "d/e", Some(ChangeFault::NoEntry)),
    (&["f", "e/x"], "d", "f", Some(ChangeFault::NoEntry)),
    (&["f", "e/x"], "d", "e", Some(ChangeFault::NoEntry)),
    // The two paths are one.
    (&["d/x"], "d", "d", None),
    (&["d/x/y"], "d", "d", None),
    // The new path lies below the old one.
    (&["d/x"], "d", "d/y", Some(ChangeFault::IntoItself)),
    (&["d/x"], "d", "d/x", Some(ChangeFault::IntoItself)),
    (&["d/x"], "d", "d/x/y", Some(ChangeFault::IntoItself)),
    (&["d/e/x"], "d", "d/e", Some(ChangeFault::IntoItself)),
    (&["d/%/%/%"], "d", "d/%", Some(ChangeFault::IntoItself)),
    // At or above the new path stands a file.
    (&["d/x", "f"], "d", "f", Some(ChangeFault::NotADirectory)),
    (&["d/x", "f"], "d", "f/e", Some(ChangeFault::NotADirectory)),
    (
        &["d/e/x", "d/f"],
        "d/e",
        "d/f",
        Some(ChangeFault::NotADirectory),
    ),
    (
        &["d/%/%/%", "f"],
        "d",
        "f/b/c/d/e",
        Some(ChangeFault::NotADirectory),
    ),
    // Below the new path stand files. A directory above the old one is of that kind.
    (&["d/x", "e/y"], "d", "e", Some(ChangeFault::IsADirectory)),
    (&["d/x", "e/f/x"], "d", "e", Some(ChangeFault::IsADirectory)),
    (&["d/e/x"], "d/e", "d", Some(ChangeFault::IsADirectory)),
    (&["d/e/f/x"], "d/e/f", "d", Some(ChangeFault::IsADirectory)),
    (
        &["d/%/%/%", "a/b/c/d/e/f"],
        "d",
        "a/b/c/d/e",
        Some(ChangeFault::IsADirectory),
    ),
    // A file would stand at a path of 65 components, or of 1,025 bytes; or of 64, or of 1,024.
    (
        &["d/%/%/%"],
        "d",
        "a/b/c/d/e",
        Some(ChangeFault::PathTooLong),
    ),
    (
        &["d/a", "d/%/%/%", "d/z"],
        "d",
        "a/b/c/d/e",
        Some(ChangeFault::PathTooLong),
    ),
    (&["d/%/%/%"], "d", "a/b/c/d", None),
    (
        &["d/#/#/#/#/#"],
        "d",
        "twenty bytes, surely",
        Some(ChangeFault::PathTooLong),
    ),
    (&["d/#/#/#/#/#"], "d", "nineteen bytes, yes", None),
    // It stands elsewhere, and stays there.
    (&["d/x", "d.x/%/%/%"], "d", "a/b/c/d/e", None),
    (&["d/x", "d.x", "d0"], "d", "d.y", None),
];

/// The path that a text of a case spells.
fn spelled(alloc: Global, text: &str) -> Result<Path, Fail> {
    let mut bytes = Vec::new(alloc);
    for byte in text.as_bytes() {
        match *byte {
            b'#' => bytes.extend_from_slice(LONG_NAME.as_slice())?,
            b'%' => bytes.extend_from_slice(TWENTY.as_bytes())?,
            other => bytes.push(other)?,
        }
    }
    Ok(Path::parse(alloc, bytes.as_slice())?)
}

/// A world of the empty commit, in which files stand at these paths.
fn with_files(alloc: Global, paths: &[&str]) -> Result<World<GitNaming>, Fail> {
    let store = Store::new(alloc, GitNaming);
    let mut world = World::mount(alloc, store, Id::ZERO, 7, 1000)?;
    for text in paths {
        let mut change = write(alloc, "a", "1")?;
        if let Change::Write { path, .. } = &mut change {
            *path = spelled(alloc, text)?;
        }
        world.apply(&change)?;
    }
    Ok(world)
}

/// The answer at this position. A directory that is renamed to itself takes no number.
fn answer_of(before: Position, moves: bool, fault: Option<ChangeFault>) -> Answer {
    match fault {
        Some(fault) => Answer::Refused(fault),
        None => Answer::At(Position {
            sequence: before.sequence.saturating_add(u64::from(moves)),
            ..before
        }),
    }
}

/// Whether a rename goes as its case says.
fn is_right(alloc: Global, case: &Case) -> Result<bool, Fail> {
    let (paths, old, new, fault) = case;
    let mut world = with_files(alloc, paths)?;
    let wanted = answer_of(world.position(), old != new, *fault);
    let change = Change::RenameDir {
        old: spelled(alloc, old)?,
        new: spelled(alloc, new)?,
    };
    Ok(world.apply(&change)? == wanted)
}

/// The number of the first case, from 0, that goes another way, if there is one.
pub(crate) fn first_wrong_case(alloc: Global) -> Result<Option<usize>, Fail> {
    for (number, case) in CASES.iter().enumerate() {
        if !is_right(alloc, case)? {
            return Ok(Some(number));
        }
    }
    Ok(None)
}
