//! Lines of a script that are commands, and others; their modes and their labels.

use eden_history::Mode;
use eden_script::{ChangeLine, Command, Label, Word, words};
use std::alloc::Global;
use std::test::Fail;

/// The last word of a line.
fn word(alloc: Global, line: &str) -> Result<Option<Word>, Fail> {
    Ok(words(alloc, line.as_bytes())?.and_then(|mut words| words.pop()))
}

fn command(alloc: Global, line: &str) -> Result<Option<Command>, Fail> {
    match words(alloc, line.as_bytes())? {
        Some(words) => Ok(Command::read(alloc, words)?),
        None => Ok(None),
    }
}

/// Lines that are commands.
const COMMANDS: &[&str] = &[
    "blob l \\e",
    "tree l",
    "tree l 100644 README l2",
    "commit l t",
    "id empty",
    "mount empty 7 1000",
    "write a plain \\e",
    "remove a",
    "rename a b",
    "reset empty",
    "flush",
    "remount 18446744073709551615",
    "checkout c force",
    "position",
    "list",
    "list a/* **",
    "dirty",
    "read a",
    "since 7 1",
];

/// Lines that are none.
const OTHERS: &[&str] = &[
    "",
    "blob empty x",
    "tree l 100644 README",
    "mount empty 7",
    "write a tree x",
    "rename a",
    "reset A",
    "flush 1",
    "remount 07",
    "remount 18446744073709551616",
    "checkout c",
    "checkout c Force",
    "positions",
    "list ",
    "dirty a",
    "read",
    "list a  b",
];

/// The first of these lines that is a command and should be none, or the other way round.
fn first_wrong<'a>(
    alloc: Global,
    lines: &'a [&'a str],
    are_commands: bool,
) -> Result<Option<&'a str>, Fail> {
    for line in lines {
        if command(alloc, line)?.is_some() != are_commands {
            return Ok(Some(*line));
        }
    }
    Ok(None)
}

#[test]
fn rows_of_the_table_and_other_lines(rt: HostRuntime) -> Result<(), Fail> {
    for (lines, are_commands) in [(COMMANDS, true), (OTHERS, false)] {
        let wrong = first_wrong(rt.alloc(), lines, are_commands)?;
        assert!(rt; wrong.is_none(), "{wrong:?}");
    }
    Ok(())
}

/// The mode of a checkout.
fn mode_of(alloc: Global, line: &str) -> Result<Option<Mode>, Fail> {
    match &command(alloc, line)? {
        Some(Command::Change(ChangeLine::Checkout { mode, .. })) => Ok(Some(*mode)),
        _ => Ok(None),
    }
}

#[test]
fn modes(rt: HostRuntime) -> Result<(), Fail> {
    for (line, mode) in &[
        ("checkout c normal", Mode::Normal),
        ("checkout c force", Mode::Force),
        ("checkout c dry", Mode::Dry),
    ] {
        assert!(rt; mode_of(rt.alloc(), line)? == Some(*mode), "{line}");
    }
    Ok(())
}

/// A text, whether it is a label that is read, and whether it is one that can be bound.
const LABELS: &[(&str, bool, bool)] = &[
    ("a", true, true),
    ("z09", true, true),
    ("abcdefghijklmnopqrstuvwxyz012345", true, true),
    ("abcdefghijklmnopqrstuvwxyz0123456", false, false),
    ("empty", true, false),
    ("empty0", true, true),
    ("A", false, false),
    ("a_", false, false),
    ("\\e", false, false),
];

#[test]
fn labels(rt: HostRuntime) -> Result<(), Fail> {
    let alloc = rt.alloc();
    for (text, reads, binds) in LABELS {
        let read = word(alloc, text)?.and_then(Label::read);
        assert!(rt; read.is_some() == *reads, "{text}");
        let bound = word(alloc, text)?.and_then(Label::read_to_bind);
        assert!(rt; bound.is_some() == *binds, "{text}");
    }
    let first = word(alloc, "a")?.and_then(Label::read).ok_or("no label")?;
    let second = word(alloc, "ab")?.and_then(Label::read).ok_or("no label")?;
    assert!(rt; first < second && first != second && first == first.clone()?);
    assert!(rt; !first.is_empty() && second.as_bytes() == b"ab".as_slice());
    Ok(())
}
