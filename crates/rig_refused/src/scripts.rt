//! Scripts that are run.

use crate::refusals::{Refusals, again};
use anyhow::{Result, bail};
use eden_edend::{RunFault, run};
use eden_stream::Counted;
use std::alloc::Global;
use test_kit::{ANSWER_ROWS, CHANGE_ROWS, Row, lines};

/// The rows of the table that are run: they have lines of every kind, and refusals.
const NAMES: &[&str] = &[
    "first_run",
    "file_becomes_directory",
    "tree_refusals",
    "reset_and_back",
    "conflict_then_force",
    "rename_onto_a_file",
    "rename_directory",
    "flush_and_remount",
    "checkout_modes",
    "import_then_checkout",
    "questions and their refusals",
];

/// How many bytes a script prints at the most.
const MOST_BYTES: usize = 4_096;

/// What a script prints into a place with room, and how its run ends.
fn ran(alloc: Global, script: &[u8], room: Vec<u8>) -> (Vec<u8>, Result<u64, RunFault>) {
    let mut text = room;
    let mut reader = Counted::new(script);
    let mut writer = Counted::new(&mut text);
    let ended = run(alloc, &mut reader, &mut writer);
    (text, ended)
}

/// What a script prints. It is run anew where memory was refused: what was printed then is a front of that.
fn printed(alloc: Global, refusals: &mut Refusals, script: &[u8]) -> Result<Vec<u8>> {
    let place = again!(refusals, _, Vec::with_capacity(alloc, MOST_BYTES));
    let (text, ended) = ran(alloc, script, place);
    if ended != Err(RunFault::NoMemory) {
        let _ = ended?;
        return Ok(text);
    }
    refusals.add();
    let (whole, ended) = ran(alloc, script, Vec::with_capacity(alloc, MOST_BYTES)?);
    let _ = ended?;
    if !whole.starts_with(text.as_slice()) {
        bail!("what was printed before memory was refused is no front of the text");
    }
    Ok(whole)
}

/// The row of a name.
fn row(name: &str) -> Result<&'static Row> {
    let rows = CHANGE_ROWS.iter().chain(ANSWER_ROWS);
    for row in rows {
        if row.name == name {
            return Ok(row);
        }
    }
    bail!("no row has this name")
}

/// Runs each of the rows, and tells whether it prints what was worked out.
pub(crate) fn run_all(rt: &HostRuntime) -> Result<u64> {
    let alloc = rt.alloc();
    let mut refusals = Refusals::new();
    for &name in NAMES {
        let row = row(name)?;
        let script = again!(refusals, _, lines(alloc, row.script));
        let wanted = again!(refusals, _, lines(alloc, row.prints));
        let text = printed(alloc, &mut refusals, script.as_slice())?;
        if text != wanted {
            bail!("{name} prints something else");
        }
        println!(rt; "{name}: as worked out")?;
    }
    Ok(refusals.count())
}
