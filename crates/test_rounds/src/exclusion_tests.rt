//! Mirrors that leave out what is below a directory.

use crate::daemon::{Daemon, Pair, Step, opened_mount, opened_world};
use crate::wanted::Said;
use eden_globs::Filter;
use eden_messages::Outcome;
use eden_mirror::Mirror;
use std::alloc::Global;
use std::test::Fail;

/// The filter of all paths but those below `d`.
fn all_but_d(alloc: Global) -> Result<Filter, Fail> {
    let below_d = Filter::parse(alloc, &[b"d/**"])?;
    Ok(Filter::all(alloc).except(&below_d)?)
}

/// Files below `d` are in no basis, and a change of one is in no list of changes.
const LEFT_OUT: &[Step] = &[
    Step::Write("d/x", "1"),
    Step::Write("p", "2"),
    Step::Begin,
    Step::Goes(Said::Basis(1, (7, 3), &["p"]), Outcome::Taken),
    Step::Goes(Said::Content(1, (7, 3), "p", "2"), Outcome::Placed),
    Step::Write("d/y", "3"),
    Step::Begin,
    Step::Goes(Said::Moved(2, (7, 4), &[]), Outcome::Placed),
    Step::Holds(Some((7, 4)), &[("p", "2")]),
];

/// Then the directory is moved to where its files are wanted, and back.
const MOVED: &[Step] = &[
    Step::RenameDir("d", "e"),
    Step::Begin,
    Step::Goes(Said::Moved(3, (7, 5), &["d", "e"]), Outcome::Taken),
    Step::Asks(&[
        Said::Listed(3, (7, 5), "d", &[]),
        Said::Listed(3, (7, 5), "e", &["e/x", "e/y"]),
    ]),
    Step::Comes(Said::Listed(3, (7, 5), "d", &[]), Outcome::Taken),
    Step::Goes(
        Said::Listed(3, (7, 5), "e", &["e/x", "e/y"]),
        Outcome::Taken,
    ),
    Step::Asks(&[
        Said::Content(3, (7, 5), "e/x", "1"),
        Said::Content(3, (7, 5), "e/y", "3"),
    ]),
    Step::Comes(Said::Content(3, (7, 5), "e/x", "1"), Outcome::Taken),
    Step::Comes(Said::Content(3, (7, 5), "e/y", "3"), Outcome::Placed),
    Step::Holds(Some((7, 5)), &[("e/x", "1"), ("e/y", "3"), ("p", "2")]),
    Step::RenameDir("e", "d"),
    Step::Begin,
    Step::Goes(Said::Moved(4, (7, 6), &["d", "e"]), Outcome::Taken),
    Step::Comes(Said::Listed(4, (7, 6), "d", &[]), Outcome::Taken),
    Step::Goes(Said::Listed(4, (7, 6), "e", &[]), Outcome::Placed),
    Step::Holds(Some((7, 6)), &[("p", "2")]),
];

/// A mirror with this filter goes through both parts.
fn follows<D: Daemon + Drop>(alloc: Global, filter: Filter, daemon: D) -> Result<(), Fail> {
    let mirror = Mirror::new(alloc, 1, 1, filter);
    let mut pair = Pair {
        alloc,
        daemon,
        mirror,
    };
    pair.goes(LEFT_OUT)?;
    pair.goes(MOVED)
}

#[test]
fn mirror_leaves_out(rt: HostRuntime) -> Result<(), Fail> {
    let alloc = rt.alloc();
    follows(alloc, all_but_d(alloc)?, opened_world(alloc)?)?;
    follows(alloc, all_but_d(alloc)?, opened_mount(alloc)?)
}
