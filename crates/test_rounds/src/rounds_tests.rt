//! Rounds that overlap, lose replies and meet a remount, of a world and of a mount behind its frames.

use crate::daemon::{Daemon, Pair, Step, opened_mount, opened_world};
use crate::wanted::Said;
use eden_messages::{Cause, Outcome};
use std::alloc::Global;
use std::test::Fail;

/// A mirror is placed at 7/1, where no file stands.
pub(crate) const PLACED: &[Step] = &[
    Step::Begin,
    Step::Goes(Said::Basis(1, (7, 1), &[]), Outcome::Placed),
    Step::Holds(Some((7, 1)), &[]),
];

/// Then it gathers, in its second round, the file that was written behind it.
const GATHERING: &[Step] = &[
    Step::Write("p", "x"),
    Step::Begin,
    Step::Goes(Said::Created(2, (7, 2), "p"), Outcome::Taken),
    Step::Holds(Some((7, 1)), &[]),
];

/// Then it begins a third round before the second is over, and is placed by that one.
const OVERLAPPING: &[Step] = &[
    Step::Asks(&[Said::Content(2, (7, 2), "p", "x")]),
    Step::Write("p", "y"),
    Step::Begin,
    Step::Goes(Said::Created(3, (7, 3), "p"), Outcome::Taken),
    Step::Comes(Said::Content(2, (7, 2), "p", "x"), Outcome::Ignored),
    Step::Holds(Some((7, 1)), &[]),
    Step::Goes(Said::Content(3, (7, 3), "p", "y"), Outcome::Placed),
    Step::Holds(Some((7, 3)), &[("p", "y")]),
];

/// A mirror of a daemon goes through all the parts, one after the other.
fn plays<D: Daemon + Drop>(alloc: Global, daemon: D, parts: &[&[Step]]) -> Result<(), Fail> {
    let mut pair = Pair::new(alloc, daemon);
    pair.goes_through(parts)
}

/// Through all the parts, a world and a mount are followed alike.
fn followed(alloc: Global, parts: &[&[Step]]) -> Result<(), Fail> {
    plays(alloc, opened_world(alloc)?, parts)?;
    plays(alloc, opened_mount(alloc)?, parts)
}

#[test]
fn overlapping_rounds(rt: HostRuntime) -> Result<(), Fail> {
    followed(rt.alloc(), &[PLACED, GATHERING, OVERLAPPING])
}

// The reply to the first question is lost, and it is asked twice again.
#[test]
fn lost_and_repeated_fetch(rt: HostRuntime) -> Result<(), Fail> {
    let only = &[Said::Content(2, (7, 2), "p", "x")];
    let steps = [
        Step::Asks(only),
        Step::Asks(only),
        Step::Asks(only),
        Step::Comes(only[0], Outcome::Placed),
        Step::Comes(only[0], Outcome::Ignored),
        Step::Holds(Some((7, 2)), &[("p", "x")]),
    ];
    followed(rt.alloc(), &[PLACED, GATHERING, &steps])
}

#[test]
fn remount_in_a_round(rt: HostRuntime) -> Result<(), Fail> {
    let steps = [
        Step::Remount(8),
        Step::Write("q", "z"),
        Step::Goes(Said::Content(2, (8, 2), "p", "x"), Outcome::Ignored),
        Step::Holds(Some((7, 1)), &[]),
        Step::Begin,
        Step::Goes(Said::Refused(3, Cause::Stale(8)), Outcome::Unplaced),
        Step::Holds(None, &[]),
        Step::Begin,
        Step::Goes(Said::Basis(4, (8, 2), &["p", "q"]), Outcome::Taken),
        Step::Asks(&[
            Said::Content(4, (8, 2), "p", "x"),
            Said::Content(4, (8, 2), "q", "z"),
        ]),
        Step::Comes(Said::Content(4, (8, 2), "p", "x"), Outcome::Taken),
        Step::Comes(Said::Content(4, (8, 2), "q", "z"), Outcome::Placed),
        Step::Holds(Some((8, 2)), &[("p", "x"), ("q", "z")]),
    ];
    followed(rt.alloc(), &[PLACED, GATHERING, &steps])
}

#[test]
fn ended_and_refiltered(rt: HostRuntime) -> Result<(), Fail> {
    let ended = [
        Step::Begin,
        Step::Comes(Said::Refused(2, Cause::TooLarge), Outcome::Ended),
        Step::Holds(Some((7, 1)), &[]),
        Step::Asks(&[]),
        Step::Comes(Said::Refused(2, Cause::TooLarge), Outcome::Ignored),
    ];
    followed(rt.alloc(), &[PLACED, &ended])?;
    let refiltered = [
        Step::Refilter,
        Step::Holds(None, &[]),
        Step::Asks(&[]),
        Step::Begin,
        Step::Goes(Said::Basis(4, (7, 3), &["p"]), Outcome::Taken),
    ];
    followed(rt.alloc(), &[PLACED, GATHERING, OVERLAPPING, &refiltered])
}

// The floor is raised while the mirror gathers.
#[test]
fn truncated_in_a_round(rt: HostRuntime) -> Result<(), Fail> {
    let steps = [
        Step::Flush,
        Step::Goes(Said::Content(2, (7, 3), "p", "x"), Outcome::Placed),
        Step::Holds(Some((7, 2)), &[("p", "x")]),
        Step::Begin,
        Step::Goes(Said::Refused(3, Cause::Truncated(3)), Outcome::Unplaced),
        Step::Holds(None, &[("p", "x")]),
        Step::Begin,
        Step::Goes(Said::Basis(4, (7, 3), &["p"]), Outcome::Taken),
        Step::Holds(None, &[]),
        Step::Goes(Said::Content(4, (7, 3), "p", "x"), Outcome::Placed),
        Step::Holds(Some((7, 3)), &[("p", "x")]),
    ];
    followed(rt.alloc(), &[PLACED, GATHERING, &steps])
}

/// A mirror is placed at 7/3, and has two files below `d`.
const BELOW: &[Step] = &[
    Step::Write("d/x", "1"),
    Step::Write("d/y", "2"),
    Step::Begin,
    Step::Goes(Said::Basis(1, (7, 3), &["d/x", "d/y"]), Outcome::Taken),
    Step::Asks(&[
        Said::Content(1, (7, 3), "d/x", "1"),
        Said::Content(1, (7, 3), "d/y", "2"),
    ]),
    Step::Comes(Said::Content(1, (7, 3), "d/x", "1"), Outcome::Taken),
    Step::Comes(Said::Content(1, (7, 3), "d/y", "2"), Outcome::Placed),
    Step::Holds(Some((7, 3)), &[("d/x", "1"), ("d/y", "2")]),
];

// The directory is renamed: what stands below its old path and below its new one is listed, and fetched.
#[test]
fn mirror_lists_prefix(rt: HostRuntime) -> Result<(), Fail> {
    let steps = [
        Step::RenameDir("d", "e"),
        Step::Begin,
        Step::Goes(Said::Moved(2, (7, 4), &["d", "e"]), Outcome::Taken),
        Step::Asks(&[
            Said::Listed(2, (7, 4), "d", &[]),
            Said::Listed(2, (7, 4), "e", &["e/x", "e/y"]),
        ]),
        Step::Comes(Said::Listed(2, (7, 4), "d", &[]), Outcome::Taken),
        Step::Holds(Some((7, 3)), &[]),
        Step::Goes(
            Said::Listed(2, (7, 4), "e", &["e/x", "e/y"]),
            Outcome::Taken,
        ),
        Step::Asks(&[
            Said::Content(2, (7, 4), "e/x", "1"),
            Said::Content(2, (7, 4), "e/y", "2"),
        ]),
        Step::Comes(Said::Content(2, (7, 4), "e/x", "1"), Outcome::Taken),
        Step::Comes(Said::Content(2, (7, 4), "e/y", "2"), Outcome::Placed),
        Step::Holds(Some((7, 4)), &[("e/x", "1"), ("e/y", "2")]),
    ];
    followed(rt.alloc(), &[BELOW, &steps])
}
