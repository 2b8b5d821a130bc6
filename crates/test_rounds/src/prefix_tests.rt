//! Rounds that await what stands below directories, by replies made by hand.

use crate::daemon::{Pair, Step, opened_world};
use crate::wanted::Said;
use eden_ids::GitNaming;
use eden_messages::{Cause, Outcome};
use eden_world::World;
use std::alloc::Global;
use std::test::Fail;

/// A mirror is placed at 7/3, and has some files below `d`, one beside it, and none below `e`.
const PLACED: &[Step] = &[
    Step::Begin,
    Step::Comes(
        Said::Basis(1, (7, 3), &["d.x", "d/x", "d/y"]),
        Outcome::Taken,
    ),
    Step::Comes(Said::Content(1, (7, 3), "d.x", "0"), Outcome::Taken),
    Step::Comes(Said::Content(1, (7, 3), "d/x", "1"), Outcome::Taken),
    Step::Comes(Said::Content(1, (7, 3), "d/y", "2"), Outcome::Placed),
];

/// In its second round it is told that files were moved between `d` and `e`.
const MOVED: &[Step] = &[
    Step::Begin,
    Step::Comes(Said::Moved(2, (7, 4), &["d", "e"]), Outcome::Taken),
];

/// That mirror, placed.
fn placed(alloc: Global) -> Result<Pair<World<GitNaming>>, Fail> {
    let mut pair = Pair::new(alloc, opened_world(alloc)?);
    pair.goes(PLACED)?;
    Ok(pair)
}

/// That mirror, which was told that files were moved.
fn told(alloc: Global) -> Result<Pair<World<GitNaming>>, Fail> {
    let mut pair = placed(alloc)?;
    pair.goes(MOVED)?;
    Ok(pair)
}

/// These steps happen to the mirror that is placed.
fn placed_goes(alloc: Global, steps: &[Step]) -> Result<(), Fail> {
    let mut pair = placed(alloc)?;
    pair.goes(steps)
}

/// These steps happen to the mirror that was told that files were moved.
fn told_goes(alloc: Global, steps: &[Step]) -> Result<(), Fail> {
    let mut pair = told(alloc)?;
    pair.goes(steps)
}

#[test]
fn lists_in_a_round(rt: HostRuntime) -> Result<(), Fail> {
    let steps = [
        Step::Awaits(2, &["d", "e"], &[]),
        Step::Comes(Said::Listed(2, (7, 4), "d", &[]), Outcome::Taken),
        Step::Holds(Some((7, 3)), &[("d.x", "0")]),
        Step::Awaits(2, &["e"], &[]),
        Step::Comes(
            Said::Listed(2, (7, 5), "e", &["e/x", "e/y"]),
            Outcome::Taken,
        ),
        Step::Awaits(2, &[], &["e/x", "e/y"]),
        Step::Comes(Said::Content(2, (7, 4), "e/x", "1"), Outcome::Taken),
        Step::Comes(Said::Content(2, (7, 5), "e/y", "2"), Outcome::Placed),
        Step::Holds(Some((7, 4)), &[("d.x", "0"), ("e/x", "1"), ("e/y", "2")]),
    ];
    told_goes(rt.alloc(), &steps)
}

// The last reply that is awaited is a list; and a path that is listed again is asked again.
#[test]
fn listed_again(rt: HostRuntime) -> Result<(), Fail> {
    let steps = [
        Step::Comes(Said::Listed(2, (7, 4), "d", &["d/y"]), Outcome::Taken),
        Step::Holds(Some((7, 3)), &[("d.x", "0"), ("d/y", "2")]),
        Step::Awaits(2, &["e"], &["d/y"]),
        Step::Comes(Said::Content(2, (7, 4), "d/y", "3"), Outcome::Taken),
        Step::Comes(Said::Content(2, (7, 4), "d/y", "4"), Outcome::Ignored),
        Step::Comes(Said::Listed(2, (7, 4), "e", &[]), Outcome::Placed),
        Step::Holds(Some((7, 4)), &[("d.x", "0"), ("d/y", "3")]),
    ];
    told_goes(rt.alloc(), &steps)
}

// A directory within another one: what is below both is awaited once, and again where its content has come before it is listed.
#[test]
fn a_directory_in_a_directory(rt: HostRuntime) -> Result<(), Fail> {
    let steps = [
        Step::Begin,
        Step::Comes(Said::Moved(2, (7, 4), &["a", "a/b", "d"]), Outcome::Taken),
        Step::Comes(Said::Listed(2, (7, 4), "d", &[]), Outcome::Taken),
        Step::Comes(
            Said::Listed(2, (7, 4), "a", &["a/b/x", "a/y"]),
            Outcome::Taken,
        ),
        Step::Comes(Said::Content(2, (7, 4), "a/b/x", "1"), Outcome::Taken),
        Step::Awaits(2, &["a/b"], &["a/y"]),
        Step::Comes(Said::Listed(2, (7, 4), "a/b", &["a/b/x"]), Outcome::Taken),
        Step::Awaits(2, &[], &["a/y", "a/b/x"]),
        Step::Comes(Said::Content(2, (7, 4), "a/b/x", "2"), Outcome::Taken),
        Step::Comes(Said::Content(2, (7, 4), "a/y", "3"), Outcome::Placed),
        Step::Holds(Some((7, 4)), &[("a/b/x", "2"), ("a/y", "3"), ("d.x", "0")]),
    ];
    placed_goes(rt.alloc(), &steps)
}

#[test]
fn a_list_that_is_too_large(rt: HostRuntime) -> Result<(), Fail> {
    let files = &[("d.x", "0"), ("d/x", "1"), ("d/y", "2")];
    let steps = [
        Step::Comes(Said::Refused(1, Cause::TooLarge), Outcome::Ignored),
        Step::Comes(Said::Refused(2, Cause::Truncated(9)), Outcome::Ignored),
        Step::Comes(Said::Refused(2, Cause::TooLarge), Outcome::Ended),
        Step::Asks(&[]),
        Step::Holds(Some((7, 3)), files),
        Step::Comes(Said::Listed(2, (7, 4), "d", &[]), Outcome::Ignored),
        Step::Comes(Said::Refused(2, Cause::TooLarge), Outcome::Ignored),
        Step::Holds(Some((7, 3)), files),
    ];
    told_goes(rt.alloc(), &steps)
}

// Once the directories are listed, such a refusal answers nothing that is awaited.
#[test]
fn too_large_after_the_lists(rt: HostRuntime) -> Result<(), Fail> {
    let steps = [
        Step::Comes(Said::Listed(2, (7, 4), "d", &[]), Outcome::Taken),
        Step::Comes(Said::Listed(2, (7, 4), "e", &["e/x"]), Outcome::Taken),
        Step::Comes(Said::Refused(2, Cause::TooLarge), Outcome::Ignored),
        Step::Comes(Said::Content(2, (7, 4), "e/x", "1"), Outcome::Placed),
        Step::Holds(Some((7, 4)), &[("d.x", "0"), ("e/x", "1")]),
    ];
    told_goes(rt.alloc(), &steps)
}

// A round that is begun anew ignores the lists of the one before.
#[test]
fn given_up_with_a_list_outstanding(rt: HostRuntime) -> Result<(), Fail> {
    let steps = [
        Step::Comes(Said::Listed(2, (7, 4), "d", &[]), Outcome::Taken),
        Step::Begin,
        Step::Comes(Said::Listed(2, (7, 4), "e", &["e/x"]), Outcome::Ignored),
        Step::Comes(Said::Moved(3, (7, 5), &["d", "e"]), Outcome::Taken),
        Step::Comes(Said::Listed(3, (7, 5), "e", &[]), Outcome::Taken),
        Step::Comes(Said::Listed(3, (7, 5), "d", &[]), Outcome::Placed),
        Step::Holds(Some((7, 5)), &[("d.x", "0")]),
    ];
    told_goes(rt.alloc(), &steps)
}
