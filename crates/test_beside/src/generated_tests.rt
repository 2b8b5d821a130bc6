//! Changes drawn by lot.

use crate::comparing::{LIMITS, Pair, Step};
use eden_ids::Id;
use std::alloc::Global;
use std::process::Abort;
use std::test::Fail;
use test_kit::{Commits, Lot, Outcomes, Roots, family};

/// Makes a change on both, and compares them.
///
/// Compared are their answers, their files, which of these are dirty, and what changed since each number.
fn go_on(
    alloc: Global,
    pair: &mut Pair,
    step: &Step,
    roots: &Roots,
    outcomes: &mut Outcomes,
) -> Result<(), Fail> {
    let answer = pair.apply(step)?;
    outcomes.count(step.change, &answer, roots);
    pair.same_files(alloc, step)?;
    pair.same_dirty(alloc, step)?;
    pair.same_past(alloc, step)
}

/// Makes eighty changes on both, which follow from this seed.
fn go_through(
    alloc: Global,
    pair: &mut Pair,
    seed: u64,
    first: &[Id; 4],
    outcomes: &mut Outcomes,
) -> Result<(), Fail> {
    let mut lot = Lot::new(seed);
    let mut roots = Roots::new(first);
    for number in 1..=80 {
        let now = pair.world.now();
        let change = lot.change(alloc, &mut roots, now.generation(), now.files())?;
        let step = Step {
            seed,
            number,
            change: &change,
        };
        go_on(alloc, pair, &step, &roots, outcomes)?;
    }
    Ok(())
}

/// Checks that a mount and a world with this limit go through changes alike.
fn go_alike(
    alloc: Global,
    commits: &mut Commits<4>,
    limit: u64,
    outcomes: &mut Outcomes,
) -> Result<(), Fail> {
    let mut pair = Pair::mounted(alloc, &mut commits.store, commits.ids[2], limit)?;
    go_through(alloc, &mut pair, limit, &commits.ids, outcomes)
}

/// Checks it with each limit, and that each outcome is among those of the changes.
fn all_alike(rt: &impl Abort, alloc: Global, commits: &mut Commits<4>) -> Result<(), Fail> {
    let mut outcomes = Outcomes::default();
    for limit in LIMITS {
        go_alike(alloc, commits, *limit, &mut outcomes)?;
    }
    assert!(rt; outcomes.has_all(), "{outcomes:?}");
    Ok(())
}

#[test]
fn generated_changes(rt: HostRuntime) -> Result<(), Fail> {
    let alloc = rt.alloc();
    let mut commits = family(alloc)?;
    all_alike(&rt, alloc, &mut commits)
}
