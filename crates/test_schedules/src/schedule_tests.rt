//! Mirrors that follow a mount, whatever becomes of what they send and are sent.

use crate::scene::{Scene, Step, Tally};
use crate::schedule_lot::ScheduleLot;
use eden_ids::Id;
use std::alloc::Global;
use std::test::Fail;
use test_kit::{Commits, Roots, family};

/// Adds what a schedule begins with: the paths, and three mirrors.
fn fill(alloc: Global, scene: &mut Scene, lot: &mut ScheduleLot) -> Result<(), Fail> {
    scene.add_paths(alloc)?;
    for _ in 0..3 {
        scene.add_follower(alloc, lot.filter(alloc)?)?;
    }
    Ok(())
}

/// Takes a step. Returns what is broken after it, if anything is.
fn broken_after(
    alloc: Global,
    scene: &mut Scene,
    step: &Step,
    roots: &Roots,
    tally: &mut Tally,
) -> Result<Option<&'static str>, Fail> {
    scene.happen(alloc, step, roots, tally)?;
    scene.broken(alloc, tally)
}

/// The number of a step, the step, and what is broken after it.
type Broken = (u64, Step, &'static str);

/// Takes sixty steps that follow from a seed. Returns the first that breaks something.
fn take_steps(
    alloc: Global,
    scene: &mut Scene,
    seed: u64,
    first: &[Id; 4],
    tally: &mut Tally,
) -> Result<Option<Broken>, Fail> {
    let mut lot = ScheduleLot::new(seed);
    let mut roots = Roots::new(first);
    fill(alloc, scene, &mut lot)?;
    for number in 0..60_u64 {
        let step = lot.step(alloc, &mut roots, scene)?;
        let broken = broken_after(alloc, scene, &step, &roots, tally)?;
        if let Some(broken) = broken {
            return Ok(Some((number, step, broken)));
        }
    }
    Ok(None)
}

/// Has three mirrors follow a mount of the third commit. Returns what breaks first.
fn follow(
    alloc: Global,
    commits: &mut Commits<4>,
    seed: u64,
    limit: u64,
    tally: &mut Tally,
) -> Result<Option<Broken>, Fail> {
    let mut scene = Scene::mounted(alloc, &mut commits.store, commits.ids[2], limit)?;
    take_steps(alloc, &mut scene, seed, &commits.ids, tally)
}

/// Checks forty schedules over these commits. Returns what was seen in them.
fn follow_all(alloc: Global, commits: &mut Commits<4>, limit: u64) -> Result<Tally, Fail> {
    let mut tally = Tally::default();
    for seed in 0..40_u64 {
        let broken = follow(alloc, commits, seed, limit, &mut tally)?;
        if let Some((number, step, broken)) = broken {
            return Err(Fail::new(format_args!(
                "limit {limit}, seed {seed}, step {number}, {step:?}: {broken}"
            )));
        }
    }
    Ok(tally)
}

/// Checks forty schedules with this limit. Returns what was seen in them.
fn follow_forty(alloc: Global, limit: u64) -> Result<Tally, Fail> {
    let mut commits = family(alloc)?;
    follow_all(alloc, &mut commits, limit)
}

#[test]
fn generated_schedules_without_a_journal(rt: HostRuntime) -> Result<(), Fail> {
    let tally = follow_forty(rt.alloc(), 0)?;
    assert!(rt; tally.has_all(), "{tally:?}");
    Ok(())
}

#[test]
fn generated_schedules_with_two_deltas(rt: HostRuntime) -> Result<(), Fail> {
    let tally = follow_forty(rt.alloc(), 150)?;
    assert!(rt; tally.has_all(), "{tally:?}");
    Ok(())
}

#[test]
fn generated_schedules_with_few_deltas(rt: HostRuntime) -> Result<(), Fail> {
    let tally = follow_forty(rt.alloc(), 400)?;
    assert!(rt; tally.has_all() && tally.has_told(), "{tally:?}");
    Ok(())
}

#[test]
fn generated_schedules_with_many_deltas(rt: HostRuntime) -> Result<(), Fail> {
    let tally = follow_forty(rt.alloc(), 2000)?;
    assert!(rt; tally.has_all() && tally.has_told(), "{tally:?}");
    Ok(())
}

#[test]
fn generated_schedules_with_all_deltas(rt: HostRuntime) -> Result<(), Fail> {
    let tally = follow_forty(rt.alloc(), 1_000_000)?;
    assert!(rt; tally.has_all() && tally.has_told(), "{tally:?}");
    Ok(())
}
