//! Threads that change and ask at once, by a lock of which nothing is logged.

ghost use Rattle.std.specs.Prelude.{◌≡◌};
ghost use Rattle.eden_accumulate.specs.Mounts.{StandsFor};
ghost use Rattle.eden_history.specs.Worlds.{WorldState};

use crate::mounts::{basis, fetch, files, mounted};
use crate::unlogged::{UnloggedMount, ends_at};
use eden_accumulate::Mount;
use eden_history::{Answer, Change};
use eden_ids::GitNaming;
use eden_messages::{Reply, Request};
use eden_shared::{Origin, Pass, Passes, Unlogged};
use std::alloc::{AllocError, Global};
use std::marker::Brand;
use std::process::Abort;
use std::sync::Wait;
use std::sync::ledger::{Blank, Ledger};
use std::test::Fail;
use std::thread;
use std::thread::Threads;
use test_kit::write;

/// How often each thread writes.
const WRITES: u64 = 500;

/// What a thread writes to a file of its own, one after another, and how it asks for that.
#[derive(Drop)]
struct Job<L: Origin> {
    pass: Pass<L>,
    writes: Vec<Change>,
    fetch: Request,
}

fn writes_at(alloc: Global, at: &str) -> Result<Vec<Change>, Fail> {
    let mut writes = Vec::new(alloc);
    for number in 0..WRITES {
        let text = format!(in alloc; "{at} {number}")?;
        writes.push(write(alloc, at, text.as_str())?)?;
    }
    Ok(writes)
}

fn job_at<L: Origin>(alloc: Global, pass: Pass<L>, at: &str) -> Result<Job<L>, Fail> {
    let fetch = fetch(alloc, at)?;
    let writes = writes_at(alloc, at)?;
    Ok(Job {
        pass,
        writes,
        fetch,
    })
}

/// Returns whether a reply tells what was written, at this number or a later one.
fn tells(reply: &Reply, written: &Change, sequence: u64) -> bool {
    match (reply, written) {
        (
            Reply::ContentIs {
                position,
                content: Some(content),
                ..
            },
            Change::Write { bytes, .. },
        ) => position.sequence >= sequence && content.bytes == *bytes,
        _ => false,
    }
}

/// Writes and asks in turn, and returns the pass.
///
/// `None` if a write was not made after the one before it, or a reply is of an earlier state.
fn make_all<L: Origin>(
    rt: &impl Wait,
    unlogged: &UnloggedMount<L>,
    job: Job<L>,
) -> Option<Pass<L>> {
    let Job {
        mut pass,
        writes,
        fetch,
    } = job;
    let mut last = 1;
    for written in &writes {
        let Ok(Answer::At(position)) = unlogged.change(rt, &mut pass, written) else {
            return None;
        };
        let Ok(reply) = unlogged.ask(rt, &fetch) else {
            return None;
        };
        if position.sequence <= last || !tells(&reply, written, position.sequence) {
            return None;
        }
        last = position.sequence;
    }
    Some(pass)
}

fn make_in_threads<L: Origin + Send + Sync, R: Threads + Wait + Sync>(
    rt: &R,
    unlogged: &UnloggedMount<L>,
    jobs: Vec<Job<L>>,
) -> Result<Vec<Option<Pass<L>>>, AllocError> {
    Ok(thread::map_vec(rt, jobs, &|job| make_all(rt, unlogged, job))?)
}

/// The paths to which threads write, one each.
const PATHS: &[&str] = &["a", "b", "c", "d"];

fn jobs_of<L: Origin>(alloc: Global, passes: &mut Passes<L>) -> Result<Vec<Job<L>>, Fail> {
    let mut jobs = Vec::new(alloc);
    for path in PATHS {
        jobs.push(job_at(alloc, passes.give()?, path)?)?;
    }
    Ok(jobs)
}

/// Lets threads write and ask, and takes their passes back.
fn make_and_take_back<L: Origin + Send + Sync, R: Threads + Wait + Sync>(
    rt: &R,
    alloc: Global,
    unlogged: &UnloggedMount<L>,
    passes: &mut Passes<L>,
) -> Result<(), Fail> {
    let jobs = jobs_of(alloc, passes)?;
    for pass in make_in_threads(rt, unlogged, jobs)? {
        passes.take_back(pass.ok_or("a call went wrong")?);
    }
    Ok(())
}

/// Checks that the lock lists all files, after all writes.
fn lists_all<L: Origin>(
    rt: &(impl Wait + Abort),
    alloc: Global,
    unlogged: &UnloggedMount<L>,
) -> Result<(), Fail> {
    let told = unlogged.ask(rt, &basis(alloc))?;
    assert!(rt; told == files(alloc, 2_001, PATHS)?);
    Ok(())
}

/// Does so, and checks that the lock lists all files.
fn make_and_list<L: Origin + Send + Sync, R: Threads + Wait + Abort + Sync>(
    rt: &R,
    alloc: Global,
    unlogged: &UnloggedMount<L>,
    passes: &mut Passes<L>,
) -> Result<(), Fail> {
    make_and_take_back(rt, alloc, unlogged, passes)?;
    lists_all(rt, alloc, unlogged)
}

/// Four threads write and ask, and the lock has all their changes at the end.
fn four_threads<L: Origin + Send + Sync, R: Threads + Wait + Abort + Sync>(
    rt: &R,
    alloc: Global,
    mount: Mount<GitNaming>,
    blank: Blank,
) -> Result<(), Fail>
    requires opens { (world : WorldState) → L.opens world → StandsFor mount world }
    requires name { blank.name ≡ L.name }
    requires parts { blank.parts ≡ L.parts }
    requires whole { blank.parts ≡ 2048 }
{
    let (unlogged, mut passes) = Unlogged::<GitNaming, _, L>::new(mount, blank);
    make_and_list(rt, alloc, &unlogged, &mut passes)?;
    ends_at(rt, unlogged, passes, 2_001)
}

#[test]
fn four_threads_change_and_ask(rt: HostRuntime) -> Result<(), Fail> {
    let alloc = rt.alloc();
    four_threads::<Brand, HostRuntime>(&rt, alloc, mounted(alloc)?, Blank::new(2048))
}
