//! The threads: two writers, and two followers with a service each.

use crate::following::Following;
use crate::serving::{Service, serve};
use crate::writing::{Writer, Wrote};
use crossbeam_channel::Sender;
use eden_follow::Follower;
use eden_history::Position;
use eden_ids::{GitNaming, NoMemory};
use eden_shared::{Audited, CallLog, Pass, Shared};
use std::alloc::Global;
use std::sync::Wait;
use std::sync::ledger::Ledger;
use std::thread;
use std::thread::{JoinHandle, Threads};
use std::time::Clock;

/// Holds a mount that stores its history behind a lock.
pub(crate) type AuditedMount<L> = Shared<GitNaming, Audited<GitNaming>, L>;

/// Holds a follower and its service.
#[derive(Drop)]
pub(crate) struct Pair<L: Ledger> {
    pub(crate) service: Service<L>,
    pub(crate) following: Following,
}

/// Holds what the two end with.
#[derive(Drop)]
struct Followed<L: Ledger> {
    follower: Follower,
    pass: Pass<L>,
    log: CallLog,
}

/// Holds those that begin.
#[derive(Drop)]
pub(crate) struct Crew<L: Ledger> {
    pub(crate) writers: Vec<Writer<L>>,
    pub(crate) pairs: Vec<Pair<L>>,
    /// Says to the followers what the last position is.
    pub(crate) last: Vec<Sender<Position>>,
}

/// Holds what all threads end with.
#[derive(Drop)]
pub(crate) struct Joined<L: Ledger> {
    pub(crate) passes: Vec<Pass<L>>,
    pub(crate) logs: Vec<CallLog>,
    pub(crate) followers: Vec<Follower>,
}

impl<L: Ledger> Joined<L> {
    /// Adds what the writers end with.
    fn add_writers(&mut self, wrote: Vec<Wrote<L>>) -> Result<(), NoMemory> {
        for Wrote { pass, log, .. } in wrote {
            self.passes.push(pass)?;
            self.logs.push(log)?;
        }
        Ok(())
    }

    /// Joins the followers, and adds what they and their services end with.
    fn join_followers(
        &mut self,
        rt: &impl Threads,
        threads: Vec<JoinHandle<Result<Followed<L>, NoMemory>>>,
    ) -> Result<(), NoMemory> {
        for thread in threads {
            let Followed {
                follower,
                pass,
                log,
            } = thread.join(rt)?;
            self.passes.push(pass)?;
            self.logs.push(log)?;
            self.followers.push(follower)?;
        }
        Ok(())
    }
}

/// Runs the writers, each in a thread, and joins them.
fn write_all<L: Ledger + Send + Sync, R: Threads + Wait + Sync>(
    rt: &R,
    alloc: Global,
    shared: &AuditedMount<L>,
    writers: Vec<Writer<L>>,
) -> Result<Vec<Wrote<L>>, NoMemory> {
    let ended = thread::map_vec(rt, writers, &|writer| writer.run(rt, alloc, shared))?;
    let mut wrote = Vec::new(alloc);
    for one in ended {
        wrote.push(one?)?;
    }
    Ok(wrote)
}

/// Says to the followers where the mount is after the last change.
fn tell_last<L: Ledger>(rt: &impl Wait, wrote: &[Wrote<L>], followers: &[Sender<Position>]) {
    let Some(last) = wrote
        .iter()
        .map(|one| one.last)
        .max_by_key(|last| last.sequence)
    else {
        return;
    };
    for follower in followers {
        let _ = follower.send(rt, last);
    }
}

/// Runs a follower, and its service in a thread of its own.
fn follow_served<L: Ledger + Send + Sync, R: Threads + Wait + Clock + Sync>(
    rt: &R,
    alloc: Global,
    shared: &AuditedMount<L>,
    pair: Pair<L>,
) -> Result<Followed<L>, NoMemory> {
    let Pair { service, following } = pair;
    thread::scope(
        thread::scope_env(),
        rt,
        move |scope| -> Result<Followed<L>, NoMemory> {
            let Ok(serving) = scope.spawn(move || serve(rt, alloc, shared, service)) else {
                return Err(NoMemory);
            };
            let follower = following.run(rt, alloc)?;
            let (pass, log) = serving.join(rt)?;
            Ok(Followed {
                follower,
                pass,
                log,
            })
        },
    )
}

/// Runs all, and joins the writers and then the followers, which hear where the last change has
/// led.
pub(crate) fn run_crew<L: Ledger + Send + Sync, R: Threads + Wait + Clock + Sync>(
    rt: &R,
    alloc: Global,
    shared: &AuditedMount<L>,
    crew: Crew<L>,
) -> Result<Joined<L>, NoMemory> {
    let Crew {
        writers,
        pairs,
        last,
    } = crew;
    thread::scope(
        thread::scope_env(),
        rt,
        move |scope| -> Result<Joined<L>, NoMemory> {
            let mut threads = Vec::new(alloc);
            for pair in pairs {
                let Ok(thread) = scope.spawn(move || follow_served(rt, alloc, shared, pair)) else {
                    return Err(NoMemory);
                };
                threads.push(thread)?;
            }
            let wrote = write_all(rt, alloc, shared, writers)?;
            tell_last(rt, wrote.as_slice(), last.as_slice());
            let mut ended = Joined {
                passes: Vec::new(alloc),
                logs: Vec::new(alloc),
                followers: Vec::new(alloc),
            };
            ended.add_writers(wrote)?;
            ended.join_followers(rt, threads)?;
            Ok(ended)
        },
    )
}
