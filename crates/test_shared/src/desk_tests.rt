//! Desks in threads of their own.

ghost use Rattle.std.specs.Prelude.{◌≡◌};

use crate::audits::{AuditedMount, Ended, close, opened};
use crate::calls::calls_of;
use eden_ids::Id;
use eden_logs::Call;
use eden_shared::{CallLog, Desk, OpenGate, Pass};
use std::alloc::Global;
use std::marker::Brand;
use std::process::Abort;
use std::sync::Wait;
use std::sync::ledger::{Blank, Ledger};
use std::test::Fail;
use std::thread;
use std::thread::Threads;
use test_kit::{Commits, Objects};

/// Two commits of files and directories in each other's places.
const COMMITS: &str =
    "blob x x;blob y y;tree d 100644 b y;tree t 100644 a x 100644 a.b x 100755 b y;commit c t;tree u 100644 a.b x 40000 a d 120000 a0 y;commit e u";

/// Makes these calls at a desk. Returns whether each is answered.
fn make_all<L: Ledger>(
    rt: &impl Wait,
    shared: &AuditedMount<L>,
    desk: &mut Desk<L>,
    calls: &[Call],
) -> bool {
    for call in calls {
        let is_answered = match call {
            Call::Change(change) => desk.change(rt, shared, change).is_ok(),
            Call::Ask(request) => desk.ask(rt, shared, request, &OpenGate).is_ok(),
        };
        if !is_answered {
            return false;
        }
    }
    true
}

/// Makes these calls at a desk of its own. Gives what the desk hands back, or nothing where a call is not answered.
fn call_all<L: Ledger>(
    rt: &impl Wait,
    alloc: Global,
    shared: &AuditedMount<L>,
    calls: Vec<Call>,
) -> Option<(Pass<L>, CallLog)> {
    let mut desk = Desk::new(alloc, shared.pass(rt).ok()?);
    if make_all(rt, shared, &mut desk, calls.as_slice()) {
        Some(desk.finish())
    } else {
        None
    }
}

/// Returns the calls of four callers, 500 of each.
fn jobs_of(alloc: Global, commits: &[Id; 2]) -> Result<Vec<Vec<Call>>, Fail> {
    let mut jobs = Vec::new(alloc);
    for caller in 1..=4_u64 {
        jobs.push(calls_of(alloc, commits, caller, 500)?)?;
    }
    Ok(jobs)
}

/// Adds what a caller hands back, whose 500 calls are answered.
fn add<L: Ledger>(
    rt: &impl Abort,
    ended: &mut Ended<L>,
    given: Option<(Pass<L>, CallLog)>,
) -> Result<(), Fail> {
    let (pass, log) = given.ok_or("a call is not answered")?;
    assert_eq!(rt; log.entries.len(), 500);
    ended.passes.push(pass)?;
    Ok(ended.logs.push(log)?)
}

/// Four callers make their calls, each in a thread of its own.
fn call_in_threads<L: Ledger + Send + Sync, R: Threads + Wait + Abort + Sync>(
    rt: &R,
    alloc: Global,
    shared: &AuditedMount<L>,
    commits: &[Id; 2],
) -> Result<Ended<L>, Fail> {
    let jobs = jobs_of(alloc, commits)?;
    let done = thread::map_vec(rt, jobs, &|calls| call_all(rt, alloc, shared, calls))?;
    let mut ended = Ended {
        passes: Vec::new(alloc),
        logs: Vec::new(alloc),
    };
    for given in done {
        add(rt, &mut ended, given)?;
    }
    Ok(ended)
}

/// Lets four callers make their calls, and gives the lock up.
fn call_and_close<L: Ledger + Send + Sync, R: Threads + Wait + Abort + Sync>(
    rt: &R,
    alloc: Global,
    shared: AuditedMount<L>,
    commits: &[Id; 2],
) -> Result<(), Fail> {
    let given = call_in_threads(rt, alloc, &shared, commits)?;
    close(rt, alloc, shared, given)
}

/// Four callers make 500 calls each over one mount, and their logs agree with its history.
fn four_callers<L: Ledger + Send + Sync, R: Threads + Wait + Abort + Sync>(
    rt: &R,
    alloc: Global,
    blank: Blank,
) -> Result<(), Fail>
    requires name { blank.name ≡ L.name }
    requires parts { blank.parts ≡ L.parts }
    requires whole { blank.parts ≡ 256 }
{
    let objects = Objects::of(alloc, COMMITS)?;
    let Commits { store, ids } = Commits::labelled(objects, &["c", "e"]);
    let shared = opened::<L>(alloc, store, ids[0], blank)?;
    call_and_close(rt, alloc, shared, &ids)
}

#[test]
fn four_desks(rt: HostRuntime) -> Result<(), Fail> {
    four_callers::<Brand, HostRuntime>(&rt, rt.alloc(), Blank::new(256))
}
