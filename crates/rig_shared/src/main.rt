//! What writers wait where others poll: two writers and two pollers of one mount make their calls one after another, and then each in a
//! thread of its own. See bench/README.md.
//!
//! Standard output tells how many paths the replies list and what an audit says of the calls, and standard error what time these took by the
//! clock.
#![tactic(auto)]

ghost use Rattle.std.specs.Prelude.{◌≡◌};

use anyhow::Result;
use bytes::Bytes;
use eden_accumulate::Mount;
use eden_globs::Filter;
use eden_history::{Change, Mode, Position};
use eden_ids::{GitNaming, Id, Kind, Path};
use eden_logs::{Call, CallAnswer};
use eden_messages::{Query, Reply, Request};
use eden_objects::Store;
use eden_shared::{AuditFault, Audited, CallLog, Desk, OpenGate, Pass, Shared, audit};
use rig_kit::{nanoseconds, put_commit};
use std::alloc::Global;
use std::marker::Brand;
use std::sync::Wait;
use std::sync::ledger::{Blank, Ledger};
use std::thread;
use std::thread::Threads;
use std::time::{Clock, Duration, Instant};

/// How often each writer writes, and how many files in turn.
const WRITES: u64 = 1_000;

const WRITTEN: u64 = 50;

/// How often each poller polls.
const POLLS: u64 = 10;

/// How many microseconds a writer waits behind each write, where it does.
const PAUSE: u64 = 200;

/// A mount that stores its history, behind a lock.
type AuditedMount<L> = Shared<GitNaming, Audited<GitNaming>, L>;

/// How the callers make their calls.
#[derive(Clone, Copy)]
enum Manner {
    /// One after another.
    Alone,
    /// Each in a thread of its own.
    Together,
    /// The same, and the writers wait behind each write.
    Paced,
}

impl Manner {
    /// What it is called.
    fn name(self) -> &'static str {
        match self {
            Manner::Alone => "alone",
            Manner::Together => "together",
            Manner::Paced => "paced",
        }
    }

    /// How long a writer waits behind each write.
    fn pause(self) -> Option<Duration> {
        match self {
            Manner::Alone | Manner::Together => None,
            Manner::Paced => Some(Duration::from_micros(PAUSE)),
        }
    }
}

/// What one caller owns: its desk, and the calls that it is to make.
#[derive(Drop)]
struct Caller<L: Ledger> {
    name: &'static str,
    desk: Desk<L>,
    calls: Vec<Call>,
    pause: Option<Duration>,
}

/// How many nanoseconds each call of one caller took.
#[derive(Drop)]
struct Times {
    name: &'static str,
    each: Vec<u64>,
}

/// What one caller hands back.
#[derive(Drop)]
struct Done<L: Ledger> {
    pass: Pass<L>,
    log: CallLog,
    times: Times,
}

/// What came of all calls: what each took and all together, how many there were, how many paths the replies list, and what an audit says.
#[derive(Drop)]
struct Measured {
    times: Vec<Times>,
    whole: Duration,
    calls: usize,
    listed: usize,
    audit: Result<(), AuditFault>,
}

/// A mount that has gone over from one commit to another, and its position before that.
fn mounted(alloc: Global) -> Result<(Mount<GitNaming>, Position)> {
    let mut store = Store::new(alloc, GitNaming);
    let before = put_commit(alloc, &mut store, "before")?;
    let after = put_commit(alloc, &mut store, "after")?;
    let mut mount = Mount::mount(alloc, store, before, 1, 1_000_000_000)?;
    let since = mount.position();
    mount.checkout(after, Mode::Normal)?;
    Ok((mount, since))
}

/// The writes of a writer, which has a directory of its own.
fn writes(alloc: Global, writer: u64) -> Result<Vec<Call>> {
    let mut calls = Vec::new(alloc);
    for turn in 0..WRITES {
        let path = format!(in alloc; "dir{writer:03}/file{:02}", turn % WRITTEN)?;
        let text = format!(in alloc; "write {turn}")?;
        calls.push(Call::Change(Change::Write {
            path: Path::parse(alloc, path.as_bytes())?,
            kind: Kind::Plain,
            bytes: Bytes::from_string(text)?,
        }))?;
    }
    Ok(calls)
}

/// The polls of a poller, each since the same position.
fn polls(alloc: Global, poller: u64, since: Position) -> Result<Vec<Call>> {
    let mut calls = Vec::new(alloc);
    for number in 0..POLLS {
        let query = Query {
            mirror: poller,
            life: 1,
            number,
        };
        calls.push(Call::Ask(Request::Poll {
            query,
            since,
            filter: Filter::all(alloc),
        }))?;
    }
    Ok(calls)
}

/// Two writers and two pollers, each with a desk of its own.
fn callers<L: Ledger>(
    rt: &impl Wait,
    alloc: Global,
    shared: &AuditedMount<L>,
    since: Position,
    pause: Option<Duration>,
) -> Result<Vec<Caller<L>>> {
    let mut callers = Vec::new(alloc);
    for writer in 1..=2_u64 {
        callers.push(Caller {
            name: "a writer",
            desk: Desk::new(alloc, shared.pass(rt)?),
            calls: writes(alloc, writer)?,
            pause,
        })?;
    }
    for poller in 1..=2_u64 {
        callers.push(Caller {
            name: "a poller",
            desk: Desk::new(alloc, shared.pass(rt)?),
            calls: polls(alloc, poller, since)?,
            pause: None,
        })?;
    }
    Ok(callers)
}

/// Makes a call, and gives the time that it took.
fn make<L: Ledger>(
    rt: &(impl Wait + Clock),
    shared: &AuditedMount<L>,
    desk: &mut Desk<L>,
    call: &Call,
) -> Result<Duration> {
    let start = Instant::now(rt)?;
    match call {
        Call::Change(change) => drop(desk.change(rt, shared, change)?),
        Call::Ask(request) => drop(desk.ask(rt, shared, request, &OpenGate)?),
    }
    Ok(start.elapsed(rt)?)
}

/// Makes the calls of one caller.
fn make_all<L: Ledger>(
    rt: &(impl Wait + Clock),
    alloc: Global,
    shared: &AuditedMount<L>,
    caller: Caller<L>,
) -> Result<Done<L>> {
    let Caller {
        name,
        mut desk,
        calls,
        pause,
    } = caller;
    let mut each = Vec::new(alloc);
    for call in &calls {
        each.push(nanoseconds(make(rt, shared, &mut desk, call)?))?;
        if let Some(pause) = pause {
            thread::sleep(rt, pause);
        }
    }
    let (pass, log) = desk.finish();
    let times = Times { name, each };
    Ok(Done { pass, log, times })
}

/// Makes the calls of one caller after those of another.
fn make_in_turn<L: Ledger>(
    rt: &(impl Wait + Clock),
    alloc: Global,
    shared: &AuditedMount<L>,
    callers: Vec<Caller<L>>,
) -> Result<Vec<Done<L>>> {
    let mut done = Vec::new(alloc);
    for caller in callers {
        done.push(make_all(rt, alloc, shared, caller)?)?;
    }
    Ok(done)
}

/// Makes the calls of each caller in a thread of its own.
fn make_in_threads<L: Ledger + Send + Sync, R: Threads + Wait + Clock + Sync>(
    rt: &R,
    alloc: Global,
    shared: &AuditedMount<L>,
    callers: Vec<Caller<L>>,
) -> Result<Vec<Done<L>>> {
    let ended = thread::map_vec(rt, callers, &|caller| make_all(rt, alloc, shared, caller))?;
    let mut done = Vec::new(alloc);
    for caller in ended {
        done.push(caller?)?;
    }
    Ok(done)
}

/// How many paths the replies of a log list.
fn listed(log: &CallLog) -> usize {
    let mut paths = 0_usize;
    for entry in log.entries.as_slice() {
        if let CallAnswer::Replied(Reply::ChangesAre { marked, .. }) = &entry.answer {
            paths = paths.saturating_add(marked.len());
        }
    }
    paths
}

/// Hands all passes back, and has the logs audited.
fn finish<L: Ledger>(
    alloc: Global,
    shared: AuditedMount<L>,
    done: Vec<Done<L>>,
    whole: Duration,
) -> Result<Measured> {
    let (mut passes, mut logs, mut times) = (Vec::new(alloc), Vec::new(alloc), Vec::new(alloc));
    let mut paths = 0_usize;
    for caller in done {
        paths = paths.saturating_add(listed(&caller.log));
        passes.push(caller.pass)?;
        logs.push(caller.log)?;
        times.push(caller.times)?;
    }
    let mut audited = shared.finish(passes)?;
    Ok(Measured {
        times,
        whole,
        calls: audited.entries().len(),
        listed: paths,
        audit: audit(alloc, &mut audited, logs.as_slice()),
    })
}

/// Has all calls made over a mount, in this manner.
fn measure<L: Ledger + Send + Sync, R: Threads + Wait + Clock + Sync>(
    rt: &R,
    alloc: Global,
    mount: Mount<GitNaming>,
    since: Position,
    manner: Manner,
    blank: Blank,
) -> Result<Measured>
    requires name { blank.name ≡ L.name }
    requires parts { blank.parts ≡ L.parts }
    requires whole { blank.parts ≡ 256 }
{
    let shared = AuditedMount::<L>::new(Audited::new(alloc, mount)?, blank);
    let callers = callers(rt, alloc, &shared, since, manner.pause())?;
    let start = Instant::now(rt)?;
    let done = match manner {
        Manner::Alone => make_in_turn(rt, alloc, &shared, callers)?,
        Manner::Together | Manner::Paced => make_in_threads(rt, alloc, &shared, callers)?,
    };
    finish(alloc, shared, done, start.elapsed(rt)?)
}

/// Tells what the calls of one caller took.
fn tell_times(rt: &HostRuntime, manner: &str, times: &Times) -> Result<()> {
    let each = times.each.as_slice();
    let all = each
        .iter()
        .fold(0_u64, |sum, time| sum.saturating_add(*time));
    let mean = all.checked_div(each.len() as u64).unwrap_or(0);
    let longest = each.iter().copied().max().unwrap_or(0);
    let most = mean.saturating_mul(10);
    let above = each.iter().filter(|time| **time > most).count();
    eprintln!(rt;
        "{manner}, {}: {}.{} us a call, the longest {} us, {} times as long; {above} of {} above 10 times",
        times.name,
        mean / 1_000,
        mean % 1_000 / 100,
        longest / 1_000,
        longest.checked_div(mean).unwrap_or(0),
        each.len()
    )?;
    Ok(())
}

/// Prints what came of all calls.
fn print_measured(rt: &HostRuntime, manner: &str, measured: &Measured) -> Result<()> {
    let (calls, listed) = (measured.calls, measured.listed);
    match &measured.audit {
        Ok(()) => println!(rt; "{manner}: {calls} calls, {listed} paths, audit ok")?,
        Err(fault) => println!(rt; "{manner}: {calls} calls, {listed} paths, audit {fault}")?,
    }
    let whole = nanoseconds(measured.whole) / 1_000_000;
    let rate = (calls as u64).saturating_mul(1_000).checked_div(whole);
    eprintln!(rt;
        "{manner}: {calls} calls in {whole} ms, {} a second",
        rate.unwrap_or(0)
    )?;
    for times in &measured.times {
        tell_times(rt, manner, times)?;
    }
    Ok(())
}

fn main(rt: HostRuntime) -> Result<()> {
    let alloc = rt.alloc();
    let (mut mount, since) = mounted(alloc)?;
    for manner in [Manner::Alone, Manner::Together, Manner::Paced] {
        let copy = mount.copy()?;
        let blank = Blank::new(256);
        let measured = measure::<Brand, HostRuntime>(&rt, alloc, copy, since, manner, blank)?;
        print_measured(&rt, manner.name(), &measured)?;
    }
    Ok(())
}
