//! What an audit of 100,000 calls takes beside the calls themselves. See bench/README.md.
//!
//! One caller writes files of a mount that stores its history, polls after each nine writes, and notes what it was told. Standard output
//! tells what the audit says of its log, and standard error what processor time the calls and the audit took.
#![tactic(auto)]

use anyhow::Result;
use bytes::Bytes;
use eden_accumulate::Mount;
use eden_globs::Filter;
use eden_history::Change;
use eden_ids::{GitNaming, Id, Kind, Path, Sequence};
use eden_messages::{Query, Request};
use eden_objects::Store;
use eden_query::{Served, reply_to};
use eden_shared::{Audited, Call, CallAnswer, CallLog, LogEntry, audit};
use rig_kit::nanoseconds;
use std::alloc::Global;
use std::time::{CpuClock, Duration};

/// How many calls are made.
const CALLS: u64 = 100_000;

/// A mount of the empty commit, whose journal keeps all of it.
fn mounted(alloc: Global) -> Result<Mount<GitNaming>> {
    let store = Store::new(alloc, GitNaming);
    Ok(Mount::mount(alloc, store, Id::ZERO, 1, 1_000_000_000)?)
}

/// The same mount, which stores its history.
fn opened(alloc: Global) -> Result<Audited<GitNaming>> {
    let mount = mounted(alloc)?;
    Ok(Audited::new(alloc, mount)?)
}

/// The write of one of 1,000 files.
fn write(alloc: Global, turn: u64) -> Result<Change> {
    let file = turn % 1_000;
    let text = format!(in alloc; "dir{}/file{file}", file / 100)?;
    Ok(Change::Write {
        path: Path::parse(alloc, text.as_bytes())?,
        kind: Kind::Plain,
        bytes: Bytes::new(),
    })
}

/// A poll since nine numbers before the present one.
fn poll(alloc: Global, audited: &Audited<GitNaming>, turn: u64) -> Request {
    let mut since = audited.mount().position();
    since.sequence = since.sequence.saturating_sub(9);
    Request::Poll {
        query: Query {
            mirror: 1,
            life: 1,
            number: turn,
        },
        since,
        filter: Filter::all(alloc),
    }
}

/// Makes a change, and gives it with its answer.
fn change(
    alloc: Global,
    audited: &mut Audited<GitNaming>,
    turn: u64,
) -> Result<(Call, CallAnswer)> {
    let change = write(alloc, turn)?;
    let answer = audited.apply(1, &change)?;
    Ok((Call::Change(change), CallAnswer::from(answer)))
}

/// Asks, and gives what was asked with its answer.
fn ask(alloc: Global, audited: &mut Audited<GitNaming>, turn: u64) -> Result<(Call, CallAnswer)> {
    let request = poll(alloc, audited, turn);
    let reply = reply_to(audited, 1, &request)?;
    Ok((Call::Ask(request), CallAnswer::Replied(reply)))
}

/// Makes the call of a turn, and notes it.
fn call(
    alloc: Global,
    audited: &mut Audited<GitNaming>,
    entries: &mut Vec<LogEntry>,
    turn: u64,
) -> Result<()> {
    let (call, answer) = if turn % 10 == 9 {
        ask(alloc, audited, turn)?
    } else {
        change(alloc, audited, turn)?
    };
    Ok(entries.push(LogEntry {
        ticket: turn.saturating_add(1),
        call,
        answer,
    })?)
}

/// Makes all calls, and notes them.
fn call_all(
    alloc: Global,
    audited: &mut Audited<GitNaming>,
    entries: &mut Vec<LogEntry>,
) -> Result<()> {
    for turn in 0..CALLS {
        call(alloc, audited, entries, turn)?;
    }
    Ok(())
}

/// Makes all calls, and gives the log of the one that made them.
fn calls(alloc: Global, audited: &mut Audited<GitNaming>) -> Result<CallLog> {
    let mut entries = Vec::new(alloc);
    call_all(alloc, audited, &mut entries)?;
    Ok(CallLog {
        caller: 1,
        entries: Sequence::from_vec(entries),
    })
}

/// Audits logs, and prints what the audit says, and how long it and the calls since `begun` took.
fn print_audit(
    rt: &HostRuntime,
    audited: &mut Audited<GitNaming>,
    logs: &[CallLog],
    begun: Duration,
) -> Result<()> {
    let start = rt.thread_cpu_time()?;
    let said = audit(rt.alloc(), audited, logs);
    let end = rt.thread_cpu_time()?;
    match said {
        Ok(()) => println!(rt; "audit: Ok")?,
        Err(fault) => println!(rt; "audit: {fault}")?,
    }
    eprintln!(rt;
        "{CALLS} calls: {} ms, audit {} ms",
        nanoseconds(start.saturating_sub(begun)) / 1_000_000,
        nanoseconds(end.saturating_sub(start)) / 1_000_000
    )?;
    Ok(())
}

/// Audits the log of calls that began then.
fn audit_log(
    rt: &HostRuntime,
    audited: &mut Audited<GitNaming>,
    log: CallLog,
    begun: Duration,
) -> Result<()> {
    let logs = vec![in rt.alloc(); log]?;
    print_audit(rt, audited, logs.as_slice(), begun)
}

/// Makes all calls, and judges them.
fn measure(rt: &HostRuntime, audited: &mut Audited<GitNaming>) -> Result<()> {
    let begun = rt.thread_cpu_time()?;
    let log = calls(rt.alloc(), audited)?;
    audit_log(rt, audited, log, begun)
}

fn main(rt: HostRuntime) -> Result<()> {
    let mut audited = opened(rt.alloc())?;
    measure(&rt, &mut audited)
}
