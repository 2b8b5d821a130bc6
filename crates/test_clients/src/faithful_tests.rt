//! A follower of an audited mount, whose mirror is found faithful or not.

use eden_accumulate::Mount;
use eden_follow::{Follower, VouchFault};
use eden_globs::Filter;
use eden_history::Change;
use eden_ids::{GitNaming, Id, Sequence};
use eden_logs::{AuditFault, Call, CallAnswer, CallLog, LogEntry};
use eden_messages::Request;
use eden_objects::Store;
use eden_query::{Served, reply_to};
use eden_shared::{Audited, FollowFault, follows};
use std::alloc::Global;
use std::process::Abort;
use std::test::Fail;
use test_kit::{path, write};

/// The caller that writes, and the one that asks for the follower.
const WRITER: u64 = 1;

const ASKER: u64 = 2;

/// Returns a mount of the empty commit with a stored history.
fn opened(alloc: Global) -> Result<Audited<GitNaming>, Fail> {
    let store = Store::new(alloc, GitNaming);
    let mount = Mount::mount(alloc, store, Id::ZERO, 7, 1000)?;
    Ok(Audited::new(alloc, mount)?)
}

/// Makes a change as the writer, and returns its log.
fn change(
    alloc: Global,
    audited: &mut Audited<GitNaming>,
    change: Change,
) -> Result<CallLog, Fail> {
    let answer = CallAnswer::from(audited.apply(WRITER, &change)?);
    let entry = LogEntry {
        ticket: audited.entries().len() as u64,
        call: Call::Change(change),
        answer,
    };
    Ok(CallLog {
        caller: WRITER,
        entries: Sequence::from_vec(vec![in alloc; entry]?),
    })
}

/// Asks a request, delivers the reply to the follower, and returns what the asker logs.
fn ask(
    audited: &mut Audited<GitNaming>,
    follower: &mut Follower,
    request: Request,
) -> Result<LogEntry, Fail> {
    let reply = reply_to(audited, ASKER, &request)?;
    let ticket = audited.entries().len() as u64;
    follower.deliver(ticket, &reply)?;
    Ok(LogEntry {
        ticket,
        call: Call::Ask(request),
        answer: CallAnswer::Replied(reply),
    })
}

/// Asks all that the follower has outstanding, twice, and returns the asker's log.
fn follow(
    alloc: Global,
    audited: &mut Audited<GitNaming>,
    follower: &mut Follower,
) -> Result<CallLog, Fail> {
    let mut entries = Vec::new(alloc);
    for _ in 0..2 {
        for request in follower.step()? {
            entries.push(ask(audited, follower, request)?)?;
        }
    }
    let entries = Sequence::from_vec(entries);
    Ok(CallLog {
        caller: ASKER,
        entries,
    })
}

/// Returns whether the mirror holds the mount's file at `a`, and is at its position.
fn is_at_head(
    alloc: Global,
    audited: &Audited<GitNaming>,
    follower: &Follower,
) -> Result<bool, Fail> {
    let (mount, mirror) = (audited.mount(), follower.mirror());
    let at = path(alloc, "a")?;
    let same = match (mirror.get(&at), mount.read(&at)) {
        (Some(content), Ok((kind, bytes))) => {
            content.kind == kind && content.bytes.as_slice() == bytes
        }
        _ => false,
    };
    Ok(same && mirror.position() == Some(mount.position()))
}

/// Writes as the writer, and asks for the follower. Returns the asker's log and the writer's.
fn both_logs(
    alloc: Global,
    audited: &mut Audited<GitNaming>,
    follower: &mut Follower,
) -> Result<Vec<CallLog>, Fail> {
    let written = change(alloc, audited, write(alloc, "a", "1")?)?;
    let asked = follow(alloc, audited, follower)?;
    Ok(vec![in alloc; asked, written]?)
}

/// Checks that another follower of the same id is not vouched for.
///
/// It sent none of the requests in the logs.
fn is_strange(rt: &impl Abort, alloc: Global, audited: &mut Audited<GitNaming>, logs: &[CallLog]) {
    let other = Follower::new(alloc, 3, 1, Filter::all(alloc));
    let strange = FollowFault::Vouch(VouchFault::StrangeRequest);
    assert_eq!(rt; follows(alloc, audited, logs, &other), Err(strange));
}

/// Checks a follower that asks after a write, with all logs and without the writer's.
fn check(
    rt: &impl Abort,
    alloc: Global,
    audited: &mut Audited<GitNaming>,
    follower: &mut Follower,
) -> Result<(), Fail> {
    let logs = both_logs(alloc, audited, follower)?;
    let alone = logs.get(..1).ok_or("no log")?;
    let differ = FollowFault::Audit(AuditFault::CountsDiffer);
    assert_eq!(rt; follows(alloc, audited, alone, follower), Err(differ));
    assert_eq!(rt; follows(alloc, audited, logs.as_slice(), follower), Ok(()));
    assert!(rt; is_at_head(alloc, audited, follower)?);
    is_strange(rt, alloc, audited, logs.as_slice());
    Ok(())
}

/// Checks a follower of every path.
fn is_followed(
    rt: &impl Abort,
    alloc: Global,
    audited: &mut Audited<GitNaming>,
) -> Result<(), Fail> {
    let mut follower = Follower::new(alloc, 3, 1, Filter::all(alloc));
    check(rt, alloc, audited, &mut follower)
}

#[test]
fn faithful_where_logs_agree_and_vouch(rt: HostRuntime) -> Result<(), Fail> {
    let alloc = rt.alloc();
    let mut audited = opened(alloc)?;
    is_followed(&rt, alloc, &mut audited)
}
