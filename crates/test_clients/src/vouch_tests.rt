//! A follower in its second round, and logs that vouch for it or do not.

use eden_follow::{Follower, VouchFault, vouch};
use eden_globs::Filter;
use eden_history::{Mark, Marked, Position};
use eden_ids::{Id, Path, Sequence};
use eden_logs::{Call, CallAnswer, CallLog, LogEntry};
use eden_messages::{Outcome, Query, Reply, Request};
use std::alloc::Global;
use std::process::Abort;
use std::test::Fail;

/// A question of mirror 3.
fn query(life: u64, number: u64) -> Query {
    Query {
        mirror: 3,
        life,
        number,
    }
}

fn position(sequence: u64) -> Position {
    Position {
        generation: 7,
        sequence,
        root: Id::ZERO,
    }
}

/// The question for the content of `p`.
fn fetch(alloc: Global, query: Query) -> Result<Request, Fail> {
    let path = Path::parse(alloc, b"p".as_slice())?;
    Ok(Request::Fetch { query, path })
}

/// No path holds a file at number 1.
fn listed(alloc: Global) -> Reply {
    Reply::BasisIs {
        query: query(1, 1),
        position: position(1),
        paths: Sequence::new(alloc),
    }
}

/// `p` was created up to number 2.
fn changed(alloc: Global) -> Result<Reply, Fail> {
    let path = Path::parse(alloc, b"p".as_slice())?;
    let mark = Mark::Created;
    let marked = Sequence::from_vec(vec![in alloc; Marked { mark, path }]?);
    Ok(Reply::ChangesAre {
        query: query(1, 2),
        target: position(2),
        marked,
        prefixes: Sequence::new(alloc),
    })
}

/// A call under a ticket, and what was told.
fn entry(ticket: u64, request: Request, answer: CallAnswer) -> LogEntry {
    LogEntry {
        ticket,
        call: Call::Ask(request),
        answer,
    }
}

/// The question for the first files, under ticket 1, and the reply.
fn basis_entry(alloc: Global) -> LogEntry {
    let basis = Request::Basis {
        query: query(1, 1),
        filter: Filter::all(alloc),
    };
    entry(1, basis, CallAnswer::Replied(listed(alloc)))
}

/// The question for what changed, under ticket 5, and the reply.
fn poll_entry(alloc: Global) -> Result<LogEntry, Fail> {
    let poll = Request::Poll {
        query: query(1, 2),
        since: position(1),
        filter: Filter::all(alloc),
    };
    Ok(entry(5, poll, CallAnswer::Replied(changed(alloc)?)))
}

/// The log of a service that the follower asked under tickets 1 and 5.
fn asked_log(alloc: Global) -> Result<CallLog, Fail> {
    let mut entries = Vec::new(alloc);
    entries.push(basis_entry(alloc))?;
    entries.push(poll_entry(alloc)?)?;
    let entries = Sequence::from_vec(entries);
    Ok(CallLog { caller: 1, entries })
}

/// The log of another service, which was asked once, and whose reply never came.
fn other_log(alloc: Global, ticket: u64, request: Request) -> Result<CallLog, Fail> {
    let mut entries = Vec::new(alloc);
    entries.push(entry(ticket, request, CallAnswer::Unanswered))?;
    let entries = Sequence::from_vec(entries);
    Ok(CallLog { caller: 2, entries })
}

/// The logs of both services, of which the other one was asked for the content of `p` under a ticket, in a query of this life and number.
fn both_logs(alloc: Global, ticket: u64, life: u64, number: u64) -> Result<Vec<CallLog>, Fail> {
    let request = fetch(alloc, query(life, number))?;
    let mut logs = Vec::new(alloc);
    logs.push(other_log(alloc, ticket, request)?)?;
    logs.push(asked_log(alloc)?)?;
    Ok(logs)
}

fn step(follower: &mut Follower) -> Result<Vec<Request>, Fail> {
    Ok(follower.step()?)
}

fn deliver(follower: &mut Follower, ticket: u64, reply: &Reply) -> Result<Outcome, Fail> {
    Ok(follower.deliver(ticket, reply)?)
}

fn vouched(alloc: Global, logs: &[CallLog], follower: &Follower) -> Result<(), VouchFault> {
    vouch(alloc, logs, follower)
}

/// Whether the next step asks for the first files alone.
fn asks_first_files(follower: &mut Follower) -> Result<bool, Fail> {
    Ok(matches!(step(follower)?.as_slice(), [Request::Basis { .. }]))
}

/// Whether it asks for what changed alone.
fn asks_changes(follower: &mut Follower) -> Result<bool, Fail> {
    Ok(matches!(step(follower)?.as_slice(), [Request::Poll { .. }]))
}

/// Whether just this is asked.
fn is_only(requests: &[Request], wanted: &Request) -> bool {
    matches!(requests, [request] if request == wanted)
}

/// Whether the next step asks for the content of `p` alone.
fn asks_content(alloc: Global, follower: &mut Follower) -> Result<bool, Fail> {
    let wanted = fetch(alloc, query(1, 2))?;
    Ok(is_only(step(follower)?.as_slice(), &wanted))
}

/// What becomes of the reply to the question for the first files.
fn take_files(alloc: Global, follower: &mut Follower) -> Result<Outcome, Fail> {
    deliver(follower, 1, &listed(alloc))
}

/// What becomes of the reply to the question for what changed.
fn take_changes(alloc: Global, follower: &mut Follower) -> Result<Outcome, Fail> {
    deliver(follower, 5, &changed(alloc)?)
}

/// The follower is told of no path, and asks what changed since; then it is told of `p`, and asks for that.
fn take_two_rounds(rt: &impl Abort, alloc: Global, follower: &mut Follower) -> Result<(), Fail> {
    assert!(rt; asks_first_files(follower)?);
    assert_eq!(rt; take_files(alloc, follower)?, Outcome::Placed);
    assert_eq!(rt;
        vouched(alloc, &[], follower),
        Err(VouchFault::StrangeReply)
    );
    assert!(rt; asks_changes(follower)?);
    assert_eq!(rt; take_changes(alloc, follower)?, Outcome::Taken);
    assert!(rt; asks_content(alloc, follower)?);
    assert_eq!(rt; follower.mirror().position(), Some(position(1)));
    Ok(())
}

/// Of a request for the content of `p` that another service took: its ticket, life and number, and whether the logs vouch.
const TAKEN: &[(u64, u64, u64, Result<(), VouchFault>)] = &[
    (4, 1, 2, Err(VouchFault::BeforeCause)),
    (5, 1, 2, Err(VouchFault::BeforeCause)),
    (6, 1, 2, Ok(())),
    // Never sent, and not the follower's.
    (6, 1, 3, Err(VouchFault::StrangeRequest)),
    (4, 2, 2, Ok(())),
];

/// What is said of the follower where another service took a request with this ticket, life and number.
fn judged(
    alloc: Global,
    follower: &Follower,
    taken: (u64, u64, u64),
) -> Result<Result<(), VouchFault>, Fail> {
    let logs = both_logs(alloc, taken.0, taken.1, taken.2)?;
    Ok(vouched(alloc, logs.as_slice(), follower))
}

/// The logs of both services vouch where they should.
fn check_vouching(rt: &impl Abort, alloc: Global, follower: &Follower) -> Result<(), Fail> {
    for (ticket, life, number, said) in TAKEN {
        let told = judged(alloc, follower, (*ticket, *life, *number))?;
        assert_eq!(rt; told, *said, "{ticket}, {life}, {number}");
    }
    Ok(())
}

fn follow_and_check(rt: &impl Abort, alloc: Global, follower: &mut Follower) -> Result<(), Fail> {
    take_two_rounds(rt, alloc, follower)?;
    check_vouching(rt, alloc, follower)
}

#[test]
fn vouch_faults(rt: HostRuntime) -> Result<(), Fail> {
    let alloc = rt.alloc();
    let mut follower = Follower::new(alloc, 3, 1, Filter::all(alloc));
    follow_and_check(&rt, alloc, &mut follower)
}
