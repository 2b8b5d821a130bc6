//! Logs that a test writes, beside a mount that was asked for two files.

use crate::calls::opened;
use bytes::Bytes;
use eden_history::{Change, ChangeFault, Mark};
use eden_ids::{GitNaming, Sequence};
use eden_logs::{Call, CallAnswer};
use eden_objects::{Object, ObjectType, PutFault};
use eden_query::Served;
use eden_shared::{AuditFault, Audited, CallLog, LogEntry, audit};
use std::alloc::Global;
use std::test::Fail;
use test_kit::write;
use test_wire::{Asked, EMPTY, Told, position, reply_of, request_of};

/// What a caller asks of the mount.
#[derive(Clone, Copy)]
pub(crate) enum Asks {
    /// That an empty file is written there.
    Write(&'static str),
    /// That objects of these payloads are imported.
    Import(ObjectType, &'static [&'static str]),
    /// A question by its number.
    Question(u64, Asked),
}

/// What a caller notes as the answer.
#[derive(Clone, Copy)]
pub(crate) enum Notes {
    /// The change led to this number.
    At(u64),
    /// The object at this place of an import was refused.
    Bad(u64, PutFault),
    /// The reply to a question, by its number, at a number of the mount.
    Replied(u64, u64, Told),
    Unanswered,
}

/// What was asked under a ticket, and what is noted of it.
pub(crate) type Entry = (u64, Asks, Notes);

/// A caller, and what it has noted.
pub(crate) type Log<'a> = (u64, &'a [Entry]);

fn objects(
    alloc: Global,
    object_type: ObjectType,
    payloads: &[&str],
) -> Result<Sequence<Object>, Fail> {
    let mut objects = Vec::new(alloc);
    for payload in payloads {
        let payload = Bytes::copy_from_slice(alloc, payload.as_bytes())?;
        objects.push(Object {
            object_type,
            payload,
        })?;
    }
    Ok(Sequence::from_vec(objects))
}

fn call_of(alloc: Global, asks: Asks) -> Result<Call, Fail> {
    Ok(match asks {
        Asks::Write(at) => Call::Change(write(alloc, at, "")?),
        Asks::Import(object_type, payloads) => Call::Change(Change::Import {
            objects: objects(alloc, object_type, payloads)?,
        }),
        Asks::Question(number, asked) => Call::Ask(request_of(alloc, number, asked)?),
    })
}

fn answer_of(alloc: Global, notes: Notes) -> Result<CallAnswer, Fail> {
    Ok(match notes {
        Notes::At(number) => CallAnswer::At(position(number, EMPTY)),
        Notes::Bad(place, fault) => CallAnswer::Refused(ChangeFault::BadObject { place, fault }),
        Notes::Replied(number, sequence, told) => {
            CallAnswer::Replied(reply_of(alloc, number, position(sequence, EMPTY), told)?)
        }
        Notes::Unanswered => CallAnswer::Unanswered,
    })
}

fn entry(alloc: Global, (ticket, asks, notes): Entry) -> Result<LogEntry, Fail> {
    let call = call_of(alloc, asks)?;
    let answer = answer_of(alloc, notes)?;
    Ok(LogEntry {
        ticket,
        call,
        answer,
    })
}

fn log_of(alloc: Global, caller: u64, noted: &[Entry]) -> Result<CallLog, Fail> {
    let mut entries = Vec::new(alloc);
    for noted in noted {
        entries.push(entry(alloc, *noted)?)?;
    }
    let entries = Sequence::from_vec(entries);
    Ok(CallLog { caller, entries })
}

/// The logs of these callers.
fn logs_of(alloc: Global, noted: &[Log<'_>]) -> Result<Vec<CallLog>, Fail> {
    let mut logs = Vec::new(alloc);
    for (caller, noted) in noted {
        logs.push(log_of(alloc, *caller, noted)?)?;
    }
    Ok(logs)
}

/// Makes a call.
fn take(audited: &mut Audited<GitNaming>, caller: u64, call: &Call) -> Result<(), Fail> {
    match call {
        Call::Change(change) => {
            let _ = audited.apply(caller, change)?;
        }
        Call::Ask(request) => {
            let _ = audited.hold(caller, request)?;
        }
    }
    Ok(())
}

/// Makes the calls of these callers.
pub(crate) fn take_all(
    alloc: Global,
    audited: &mut Audited<GitNaming>,
    calls: &[(u64, Asks)],
) -> Result<(), Fail> {
    for (caller, asks) in calls {
        let call = call_of(alloc, *asks)?;
        take(audited, *caller, &call)?;
    }
    Ok(())
}

/// Returns a mount of the empty commit that was asked nothing yet.
pub(crate) fn audited(alloc: Global) -> Result<Audited<GitNaming>, Fail> {
    let mount = opened(alloc)?;
    Ok(Audited::new(alloc, mount)?)
}

/// Returns what an audit of these logs says.
pub(crate) fn verdict(
    alloc: Global,
    audited: &mut Audited<GitNaming>,
    noted: &[Log<'_>],
) -> Result<Result<(), AuditFault>, Fail> {
    let logs = logs_of(alloc, noted)?;
    Ok(audit(alloc, audited, logs.as_slice()))
}

/// Returns what an audit says once these callers have asked this, and that was noted.
fn verdict_after(
    alloc: Global,
    audited: &mut Audited<GitNaming>,
    calls: &[(u64, Asks)],
    noted: &[Log<'_>],
) -> Result<Result<(), AuditFault>, Fail> {
    take_all(alloc, audited, calls)?;
    verdict(alloc, audited, noted)
}

/// The same in a mount of the empty commit.
fn said(
    alloc: Global,
    calls: &[(u64, Asks)],
    noted: &[Log<'_>],
) -> Result<Result<(), AuditFault>, Fail> {
    let mut audited = audited(alloc)?;
    verdict_after(alloc, &mut audited, calls, noted)
}

/// What was asked by whom, what was noted, and what the audit says.
type Audit = (
    &'static [(u64, Asks)],
    &'static [Log<'static>],
    Result<(), AuditFault>,
);

/// Caller 1 has written `a`, and caller 2 `b`.
const WRITTEN: &[(u64, Asks)] = &[(1, Asks::Write("a")), (2, Asks::Write("b"))];

/// What caller 1 notes of that, and what caller 2 does.
const FIRST: Entry = (1, Asks::Write("a"), Notes::At(2));

const SECOND: Log<'static> = (2, &[(2, Asks::Write("b"), Notes::At(3))]);

const WRONG: Result<(), AuditFault> = Err(AuditFault::WrongReply);

const UNKNOWN: Result<(), AuditFault> = Err(AuditFault::UnknownCall);

/// The last four: an entry twice in a log, a log that is handed in twice, one that is left out, and nothing at all.
const AUDITS: &[Audit] = &[
    (WRITTEN, &[(1, &[FIRST]), SECOND], Ok(())),
    (
        WRITTEN,
        &[(1, &[(3, Asks::Write("a"), Notes::At(2))]), SECOND],
        UNKNOWN,
    ),
    (
        WRITTEN,
        &[(1, &[(1, Asks::Write("a"), Notes::At(4))]), SECOND],
        WRONG,
    ),
    (
        WRITTEN,
        &[(1, &[FIRST, FIRST])],
        Err(AuditFault::OutOfOrder),
    ),
    (
        WRITTEN,
        &[(1, &[FIRST]), (1, &[FIRST])],
        Err(AuditFault::Twice),
    ),
    (WRITTEN, &[SECOND], Err(AuditFault::CountsDiffer)),
    (&[], &[], Ok(())),
];

#[test]
fn audit_faults(rt: HostRuntime) -> Result<(), Fail> {
    for (number, (calls, noted, wanted)) in AUDITS.iter().enumerate() {
        assert!(rt; said(rt.alloc(), calls, noted)? == *wanted, "row {number}");
    }
    Ok(())
}

/// What changed since the mount, as the first question.
const CHANGED: Asks = Asks::Question(1, Asked::Poll(1, EMPTY));

/// Both have written, and then caller 1 has asked that.
const ASKED: &[(u64, Asks)] = &[(1, Asks::Write("a")), (2, Asks::Write("b")), (1, CHANGED)];

const BOTH: Told = Told::Changes(&[(Mark::Created, "a"), (Mark::Created, "b")]);

const NONE: Told = Told::Changes(&[]);

/// The reply of then, that of the opening, and none.
const REPLIES: &[Audit] = &[
    (
        ASKED,
        &[
            (1, &[FIRST, (3, CHANGED, Notes::Replied(1, 3, BOTH))]),
            SECOND,
        ],
        Ok(()),
    ),
    (
        ASKED,
        &[
            (1, &[FIRST, (3, CHANGED, Notes::Replied(1, 1, NONE))]),
            SECOND,
        ],
        WRONG,
    ),
    (
        ASKED,
        &[(1, &[FIRST, (3, CHANGED, Notes::Unanswered)]), SECOND],
        Ok(()),
    ),
];

#[test]
fn reply_of_another_state(rt: HostRuntime) -> Result<(), Fail> {
    for (number, (calls, noted, wanted)) in REPLIES.iter().enumerate() {
        assert!(rt; said(rt.alloc(), calls, noted)? == *wanted, "row {number}");
    }
    Ok(())
}

/// An import of an empty tree and of a text that is none, which is refused.
const BAD: Asks = Asks::Import(ObjectType::Tree, &["", "x"]);

const RIGHT: Notes = Notes::Bad(1, PutFault::CutShort);

const X_Y: Asks = Asks::Import(ObjectType::Blob, &["x", "y"]);

/// Caller 1 has imported the files `x` and `y`, and then a tree that is none.
const IMPORTED: &[(u64, Asks)] = &[(1, X_Y), (1, BAD)];

/// Imports of other files: another one, the two in another order, one less, and one more.
const X_Z: Asks = Asks::Import(ObjectType::Blob, &["x", "z"]);

const Y_X: Asks = Asks::Import(ObjectType::Blob, &["y", "x"]);

const X: Asks = Asks::Import(ObjectType::Blob, &["x"]);

const X_Y_Y: Asks = Asks::Import(ObjectType::Blob, &["x", "y", "y"]);

/// The first import as it is noted, the number to which its answer leads, the second answer, and what is said of both.
type TwoCalls = (Asks, u64, Notes, Result<(), AuditFault>);

// An import takes no number.
const OF_TWO_CALLS: &[TwoCalls] = &[
    (X_Y, 1, RIGHT, Ok(())),
    (X_Y, 2, RIGHT, WRONG),
    (X_Y, 1, Notes::Bad(0, PutFault::CutShort), WRONG),
    (X_Y, 1, Notes::Bad(1, PutFault::BadMode), WRONG),
    (X_Y, 1, Notes::Unanswered, Ok(())),
    (X_Y, 1, Notes::At(1), WRONG),
    (X_Z, 1, RIGHT, UNKNOWN),
    (Y_X, 1, RIGHT, UNKNOWN),
    (X, 1, RIGHT, UNKNOWN),
    (X_Y_Y, 1, RIGHT, UNKNOWN),
];

#[test]
fn imports_are_audited(rt: HostRuntime) -> Result<(), Fail> {
    for (number, (first, led_to, second, wanted)) in OF_TWO_CALLS.iter().enumerate() {
        let noted = [(1, *first, Notes::At(*led_to)), (2, BAD, *second)];
        let said = said(rt.alloc(), IMPORTED, &[(1, &noted)])?;
        assert!(rt; said == *wanted, "row {number}");
    }
    Ok(())
}
