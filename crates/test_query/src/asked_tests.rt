//! What a stored history keeps of a stream of frames that was served.

use crate::audit_tests::{Asks, Entry, Log, Notes, audited, take_all, verdict};
use crate::calls::{Held, hold, served};
use eden_globs::Filter;
use eden_history::Mark;
use eden_ids::{GitNaming, Kind};
use eden_query::{answer, append_reply};
use eden_shared::{AuditFault, Audited, CallOutcome};
use std::alloc::Global;
use std::test::Fail;
use test_wire::{
    Asked, EMPTY, Told, frame_of_reply, frame_of_request, position, reply_of, request_of,
};

/// What changed since the mount and since the write, and the file: the number of a question, what it asks, and what is right.
const QUESTIONS: &[(u64, Asked, Told)] = &[
    (1, SINCE_MOUNT, CREATED),
    (2, SINCE_WRITE, UNCHANGED),
    (3, FETCH, FILE),
];

const SINCE_MOUNT: Asked = Asked::Poll(1, EMPTY);

const SINCE_WRITE: Asked = Asked::Poll(2, EMPTY);

const FETCH: Asked = Asked::Fetch("a");

const CREATED: Told = Told::Changes(&[(Mark::Created, "a")]);

const UNCHANGED: Told = Told::Changes(&[]);

const FILE: Told = Told::File("a", Kind::Plain, "");

/// What caller 2 has written before, and notes of that.
const WRITTEN: &[(u64, Asks)] = &[(2, Asks::Write("a"))];

const WRITER: Log<'static> = (2, &[(1, Asks::Write("a"), Notes::At(2))]);

/// What a caller notes of the stream.
const STREAM: &[Entry] = &[
    (
        2,
        Asks::Question(1, SINCE_MOUNT),
        Notes::Replied(1, 2, CREATED),
    ),
    (
        3,
        Asks::Question(2, SINCE_WRITE),
        Notes::Replied(2, 2, UNCHANGED),
    ),
    (4, Asks::Question(3, FETCH), Notes::Replied(3, 2, FILE)),
];

/// Returns the frames of the questions.
fn requests(alloc: Global) -> Result<Vec<u8>, Fail> {
    let mut frames = Vec::new(alloc);
    for (number, asked, _) in QUESTIONS {
        let request = request_of(alloc, *number, *asked)?;
        frames.extend_from_slice(frame_of_request(alloc, &request)?.as_slice())?;
    }
    Ok(frames)
}

/// Returns the frames of the right replies.
fn replies(alloc: Global) -> Result<Vec<u8>, Fail> {
    let mut frames = Vec::new(alloc);
    for (number, _, told) in QUESTIONS {
        let reply = reply_of(alloc, *number, position(2, EMPTY), *told)?;
        frames.extend_from_slice(frame_of_reply(alloc, &reply)?.as_slice())?;
    }
    Ok(frames)
}

/// Returns whether a mount serves the questions by the right replies.
fn is_served(alloc: Global, audited: &mut Audited<GitNaming>) -> Result<bool, Fail> {
    let (requests, replies) = (requests(alloc)?, replies(alloc)?);
    let (text, ended) = served(alloc, requests.as_slice(), audited);
    Ok(ended == Ok(3) && text == replies)
}

/// Returns the caller, the ticket and the outcome of each entry of the stored history.
fn kept(alloc: Global, audited: &Audited<GitNaming>) -> Result<Vec<(u64, u64, CallOutcome)>, Fail> {
    let mut kept = Vec::new(alloc);
    for entry in audited.entries() {
        kept.push((entry.caller, entry.ticket, entry.outcome))?;
    }
    Ok(kept)
}

/// Returns whether the frames are stored as caller 0's, and an audit accepts them as its calls and as no other caller's.
fn are_of_caller_0(alloc: Global, audited: &mut Audited<GitNaming>) -> Result<bool, Fail> {
    take_all(alloc, audited, WRITTEN)?;
    let at = CallOutcome::At(position(2, EMPTY));
    let wanted = [(2, 1, at), (0, 2, at), (0, 3, at), (0, 4, at)];
    if !is_served(alloc, audited)? || kept(alloc, audited)?.as_slice() != wanted.as_slice() {
        return Ok(false);
    }
    let own = verdict(alloc, audited, &[WRITER, (0, STREAM)])?;
    let others = verdict(alloc, audited, &[WRITER, (1, STREAM)])?;
    Ok(own == Ok(()) && others == Err(AuditFault::UnknownCall))
}

/// The same in a mount of the empty commit.
fn frames_are_of_caller_0(alloc: Global) -> Result<bool, Fail> {
    let mut audited = audited(alloc)?;
    are_of_caller_0(alloc, &mut audited)
}

#[test]
fn frames_are_asked_as_caller_0(rt: HostRuntime) -> Result<(), Fail> {
    assert!(rt; frames_are_of_caller_0(rt.alloc())?);
    Ok(())
}

/// Adds the reply's frame for what was held.
fn add_answer(alloc: Global, held: &Held, text: &mut Vec<u8>) -> Result<(), Fail> {
    let reply = answer(alloc, &held.0, &held.1, &Filter::all(alloc))?;
    append_reply(text, &reply)?;
    Ok(())
}

/// Asks a question, and adds the reply's frame to a text.
fn append(
    alloc: Global,
    audited: &mut Audited<GitNaming>,
    number: u64,
    asked: Asked,
    text: &mut Vec<u8>,
) -> Result<(), Fail> {
    let held = hold(alloc, audited, number, asked)?;
    add_answer(alloc, &held, text)
}

/// Returns whether the frames of the right replies are appended to a text.
fn are_appended(alloc: Global, audited: &mut Audited<GitNaming>) -> Result<bool, Fail> {
    take_all(alloc, audited, WRITTEN)?;
    let mut text = Vec::new(alloc);
    for (number, asked, _) in QUESTIONS {
        append(alloc, audited, *number, *asked, &mut text)?;
    }
    Ok(text == replies(alloc)?)
}

/// The same in a mount of the empty commit.
fn replies_are_appended(alloc: Global) -> Result<bool, Fail> {
    let mut audited = audited(alloc)?;
    are_appended(alloc, &mut audited)
}

#[test]
fn replies_are_appended_to_a_text(rt: HostRuntime) -> Result<(), Fail> {
    assert!(rt; replies_are_appended(rt.alloc())?);
    Ok(())
}
