//! Files that are asked for without their bytes: each question and each reply by its bytes, and bodies that are none.

use crate::messages::{EMPTY, Told, frame_of_reply, position, reply_of};
use eden_history::Position;
use eden_ids::{GitNaming, Id, Kind};
use eden_messages::{Cause, Query};
use eden_wire::{
    Asked, Command, DecodeFault, Question, Stat, StatIs, Wants, append_asked, append_stat,
    append_wanted, decode_command, decode_question, decode_request, decode_stat,
};
use std::alloc::Global;
use std::test::Fail;
use test_kit::{PLACE_BYTES as P, QUERY_BYTES as Q, framed, joined, path};

/// The query of `QUERY_BYTES`.
const QUERY: Query = Query {
    mirror: 1,
    life: 1,
    number: 1,
};

/// The id of a file without bytes, by `git hash-object`.
const OF_NONE: [u8; 20] = [
    0xe6, 0x9d, 0xe2, 0x9b, 0xb2, 0xd1, 0xd6, 0x43, 0x4b, 0x8b, 0x29, 0xae, 0x77, 0x5a, 0xd8, 0xc2,
    0xe4, 0x8c, 0x53, 0x91,
];

/// That of a file with the bytes `hi` and a newline.
const OF_HI: [u8; 20] = [
    0x45, 0xb9, 0x83, 0xbe, 0x36, 0xb7, 0x3c, 0x07, 0x88, 0xdc, 0x9c, 0xbc, 0xb7, 0x6c, 0xbb, 0x80,
    0xfc, 0x7b, 0xb0, 0x57,
];

/// A file at `a`, and how its kind, its length and its id are spelled; or none.
const FILES: &[(Told, &[&[u8]], Option<Stat>)] = &[
    (Told::NoFile("a"), &[&[0]], None),
    (
        Told::File("a", Kind::Plain, ""),
        &[&[1, 1, 0, 0, 0, 0], &OF_NONE],
        Some(Stat {
            kind: Kind::Plain,
            length: 0,
            id: Id(OF_NONE),
        }),
    ),
    (
        Told::File("a", Kind::Exec, "hi\n"),
        &[&[1, 2, 0, 0, 0, 3], &OF_HI],
        Some(Stat {
            kind: Kind::Exec,
            length: 3,
            id: Id(OF_HI),
        }),
    ),
    (
        Told::File("a", Kind::Link, "hi\n"),
        &[&[1, 3, 0, 0, 0, 3], &OF_HI],
        Some(Stat {
            kind: Kind::Link,
            length: 3,
            id: Id(OF_HI),
        }),
    ),
];

/// Returns the question what is at `a` without its bytes.
fn stat_of_a(alloc: Global, patience: u32) -> Result<Asked, Fail> {
    let path = path(alloc, "a")?;
    let question = Question::Stat { query: QUERY, path };
    Ok(Asked { patience, question })
}

/// Whether this is written as a body in parts, and read as that.
fn is_spelled_as(alloc: Global, asked: Asked, parts: &[&[u8]]) -> Result<bool, Fail> {
    let body = joined(alloc, parts)?;
    let mut text = Vec::new(alloc);
    append_asked(&mut text, &asked)?;
    let written = text == framed(alloc, body.as_slice())?;
    Ok(written && decode_command(alloc, body.as_slice())? == Command::Ask(asked))
}

#[test]
fn a_stat_has_the_fields_of_a_fetch(rt: HostRuntime) -> Result<(), Fail> {
    let alloc = rt.alloc();
    let alone: &[&[u8]] = &[&[2, 8], &Q, &[0, 1, b'a']];
    assert!(rt; is_spelled_as(alloc, stat_of_a(alloc, 0)?, alone)?);
    let patient: &[&[u8]] = &[&[2, 5, 0, 0, 0x27, 0x10, 2, 8], &Q, &[0, 1, b'a']];
    assert!(rt; is_spelled_as(alloc, stat_of_a(alloc, 10_000)?, patient)?);
    let body = joined(alloc, alone)?;
    assert!(rt; decode_question(alloc, body.as_slice())? == stat_of_a(alloc, 0)?.question);
    assert!(rt; decode_request(alloc, body.as_slice()).err() == Some(DecodeFault::BadTag));
    Ok(())
}

/// The parts of bodies that are no question, and the first fault of each.
const NO_QUESTIONS: &[(&[&[u8]], DecodeFault)] = &[
    (&[], DecodeFault::CutShort),
    (&[&[1, 8]], DecodeFault::Version),
    (&[&[2, 8]], DecodeFault::CutShort),
    (&[&[2, 8], &Q], DecodeFault::CutShort),
    (&[&[2, 8], &Q, &[0, 0]], DecodeFault::BadField),
    (&[&[2, 8], &Q, &[0, 1, b'/']], DecodeFault::BadField),
    (&[&[2, 8], &Q, &[0, 1, b'a', 0]], DecodeFault::Trailing),
    // After exclusions comes a filter. A patience and a change are no question.
    (
        &[&[2, 7, 1, 0, 1, b'b', 2, 8], &Q, &[0, 1, b'a']],
        DecodeFault::BadTag,
    ),
    (
        &[&[2, 5, 0, 0, 0, 1, 2, 8], &Q, &[0, 1, b'a']],
        DecodeFault::BadTag,
    ),
    (&[&[2, 6], &Q, &[6]], DecodeFault::BadTag),
    (&[&[2, 0x88], &Q, &P, &[0, 1, b'a', 0]], DecodeFault::BadTag),
];

#[test]
fn bodies_that_are_no_question(rt: HostRuntime) -> Result<(), Fail> {
    let alloc = rt.alloc();
    for (parts, fault) in NO_QUESTIONS {
        let body = joined(alloc, parts)?;
        assert!(rt; decode_question(alloc, body.as_slice()).err() == Some(*fault));
    }
    Ok(())
}

/// The first position of generation 7, over the empty commit.
const FIRST: Position = Position {
    generation: 7,
    sequence: 1,
    root: EMPTY,
};

/// Returns the reply that this is at `a` without its bytes.
fn stat_is(alloc: Global, stat: Option<Stat>) -> Result<StatIs, Fail> {
    Ok(StatIs {
        query: QUERY,
        position: FIRST,
        path: path(alloc, "a")?,
        stat,
    })
}

/// Whether the reply to a fetch is said as these fields and read as that, if its bytes are not wanted.
fn is_said_as(
    alloc: Global,
    told: Told,
    fields: &[&[u8]],
    stat: Option<Stat>,
) -> Result<bool, Fail> {
    let fields = joined(alloc, fields)?;
    let body = joined(
        alloc,
        &[&[2, 0x88], &Q, &P, &[0, 1, b'a'], fields.as_slice()],
    )?;
    let mut text = joined(alloc, &[b"abc"])?;
    let reply = reply_of(alloc, 1, FIRST, told)?;
    if reply.body_len().is_none() {
        return Ok(false);
    }
    append_wanted(&mut text, &GitNaming, Wants::Stat, reply)?;
    let frame = framed(alloc, body.as_slice())?;
    let written = text == joined(alloc, &[b"abc", frame.as_slice()])?;
    Ok(written && decode_stat(alloc, body.as_slice())? == stat_is(alloc, stat)?)
}

#[test]
fn a_content_is_said_without_its_bytes(rt: HostRuntime) -> Result<(), Fail> {
    let alloc = rt.alloc();
    for (told, fields, stat) in FILES {
        assert!(rt; is_said_as(alloc, *told, fields, *stat)?);
    }
    Ok(())
}

#[test]
fn a_reply_to_a_stat_has_its_frame(rt: HostRuntime) -> Result<(), Fail> {
    let alloc = rt.alloc();
    let mut text = Vec::new(alloc);
    append_stat(&mut text, &stat_is(alloc, None)?)?;
    let parts: &[&[u8]] = &[&[0, 0, 0, 0x42, 2, 0x88], &Q, &P, &[0, 1, b'a', 0]];
    assert_eq!(rt; text, joined(alloc, parts)?);
    Ok(())
}

/// Whether a reply is said as it is.
fn is_said_whole(alloc: Global, wants: Wants, told: Told) -> Result<bool, Fail> {
    let reply = reply_of(alloc, 1, position(1, EMPTY), told)?;
    let frame = frame_of_reply(alloc, &reply)?;
    if reply.body_len().is_none() {
        return Ok(false);
    }
    let mut text = Vec::new(alloc);
    append_wanted(&mut text, &GitNaming, wants, reply)?;
    Ok(text == frame)
}

#[test]
fn other_replies_are_said_whole(rt: HostRuntime) -> Result<(), Fail> {
    let alloc = rt.alloc();
    assert!(rt; is_said_whole(alloc, Wants::Stat, Told::Refused(Cause::TooLarge))?);
    assert!(rt; is_said_whole(alloc, Wants::Whole, Told::File("a", Kind::Plain, "hi\n"))?);
    Ok(())
}

/// The parts of bodies that are no reply to a Stat, and the first fault of each.
const NO_STATS: &[(&[&[u8]], DecodeFault)] = &[
    (&[&[1, 0x88]], DecodeFault::Version),
    (&[&[2, 0x88], &Q], DecodeFault::CutShort),
    (&[&[2, 0x88], &Q, &P, &[0, 1, b'a']], DecodeFault::CutShort),
    (
        &[&[2, 0x88], &Q, &P, &[0, 1, b'a', 2]],
        DecodeFault::BadField,
    ),
    (
        &[&[2, 0x88], &Q, &P, &[0, 1, b'a', 1, 0]],
        DecodeFault::BadField,
    ),
    (
        &[&[2, 0x88], &Q, &P, &[0, 1, b'a', 1, 4]],
        DecodeFault::BadField,
    ),
    (
        &[
            &[2, 0x88],
            &Q,
            &P,
            &[0, 1, b'a', 1, 1, 0, 0, 0, 3],
            &[0; 19],
        ],
        DecodeFault::CutShort,
    ),
    (
        &[
            &[2, 0x88],
            &Q,
            &P,
            &[0, 1, b'a', 1, 1, 0, 0, 0, 3],
            &[0; 21],
        ],
        DecodeFault::Trailing,
    ),
    // The reply to a fetch, and a refusal.
    (&[&[2, 0x83], &Q, &P, &[0, 1, b'a', 0]], DecodeFault::BadTag),
    (&[&[2, 0x84], &Q, &[4], &[0; 8]], DecodeFault::BadTag),
];

#[test]
fn bodies_that_are_no_reply_to_a_stat(rt: HostRuntime) -> Result<(), Fail> {
    let alloc = rt.alloc();
    for (parts, fault) in NO_STATS {
        let body = joined(alloc, parts)?;
        assert!(rt; decode_stat(alloc, body.as_slice()).err() == Some(*fault));
    }
    Ok(())
}
