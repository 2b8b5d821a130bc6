//! Questions for the attributes of files and for a status: each and its reply by its bytes, and bodies that are none.

use crate::messages::EMPTY;
use eden_globs::Filter;
use eden_history::{Described, Mark, Marked, Position};
use eden_ids::{Id, Kind, Path, Sequence};
use eden_messages::Query;
use eden_wire::{
    Asked, AttributesAre, Command, DecodeFault, Question, Stat, StatusIs, append_asked,
    append_attributes, append_status, decode_attributes, decode_command, decode_question,
    decode_status,
};
use std::alloc::Global;
use std::test::Fail;
use test_kit::{PLACE_BYTES as P, QUERY_BYTES as Q, framed, joined, path};

/// The query of `QUERY_BYTES`.
const QUERY: Query = Query {
    mirror: 1,
    life: 1,
    number: 1,
};

/// The first position of generation 7, over the empty commit.
const FIRST: Position = Position {
    generation: 7,
    sequence: 1,
    root: EMPTY,
};

/// The id of a file that holds `hi`, by `git hash-object`.
const OF_HI: [u8; 20] = [
    0x32, 0xf9, 0x5c, 0x0d, 0x12, 0x44, 0xa7, 0x8b, 0x2b, 0xe1, 0xba, 0xb8, 0xde, 0x17, 0x90, 0x6f,
    0xab, 0xb2, 0xc4, 0xa8,
];

/// What is excluded, as it comes before a question: `b`.
const NO_B: &[u8] = &[2, 7, 1, 0, 1, b'b'];

/// A question: its patience, whether it is for a status, its prefix, its patterns and those that are excluded.
type Wanted = (
    u32,
    bool,
    Option<&'static str>,
    &'static [&'static [u8]],
    &'static [&'static [u8]],
);

/// Returns the question.
fn question_of(alloc: Global, wanted: Wanted) -> Result<Asked, Fail> {
    let (patience, is_status, prefix, included, excluded) = wanted;
    let filter = Filter::parse(alloc, included)?.except(&Filter::parse(alloc, excluded)?)?;
    let prefix = match prefix {
        None => None,
        Some(prefix) => Some(path(alloc, prefix)?),
    };
    let query = QUERY;
    let question = if is_status {
        Question::Status { query, filter }
    } else {
        Question::Attributes {
            query,
            prefix,
            filter,
        }
    };
    Ok(Asked { patience, question })
}

/// Questions, and the parts of their bodies.
const QUESTIONS: &[(Wanted, &[&[u8]])] = &[
    ((0, false, None, &[], &[]), &[&[2, 9], &Q, &[0, 0]]),
    (
        (0, false, Some("d"), &[b"a*"], &[]),
        &[&[2, 9], &Q, &[1, 0, 1, b'd', 1, 0, 2, b'a', b'*']],
    ),
    (
        (0, false, Some("d"), &[], &[b"b"]),
        &[NO_B, &[2, 9], &Q, &[1, 0, 1, b'd', 0]],
    ),
    (
        (1, false, None, &[], &[b"b"]),
        &[&[2, 5, 0, 0, 0, 1], NO_B, &[2, 9], &Q, &[0, 0]],
    ),
    ((0, true, None, &[], &[]), &[&[2, 10], &Q, &[0]]),
    (
        (1, true, None, &[b"a*"], &[b"b"]),
        &[
            &[2, 5, 0, 0, 0, 1],
            NO_B,
            &[2, 10],
            &Q,
            &[1, 0, 2, b'a', b'*'],
        ],
    ),
];

/// Whether this is written as a body in parts, and read as that.
fn is_spelled_as(alloc: Global, wanted: Wanted, parts: &[&[u8]]) -> Result<bool, Fail> {
    let asked = question_of(alloc, wanted)?;
    let body = joined(alloc, parts)?;
    let mut text = Vec::new(alloc);
    append_asked(&mut text, &asked)?;
    let written = text == framed(alloc, body.as_slice())?;
    Ok(written && decode_command(alloc, body.as_slice())? == Command::Ask(asked))
}

#[test]
fn questions_have_these_bytes(rt: HostRuntime) -> Result<(), Fail> {
    let alloc = rt.alloc();
    for (wanted, parts) in QUESTIONS {
        assert!(rt; is_spelled_as(alloc, *wanted, parts)?);
    }
    Ok(())
}

/// The parts of bodies that are no question, and the first fault of each.
const NO_QUESTIONS: &[(&[&[u8]], DecodeFault)] = &[
    (&[&[2, 9], &Q], DecodeFault::CutShort),
    (&[&[2, 9], &Q, &[2]], DecodeFault::BadField),
    (&[&[2, 9], &Q, &[1, 0, 0]], DecodeFault::BadField),
    (&[&[2, 9], &Q, &[1, 0, 1, b'd']], DecodeFault::CutShort),
    (&[&[2, 9], &Q, &[0, 0, 0]], DecodeFault::Trailing),
    (&[&[2, 10], &Q, &[33]], DecodeFault::BadField),
    (&[&[2, 10], &Q, &[0, 0]], DecodeFault::Trailing),
    (&[&[2, 7, 0, 2, 9], &Q, &[0, 0]], DecodeFault::BadField),
    (&[NO_B, &[1, 9], &Q, &[0, 0]], DecodeFault::Version),
    (&[NO_B, &[2, 9], &Q, &[2]], DecodeFault::BadField),
    (&[NO_B, NO_B, &[2, 9], &Q, &[0, 0]], DecodeFault::BadTag),
    (&[&[2, 11], &Q, &[0]], DecodeFault::BadTag),
];

#[test]
fn bodies_that_are_no_question(rt: HostRuntime) -> Result<(), Fail> {
    let alloc = rt.alloc();
    for (parts, fault) in NO_QUESTIONS {
        let body = joined(alloc, parts)?;
        assert!(rt; decode_question(alloc, body.as_slice()).err() == Some(*fault));
    }
    Ok(())
}

/// Returns the reply that these paths, if any, hold plain files with `hi`.
fn attributes(
    alloc: Global,
    prefix: Option<&'static str>,
    paths: &[&'static str],
) -> Result<AttributesAre, Fail> {
    let mut files = Vec::new(alloc);
    for at in paths {
        let stat = Stat {
            kind: Kind::Plain,
            length: 2,
            id: Id(OF_HI),
        };
        let path = path(alloc, at)?;
        files.push(Described { path, stat })?;
    }
    Ok(AttributesAre {
        query: QUERY,
        position: FIRST,
        prefix: match prefix {
            None => None,
            Some(prefix) => Some(path(alloc, prefix)?),
        },
        files: Sequence::from_vec(files),
    })
}

/// A prefix, paths, and the parts of the reply's body.
const ATTRIBUTES: &[(Option<&str>, &[&str], &[&[u8]])] = &[
    (None, &[], &[&[2, 0x89], &Q, &P, &[0, 0, 0, 0, 0]]),
    (
        None,
        &["a", "b"],
        &[
            &[2, 0x89],
            &Q,
            &P,
            &[0, 0, 0, 0, 2, 0, 1, b'a', 1, 0, 0, 0, 2],
            &OF_HI,
            &[0, 1, b'b', 1, 0, 0, 0, 2],
            &OF_HI,
        ],
    ),
    (
        Some("d"),
        &["d/x"],
        &[
            &[2, 0x89],
            &Q,
            &P,
            &[
                1, 0, 1, b'd', 0, 0, 0, 1, 0, 3, b'd', b'/', b'x', 1, 0, 0, 0, 2,
            ],
            &OF_HI,
        ],
    ),
];

#[test]
fn attributes_have_these_bytes(rt: HostRuntime) -> Result<(), Fail> {
    let alloc = rt.alloc();
    for (prefix, paths, parts) in ATTRIBUTES {
        let body = joined(alloc, parts)?;
        let reply = attributes(alloc, *prefix, paths)?;
        let mut text = Vec::new(alloc);
        append_attributes(&mut text, &reply)?;
        assert_eq!(rt; text, framed(alloc, body.as_slice())?);
        assert!(rt; decode_attributes(alloc, body.as_slice())? == reply);
    }
    Ok(())
}

/// The parts of bodies that are no such reply, and the first fault of each.
const NO_ATTRIBUTES: &[(&[&[u8]], DecodeFault)] = &[
    (&[&[2, 0x89], &Q, &P], DecodeFault::CutShort),
    (&[&[2, 0x89], &Q, &P, &[2]], DecodeFault::BadField),
    (
        &[&[2, 0x89], &Q, &P, &[0, 0, 0, 0, 1, 0, 1, b'a', 4]],
        DecodeFault::BadField,
    ),
    (
        &[&[2, 0x89], &Q, &P, &[0, 0, 0, 0, 0, 0]],
        DecodeFault::Trailing,
    ),
    // A path beside the prefix is refused before its file is read.
    (
        &[&[2, 0x89], &Q, &P, &[1, 0, 1, b'd', 0, 0, 0, 1, 0, 1, b'e']],
        DecodeFault::BadField,
    ),
    // The same path twice: the second one, after its file.
    (
        &[
            &[2, 0x89],
            &Q,
            &P,
            &[0, 0, 0, 0, 2, 0, 1, b'a', 1, 0, 0, 0, 2],
            &OF_HI,
            &[0, 1, b'a', 1, 0, 0, 0, 2],
            &OF_HI,
        ],
        DecodeFault::BadField,
    ),
    // A refusal, and a status.
    (&[&[2, 0x84], &Q, &[4], &[0; 8]], DecodeFault::BadTag),
    (&[&[2, 0x8a], &Q, &P, &[0; 4]], DecodeFault::BadTag),
];

#[test]
fn bodies_that_are_no_attributes(rt: HostRuntime) -> Result<(), Fail> {
    let alloc = rt.alloc();
    for (parts, fault) in NO_ATTRIBUTES {
        let body = joined(alloc, parts)?;
        assert!(rt; decode_attributes(alloc, body.as_slice()).err() == Some(*fault));
    }
    Ok(())
}

/// Returns the reply that these paths differ so.
fn status(alloc: Global, paths: &[(Mark, &'static str)]) -> Result<StatusIs, Fail> {
    let mut marked = Vec::new(alloc);
    for (mark, at) in paths {
        let path: Path = path(alloc, at)?;
        marked.push(Marked { mark: *mark, path })?;
    }
    Ok(StatusIs {
        query: QUERY,
        position: FIRST,
        marked: Sequence::from_vec(marked),
    })
}

/// Marked paths, and the parts of the reply's body.
const STATUSES: &[(&[(Mark, &str)], &[&[u8]])] = &[
    (&[], &[&[2, 0x8a], &Q, &P, &[0; 4]]),
    (
        &[
            (Mark::Created, "a"),
            (Mark::Removed, "b"),
            (Mark::Changed, "c"),
        ],
        &[
            &[2, 0x8a],
            &Q,
            &P,
            &[0, 0, 0, 3, 1, 0, 1, b'a', 2, 0, 1, b'b', 3, 0, 1, b'c'],
        ],
    ),
];

#[test]
fn a_status_has_these_bytes(rt: HostRuntime) -> Result<(), Fail> {
    let alloc = rt.alloc();
    for (paths, parts) in STATUSES {
        let body = joined(alloc, parts)?;
        let reply = status(alloc, paths)?;
        let mut text = Vec::new(alloc);
        append_status(&mut text, &reply)?;
        assert_eq!(rt; text, framed(alloc, body.as_slice())?);
        assert!(rt; decode_status(alloc, body.as_slice())? == reply);
    }
    Ok(())
}

/// The parts of bodies that are no such reply, and the first fault of each.
const NO_STATUSES: &[(&[&[u8]], DecodeFault)] = &[
    (&[&[2, 0x8a], &Q, &P], DecodeFault::CutShort),
    (
        &[&[2, 0x8a], &Q, &P, &[0, 0, 0, 1, 5]],
        DecodeFault::BadField,
    ),
    (&[&[2, 0x8a], &Q, &P, &[0; 5]], DecodeFault::Trailing),
    (
        &[
            &[2, 0x8a],
            &Q,
            &P,
            &[0, 0, 0, 2, 1, 0, 1, b'b', 1, 0, 1, b'a'],
        ],
        DecodeFault::BadField,
    ),
    (&[&[2, 0x82], &Q, &P, &[0; 8]], DecodeFault::BadTag),
];

#[test]
fn bodies_that_are_no_status(rt: HostRuntime) -> Result<(), Fail> {
    let alloc = rt.alloc();
    for (parts, fault) in NO_STATUSES {
        let body = joined(alloc, parts)?;
        assert!(rt; decode_status(alloc, body.as_slice()).err() == Some(*fault));
    }
    Ok(())
}
