//! Messages and their bytes: each request and each reply as it is spelled, and bodies that are none.

use crate::messages::{
    Asked, EMPTY, Told, frame_of_reply, frame_of_request, position, read_reply, read_request,
    reply_of, request_of,
};
use eden_history::{Change, Mark};
use eden_ids::Kind;
use eden_logs::{Call, CallAnswer};
use eden_messages::{Cause, Reply, Request};
use eden_wire::DecodeFault;
use std::alloc::Global;
use std::test::Fail;
use test_kit::{
    PLACE_BYTES as P, QUERY_BYTES as Q, REPLY_BODIES, REQUEST_BODIES, framed, joined, write,
};

/// What the requests of `REQUEST_BODIES` ask.
const REQUESTS: &[Asked] = &[
    Asked::Basis,
    Asked::Poll(1, EMPTY),
    Asked::Fetch("a"),
    Asked::List("d"),
];

/// What the replies of `REPLY_BODIES` tell, and how long those are.
const REPLIES: &[(Told, usize)] = &[
    (Told::Files(&["a", "a/b"]), 0x4a),
    (
        Told::Changes(&[(Mark::Removed, "a"), (Mark::Root, "b")]),
        0x4e,
    ),
    (Told::Moved(&["d", "e"]), 0x4c),
    (Told::NoFile("a"), 0x42),
    (Told::File("a", Kind::Plain, "hi"), 0x48),
    (Told::File("a", Kind::Exec, "hi"), 0x48),
    (Told::File("a", Kind::Link, "hi"), 0x48),
    (Told::Refused(Cause::TooLarge), 0x23),
    (Told::Below("d", &["d/x"]), 0x4a),
];

fn request(alloc: Global, asked: Asked) -> Result<Request, Fail> {
    request_of(alloc, 1, asked)
}

/// A reply at the first position.
fn reply(alloc: Global, told: Told) -> Result<Reply, Fail> {
    reply_of(alloc, 1, position(1, EMPTY), told)
}

/// Why a body is no request, or no reply.
fn fault_of(alloc: Global, body: &[u8], is_request: bool) -> Option<DecodeFault> {
    if is_request {
        read_request(alloc, body).err()
    } else {
        read_reply(alloc, body).err()
    }
}

/// Whether a request has the frame of a body, which is read as that request, as a copy of it is.
fn is_request_of(alloc: Global, request: &Request, body: &[u8]) -> Result<bool, Fail> {
    Ok(
        frame_of_request(alloc, request)? == framed(alloc, body)?
            && read_request(alloc, body)? == *request
            && request.copy()? == *request,
    )
}

/// The same of what is asked and a body in parts.
fn is_asked_by(alloc: Global, asked: Asked, parts: &[&[u8]]) -> Result<bool, Fail> {
    let body = joined(alloc, parts)?;
    let request = request(alloc, asked)?;
    is_request_of(alloc, &request, body.as_slice())
}

#[test]
fn a_poll_has_its_frame(rt: HostRuntime) -> Result<(), Fail> {
    let alloc = rt.alloc();
    let frame = joined(alloc, &[&[0, 0, 0, 0x3f, 2, 2], &Q, &P, &[0]])?;
    let poll = request(alloc, Asked::Poll(1, EMPTY))?;
    assert_eq!(rt; frame_of_request(alloc, &poll)?, frame);
    Ok(())
}

#[test]
fn each_request_is_spelled_and_read(rt: HostRuntime) -> Result<(), Fail> {
    for (asked, parts) in REQUESTS.iter().zip(&REQUEST_BODIES) {
        assert!(rt; is_asked_by(rt.alloc(), *asked, parts)?);
    }
    Ok(())
}

/// Whether a reply has the frame of a body, which is read as that reply, as a copy of it is.
fn is_reply_of(alloc: Global, reply: &Reply, body: &[u8]) -> Result<bool, Fail> {
    Ok(
        frame_of_reply(alloc, reply)? == framed(alloc, body)?
            && read_reply(alloc, body)? == *reply
            && reply.copy()? == *reply,
    )
}

/// The same of what is told, and a body of a length in parts.
fn is_told_by(alloc: Global, (told, length): (Told, usize), parts: &[&[u8]]) -> Result<bool, Fail> {
    let body = joined(alloc, parts)?;
    let reply = reply(alloc, told)?;
    Ok(body.len() == length && is_reply_of(alloc, &reply, body.as_slice())?)
}

#[test]
fn each_reply_is_spelled_and_read(rt: HostRuntime) -> Result<(), Fail> {
    for (told, parts) in REPLIES.iter().zip(&REPLY_BODIES) {
        assert!(rt; is_told_by(rt.alloc(), *told, parts)?);
    }
    Ok(())
}

/// What further replies tell, how long their bodies are, and those.
const MORE_REPLIES: &[((Told, usize), &[&[u8]])] = &[
    ((Told::Changes(&[]), 0x46), &[&[2, 0x82], &Q, &P, &[0; 8]]),
    (
        (Told::Refused(Cause::Ahead(1)), 0x23),
        &[&[2, 0x84], &Q, &[2, 0, 0, 0, 0, 0, 0, 0, 1]],
    ),
];

#[test]
fn replies_have_their_frames(rt: HostRuntime) -> Result<(), Fail> {
    for (told, parts) in MORE_REPLIES {
        assert!(rt; is_told_by(rt.alloc(), *told, parts)?);
    }
    Ok(())
}

/// The parts of a body, and why it is not read.
type Bad = (&'static [&'static [u8]], DecodeFault);

/// Bodies without a request.
const NO_REQUESTS: &[Bad] = &[
    (&[], DecodeFault::CutShort),
    (&[&[1]], DecodeFault::Version),
    (&[&[2]], DecodeFault::CutShort),
    // A basis of the version before this one.
    (&[&[1, 1], &Q, &[0]], DecodeFault::Version),
    (&[&[2, 5]], DecodeFault::BadTag),
    (&[&[2, 5], &Q], DecodeFault::BadTag),
    // No path, an empty one and one that is too long.
    (&[&[2, 3], &Q, &[0, 1, b'/']], DecodeFault::BadField),
    (&[&[2, 3], &Q, &[0, 0]], DecodeFault::BadField),
    (&[&[2, 3], &Q, &[4, 1]], DecodeFault::BadField),
    // Lists of no path, and without a filter, and with more behind it.
    (&[&[2, 4], &Q, &[0, 1, b'/', 0]], DecodeFault::BadField),
    (&[&[2, 4], &Q, &[0, 1, b'd']], DecodeFault::CutShort),
    (&[&[2, 4], &Q, &[0, 1, b'd', 0, 0]], DecodeFault::Trailing),
    // A reply.
    (&[&[2, 0x82], &Q, &P, &[0; 8]], DecodeFault::BadTag),
    // Too many patterns, and patterns that are empty, too long, bad, and cut short.
    (&[&[2, 2], &Q, &P, &[0x21]], DecodeFault::BadField),
    (&[&[2, 2], &Q, &P, &[1, 0, 0]], DecodeFault::BadField),
    (&[&[2, 2], &Q, &P, &[1, 1, 1]], DecodeFault::BadField),
    (&[&[2, 2], &Q, &P, &[1, 0, 1, b'[']], DecodeFault::BadField),
    (&[&[2, 2], &Q, &P, &[1, 0, 2, b'a']], DecodeFault::CutShort),
];

/// Bodies without a reply.
const NO_REPLIES: &[Bad] = &[
    (&[&[1]], DecodeFault::Version),
    (&[&[2]], DecodeFault::CutShort),
    // Changes of the version before this one, and a tag behind the last.
    (&[&[1, 0x82], &Q, &P, &[0; 4]], DecodeFault::Version),
    (&[&[2, 0x86], &Q], DecodeFault::BadTag),
    // A request.
    (&[&[2, 2], &Q, &P, &[0]], DecodeFault::BadTag),
    // Many paths, two that are turned, and one twice.
    (
        &[&[2, 0x81], &Q, &P, &[0xff, 0xff, 0xff, 0xff]],
        DecodeFault::CutShort,
    ),
    (
        &[&[2, 0x81], &Q, &P, &[0, 0, 0, 2, 0, 1, b'b', 0, 1, b'a']],
        DecodeFault::BadField,
    ),
    (
        &[&[2, 0x81], &Q, &P, &[0, 0, 0, 2, 0, 1, b'a', 0, 1, b'a']],
        DecodeFault::BadField,
    ),
    // A fourth kind, and contents that are too long and cut short.
    (
        &[&[2, 0x83], &Q, &P, &[0, 1, b'a', 4]],
        DecodeFault::BadField,
    ),
    (
        &[&[2, 0x83], &Q, &P, &[0, 1, b'a', 1, 0, 0x80, 0, 1]],
        DecodeFault::BadField,
    ),
    (
        &[&[2, 0x83], &Q, &P, &[0, 1, b'a', 1, 0, 0x80, 0, 0]],
        DecodeFault::CutShort,
    ),
    // A value where there is none, no cause, and a fifth one.
    (
        &[&[2, 0x84], &Q, &[4, 0, 0, 0, 0, 0, 0, 0, 1]],
        DecodeFault::BadField,
    ),
    (&[&[2, 0x84], &Q, &[0]], DecodeFault::BadField),
    (&[&[2, 0x84], &Q, &[5]], DecodeFault::BadField),
    // No mark, a fifth one, and paths that are empty, too long, and none; and many.
    (
        &[&[2, 0x82], &Q, &P, &[0, 0, 0, 1, 0, 0, 1, b'a']],
        DecodeFault::BadField,
    ),
    (
        &[&[2, 0x82], &Q, &P, &[0, 0, 0, 1, 5]],
        DecodeFault::BadField,
    ),
    (
        &[&[2, 0x82], &Q, &P, &[0, 0, 0, 1, 1, 0, 0]],
        DecodeFault::BadField,
    ),
    (
        &[&[2, 0x82], &Q, &P, &[0, 0, 0, 1, 1, 4, 1]],
        DecodeFault::BadField,
    ),
    (
        &[&[2, 0x82], &Q, &P, &[0, 0, 0, 1, 1, 0, 1, b'/']],
        DecodeFault::BadField,
    ),
    (
        &[&[2, 0x82], &Q, &P, &[0xff, 0xff, 0xff, 0xff]],
        DecodeFault::CutShort,
    ),
    // No count of directories, and directories that are turned, and one twice.
    (&[&[2, 0x82], &Q, &P, &[0; 4]], DecodeFault::CutShort),
    (
        &[
            &[2, 0x82],
            &Q,
            &P,
            &[0, 0, 0, 0, 0, 0, 0, 2, 0, 1, b'e', 0, 1, b'd'],
        ],
        DecodeFault::BadField,
    ),
    (
        &[
            &[2, 0x82],
            &Q,
            &P,
            &[0, 0, 0, 0, 0, 0, 0, 2, 0, 1, b'd', 0, 1, b'd'],
        ],
        DecodeFault::BadField,
    ),
    // Paths that are not below the directory: itself, one beside it, and one that only begins as it does; and two that are turned.
    (
        &[&[2, 0x85], &Q, &P, &[0, 1, b'd', 0, 0, 0, 1, 0, 1, b'd']],
        DecodeFault::BadField,
    ),
    (
        &[
            &[2, 0x85],
            &Q,
            &P,
            &[0, 1, b'd', 0, 0, 0, 1, 0, 3, b'e', b'/', b'x'],
        ],
        DecodeFault::BadField,
    ),
    (
        &[
            &[2, 0x85],
            &Q,
            &P,
            &[0, 1, b'd', 0, 0, 0, 1, 0, 3, b'd', b'.', b'x'],
        ],
        DecodeFault::BadField,
    ),
    (
        &[
            &[2, 0x85],
            &Q,
            &P,
            &[
                0, 1, b'd', 0, 0, 0, 2, 0, 3, b'd', b'/', b'y', 0, 3, b'd', b'/', b'x',
            ],
        ],
        DecodeFault::BadField,
    ),
];

/// Changes of `b` and then of `a`, and of `a` twice.
const NOT_ASCENDING: &[Bad] = &[
    (
        &[
            &[2, 0x82],
            &Q,
            &P,
            &[0, 0, 0, 2, 1, 0, 1, b'b', 1, 0, 1, b'a'],
        ],
        DecodeFault::BadField,
    ),
    (
        &[
            &[2, 0x82],
            &Q,
            &P,
            &[0, 0, 0, 2, 1, 0, 1, b'a', 1, 0, 1, b'a'],
        ],
        DecodeFault::BadField,
    ),
];

/// The first of these bodies that is not refused as it should be.
fn first_wrong(alloc: Global, bodies: &[Bad], is_request: bool) -> Result<Option<usize>, Fail> {
    for (row, (parts, fault)) in bodies.iter().enumerate() {
        let body = joined(alloc, parts)?;
        if fault_of(alloc, body.as_slice(), is_request) != Some(*fault) {
            return Ok(Some(row));
        }
    }
    Ok(None)
}

#[test]
fn bodies_without_a_request(rt: HostRuntime) -> Result<(), Fail> {
    let wrong = first_wrong(rt.alloc(), NO_REQUESTS, true)?;
    assert_eq!(rt; wrong, None);
    Ok(())
}

#[test]
fn bodies_without_a_reply(rt: HostRuntime) -> Result<(), Fail> {
    let wrong = first_wrong(rt.alloc(), NO_REPLIES, false)?;
    assert_eq!(rt; wrong, None);
    Ok(())
}

#[test]
fn paths_ascend(rt: HostRuntime) -> Result<(), Fail> {
    let wrong = first_wrong(rt.alloc(), NOT_ASCENDING, false)?;
    assert_eq!(rt; wrong, None);
    Ok(())
}

/// Whether each front of a body in parts is cut short, and a byte behind it is one too many.
fn has_its_length(alloc: Global, parts: &[&[u8]], is_request: bool) -> Result<bool, Fail> {
    let longer = joined(alloc, &[joined(alloc, parts)?.as_slice(), &[0]])?;
    let length = longer.len().saturating_sub(1);
    for n in 0..length {
        if fault_of(alloc, &longer[..n], is_request) != Some(DecodeFault::CutShort) {
            return Ok(false);
        }
    }
    Ok(fault_of(alloc, longer.as_slice(), is_request) == Some(DecodeFault::Trailing))
}

#[test]
fn fronts_are_cut_short(rt: HostRuntime) -> Result<(), Fail> {
    for parts in &REQUEST_BODIES {
        assert!(rt; has_its_length(rt.alloc(), parts, true)?);
    }
    for parts in &REPLY_BODIES {
        assert!(rt; has_its_length(rt.alloc(), parts, false)?);
    }
    Ok(())
}

#[test]
fn a_body_has_16_mebibytes_at_the_most(rt: HostRuntime) -> Result<(), Fail> {
    let alloc = rt.alloc();
    let body = vec![in alloc; 2; 16_777_217]?;
    for is_request in [true, false] {
        let fault = fault_of(alloc, body.as_slice(), is_request);
        assert!(rt; fault == Some(DecodeFault::TooLarge));
    }
    // A poll with two patterns, of which the first has 514 bytes.
    let largest = body.get(1..).unwrap_or(&[]);
    assert!(rt; largest.len() == 16_777_216);
    assert!(rt; fault_of(alloc, largest, true) == Some(DecodeFault::BadField));
    Ok(())
}

#[test]
fn copies_say_the_same(rt: HostRuntime) -> Result<(), Fail> {
    let call = Call::Change(write(rt.alloc(), "a", "")?);
    let copy = call.copy()?;
    if let Call::Change(Change::Write { path, .. }) = &copy {
        assert_eq!(rt; path.as_bytes(), b"a".as_slice());
    } else {
        assert!(rt; false, "another call");
    }
    let answer = CallAnswer::At(position(2, EMPTY));
    assert!(rt; answer.copy()? == answer);
    Ok(())
}
