//! Each change of one byte of a body of each message, judged by a plain reader.

use crate::messages::{frame_of_reply, frame_of_request, read_reply, read_request};
use crate::plain::{REPLY_TAGS, REQUEST_TAGS, plain_fault};
use eden_wire::DecodeFault;
use std::alloc::Global;
use std::test::Fail;
use test_kit::{Bodies, REPLY_BODIES, REQUEST_BODIES, framed, joined};

/// The frame of what a body is read as, a request or a reply, or why it is none.
fn spelled_again(
    alloc: Global,
    body: &[u8],
    is_request: bool,
) -> Result<Result<Vec<u8>, DecodeFault>, Fail> {
    Ok(if is_request {
        match read_request(alloc, body) {
            Ok(request) => Ok(frame_of_request(alloc, &request)?),
            Err(fault) => Err(fault),
        }
    } else {
        match read_reply(alloc, body) {
            Ok(reply) => Ok(frame_of_reply(alloc, &reply)?),
            Err(fault) => Err(fault),
        }
    })
}

/// Whether a body is read as the plain reader reads it, as one of these messages, and is spelled again as it was.
pub(crate) fn is_read_plainly(alloc: Global, body: &[u8], is_request: bool) -> Result<bool, Fail> {
    let tags = if is_request {
        REQUEST_TAGS.as_slice()
    } else {
        REPLY_TAGS.as_slice()
    };
    let again = spelled_again(alloc, body, is_request)?;
    Ok(match (again, plain_fault(body, tags)) {
        (Ok(frame), None) => frame.as_slice() == framed(alloc, body)?.as_slice(),
        (Err(fault), Some(plain)) => fault == plain,
        _ => false,
    })
}

/// The first value of the byte at a place with which a body is not read as the plain reader reads it, if there is one.
fn read_otherwise(
    alloc: Global,
    body: &[u8],
    place: usize,
    is_request: bool,
) -> Result<Option<u8>, Fail> {
    let mut changed = body.to_vec(alloc)?;
    for value in 0..=255 {
        if let Some(byte) = changed.get_mut(place) {
            *byte = value;
        }
        if !is_read_plainly(alloc, changed.as_slice(), is_request)? {
            return Ok(Some(value));
        }
    }
    Ok(None)
}

/// The first place of a body in parts at which its front, or another value of the byte there, is not read as the plain reader reads it, with
/// that value; if there is one.
fn first_wrong(
    alloc: Global,
    parts: &[&[u8]],
    is_request: bool,
) -> Result<Option<(usize, Option<u8>)>, Fail> {
    let body = joined(alloc, parts)?;
    for place in 0..body.len() {
        if !is_read_plainly(alloc, &body[..place], is_request)? {
            return Ok(Some((place, None)));
        }
        let value = read_otherwise(alloc, body.as_slice(), place, is_request)?;
        if value.is_some() {
            return Ok(Some((place, value)));
        }
    }
    Ok(None)
}

/// The parts of the bodies of a basis, a poll and a list with two patterns, which are also excluded before each, since those of
/// `REQUEST_BODIES` have none.
const WITH_PATTERNS: &[&[&[u8]]] = &[
    &[&[2, 1], &[0; 24], &PATTERNS],
    &[&[2, 2], &[0; 24], &[7; 36], &PATTERNS],
    &[&[2, 4], &[0; 24], &[0, 1, b'd'], &PATTERNS],
    &[&[2, 7], &PATTERNS, &[2, 1], &[0; 24], &PATTERNS],
    &[&[2, 7], &PATTERNS, &[2, 2], &[0; 24], &[7; 36], &[0]],
    &[&[2, 7], &PATTERNS, &[2, 4], &[0; 24], &[0, 1, b'd', 0]],
];

const PATTERNS: [u8; 12] = [2, 0, 4, b'a', b'/', b'*', b'*', 0, 3, b'b', b'\\', b'['];

#[test]
fn every_byte_of_each_request(rt: HostRuntime) -> Result<(), Fail> {
    for parts in REQUEST_BODIES.iter().chain(WITH_PATTERNS) {
        assert_eq!(rt; first_wrong(rt.alloc(), parts, true)?, None);
    }
    Ok(())
}

#[test]
fn every_byte_of_each_reply(rt: HostRuntime) -> Result<(), Fail> {
    for parts in &REPLY_BODIES {
        assert_eq!(rt; first_wrong(rt.alloc(), parts, false)?, None);
    }
    Ok(())
}

/// Returns the number of the first of ten thousand bodies, drawn by lot, that is not read as the plain reader reads it.
fn first_wrong_body(alloc: Global, bodies: &mut Bodies) -> Result<Option<usize>, Fail> {
    for number in 0..10_000 {
        let body = bodies.body(alloc, 600)?;
        let body = body.as_slice();
        if !is_read_plainly(alloc, body, true)? || !is_read_plainly(alloc, body, false)? {
            return Ok(Some(number));
        }
    }
    Ok(None)
}

#[test]
fn ten_thousand_bodies(rt: HostRuntime) -> Result<(), Fail> {
    let mut bodies = Bodies::new(1);
    assert_eq!(rt; first_wrong_body(rt.alloc(), &mut bodies)?, None);
    Ok(())
}
