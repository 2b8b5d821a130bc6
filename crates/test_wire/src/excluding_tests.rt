//! Requests whose filter excludes patterns: their bytes, and bodies that are none, each with its first fault.

use crate::messages::{Asked, EMPTY, frame_of_request, read_reply, read_request, request_of};
use eden_globs::Filter;
use eden_messages::Request;
use eden_wire::{DecodeFault, Question, append_asked, decode_asked};
use std::alloc::Global;
use std::test::Fail;
use test_kit::{PLACE_BYTES as P, QUERY_BYTES as Q, framed, joined};

/// The bytes of ten seconds, as they come before a request.
const TEN_SECONDS: &[u8] = &[2, 5, 0, 0, 0x27, 0x10];

/// The bytes of what is excluded, as they come before a request: `.git/**`.
const NO_GIT: &[u8] = &[2, 7, 1, 0, 7, b'.', b'g', b'i', b't', b'/', b'*', b'*'];

/// What is asked, the patterns that are included and excluded, and the parts of the body.
const EXCLUDING: &[(Asked, &[&[u8]], &[&[u8]], &[&[u8]])] = &[
    (
        Asked::Basis,
        &[],
        &[b".git/**"],
        &[NO_GIT, &[2, 1], &Q, &[0]],
    ),
    (
        Asked::Poll(1, EMPTY),
        &[b"a*"],
        &[b".git/**"],
        &[NO_GIT, &[2, 2], &Q, &P, &[1, 0, 2, b'a', b'*']],
    ),
    (
        Asked::List("d"),
        &[],
        &[b"d/?", b"b"],
        &[
            &[2, 7, 2, 0, 3, b'd', b'/', b'?', 0, 1, b'b', 2, 4],
            &Q,
            &[0, 1, b'd', 0],
        ],
    ),
];

/// The request with this filter in place of its own. A Fetch has none.
fn with_filter(request: Request, filter: Filter) -> Request {
    match request {
        Request::Basis { query, .. } => Request::Basis { query, filter },
        Request::Poll { query, since, .. } => Request::Poll {
            query,
            since,
            filter,
        },
        Request::List { query, prefix, .. } => Request::List {
            query,
            prefix,
            filter,
        },
        Request::Fetch { query, path } => Request::Fetch { query, path },
    }
}

/// What is asked of the paths that some patterns include and others do not exclude.
fn excluding(
    alloc: Global,
    asked: Asked,
    included: &[&[u8]],
    excluded: &[&[u8]],
) -> Result<Request, Fail> {
    let excluded = Filter::parse(alloc, excluded)?;
    let filter = Filter::parse(alloc, included)?.except(&excluded)?;
    Ok(with_filter(request_of(alloc, 1, asked)?, filter))
}

/// Whether a request is read from a body in parts, and written as that.
fn is_spelled_as(alloc: Global, request: &Request, parts: &[&[u8]]) -> Result<bool, Fail> {
    let body = joined(alloc, parts)?;
    let frame = framed(alloc, body.as_slice())?;
    Ok(
        read_request(alloc, body.as_slice())? == *request
            && frame_of_request(alloc, request)? == frame,
    )
}

#[test]
fn a_poll_that_excludes_has_its_frame(rt: HostRuntime) -> Result<(), Fail> {
    let alloc = rt.alloc();
    let request = excluding(alloc, Asked::Poll(1, EMPTY), &[], &[b".git/**"])?;
    let parts: &[&[u8]] = &[&[0, 0, 0, 0x4b], NO_GIT, &[2, 2], &Q, &P, &[0]];
    assert_eq!(rt; frame_of_request(alloc, &request)?, joined(alloc, parts)?);
    Ok(())
}

#[test]
fn a_patient_poll_that_excludes_has_its_frame(rt: HostRuntime) -> Result<(), Fail> {
    let alloc = rt.alloc();
    let asked = eden_wire::Asked {
        patience: 10_000,
        question: Question::Whole(excluding(alloc, Asked::Poll(1, EMPTY), &[], &[b".git/**"])?),
    };
    let parts: &[&[u8]] = &[&[0, 0, 0, 0x51], TEN_SECONDS, NO_GIT, &[2, 2], &Q, &P, &[0]];
    let frame = joined(alloc, parts)?;
    let mut text = Vec::new(alloc);
    append_asked(&mut text, &asked)?;
    assert!(rt; text == frame);
    let body = frame.as_slice().get(4..).unwrap_or(&[]);
    assert!(rt; decode_asked(alloc, body)? == asked);
    Ok(())
}

#[test]
fn exclusions_come_before_their_request(rt: HostRuntime) -> Result<(), Fail> {
    let alloc = rt.alloc();
    for (asked, included, excluded, parts) in EXCLUDING {
        let request = excluding(alloc, *asked, included, excluded)?;
        assert!(rt; is_spelled_as(alloc, &request, parts)?);
    }
    Ok(())
}

#[test]
fn what_is_excluded_is_not_included(rt: HostRuntime) -> Result<(), Fail> {
    let alloc = rt.alloc();
    let body = joined(alloc, &[NO_GIT, &[2, 1], &Q, &[1, 0, 2, b'*', b'*']])?;
    let Request::Basis { filter, .. } = read_request(alloc, body.as_slice())? else {
        return Err("a Basis is read as another request".into());
    };
    let git = test_kit::path(alloc, ".git/HEAD")?;
    let other = test_kit::path(alloc, "a/.git")?;
    assert!(rt; !filter.admits(&git) && filter.admits(&other));
    Ok(())
}

/// The parts of bodies that begin with the tag of exclusions and are no request, and the first fault of each.
const NO_REQUEST: &[(&[&[u8]], DecodeFault)] = &[
    // Exclusions that are cut short, with no pattern, with 33, and with one that is empty, too long or invalid.
    (&[&[2, 7]], DecodeFault::CutShort),
    (&[&[2, 7, 1]], DecodeFault::CutShort),
    (&[&[2, 7, 1, 0]], DecodeFault::CutShort),
    (&[&[2, 7, 1, 0, 3, b'a', b'b']], DecodeFault::CutShort),
    (&[&[2, 7, 0, 2, 1], &Q, &[0]], DecodeFault::BadField),
    (&[&[2, 7, 0]], DecodeFault::BadField),
    (&[&[2, 7, 33]], DecodeFault::BadField),
    (&[&[2, 7, 1, 0, 0]], DecodeFault::BadField),
    (&[&[2, 7, 1, 1, 1]], DecodeFault::BadField),
    (&[&[2, 7, 1, 0, 1, b'[']], DecodeFault::BadField),
    // A pattern is judged when the last one is there.
    (&[&[2, 7, 2, 0, 1, b'[', 0]], DecodeFault::CutShort),
    // No request after them, one of another version, and what is no request with a filter.
    (&[NO_GIT], DecodeFault::CutShort),
    (&[NO_GIT, &[2]], DecodeFault::CutShort),
    (&[NO_GIT, &[1]], DecodeFault::Version),
    (&[NO_GIT, &[1, 1], &Q, &[0]], DecodeFault::Version),
    (&[NO_GIT, &[2, 0]], DecodeFault::BadTag),
    (&[NO_GIT, &[2, 3], &Q, &[0, 1, b'a']], DecodeFault::BadTag),
    (
        &[NO_GIT, TEN_SECONDS, &[2, 1], &Q, &[0]],
        DecodeFault::BadTag,
    ),
    (&[NO_GIT, &[2, 6]], DecodeFault::BadTag),
    (&[NO_GIT, NO_GIT, &[2, 1], &Q, &[0]], DecodeFault::BadTag),
    (&[NO_GIT, &[2, 8]], DecodeFault::BadTag),
    (&[NO_GIT, &[2, 0x81], &Q, &P, &[0; 4]], DecodeFault::BadTag),
    // A Basis without a filter, with a bad one, and with more after it.
    (&[NO_GIT, &[2, 1], &Q], DecodeFault::CutShort),
    (&[NO_GIT, &[2, 1], &Q, &[33]], DecodeFault::BadField),
    (&[NO_GIT, &[2, 1], &Q, &[0, 0]], DecodeFault::Trailing),
];

/// Whether a body is refused for this fault, also after a patience.
fn is_refused(alloc: Global, parts: &[&[u8]], fault: DecodeFault) -> Result<bool, Fail> {
    let body = joined(alloc, parts)?;
    let patient = joined(alloc, &[TEN_SECONDS, body.as_slice()])?;
    Ok(
        read_request(alloc, body.as_slice()).err() == Some(fault)
            && decode_asked(alloc, body.as_slice()).err() == Some(fault)
            && decode_asked(alloc, patient.as_slice()).err() == Some(fault),
    )
}

/// Returns the first of these bodies that is not refused as it should be.
fn first_wrong(alloc: Global) -> Result<Option<usize>, Fail> {
    for (row, (parts, fault)) in NO_REQUEST.iter().enumerate() {
        if !is_refused(alloc, parts, *fault)? {
            return Ok(Some(row));
        }
    }
    Ok(None)
}

#[test]
fn exclusions_without_their_request(rt: HostRuntime) -> Result<(), Fail> {
    assert_eq!(rt; first_wrong(rt.alloc())?, None);
    Ok(())
}

#[test]
fn no_reply_excludes(rt: HostRuntime) -> Result<(), Fail> {
    let alloc = rt.alloc();
    let body = joined(alloc, &[NO_GIT, &[2, 0x81], &Q, &P, &[0; 4]])?;
    assert!(rt; read_reply(alloc, body.as_slice()).err() == Some(DecodeFault::BadTag));
    Ok(())
}

#[test]
fn exclusions_count_for_the_limit(rt: HostRuntime) -> Result<(), Fail> {
    let alloc = rt.alloc();
    let zeros = vec![in alloc; 0; 16_777_203]?;
    let longer = joined(alloc, &[NO_GIT, &[2, 1], zeros.as_slice()])?;
    assert!(rt; read_request(alloc, longer.as_slice()).err() == Some(DecodeFault::TooLarge));
    // A Basis of all other paths, and zeros after it.
    let largest = longer.get(..16_777_216).unwrap_or(&[]);
    assert!(rt; read_request(alloc, largest).err() == Some(DecodeFault::Trailing));
    Ok(())
}
