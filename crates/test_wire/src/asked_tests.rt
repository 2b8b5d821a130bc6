//! What is asked with patience: a request, alone or after its milliseconds, and its body.

use crate::messages::{Asked, EMPTY, request_of};
use eden_wire::{DecodeFault, Question, append_asked, decode_asked};
use std::alloc::Global;
use std::test::Fail;
use test_kit::{PLACE_BYTES as P, QUERY_BYTES as Q, REQUEST_BODIES, framed, joined};

/// The bytes of ten seconds, as they come before a request.
const TEN_SECONDS: &[u8] = &[2, 5, 0, 0, 0x27, 0x10];

/// A request, its patience, and the parts of the body.
const PATIENT: &[(Asked, u32, &[&[u8]])] = &[
    (
        Asked::Poll(1, EMPTY),
        10_000,
        &[TEN_SECONDS, &[2, 2], &Q, &P, &[0]],
    ),
    (Asked::Basis, 1, &[&[2, 5, 0, 0, 0, 1, 2, 1], &Q, &[0]]),
    (
        Asked::Fetch("a"),
        u32::MAX,
        &[&[2, 5, 0xff, 0xff, 0xff, 0xff, 2, 3], &Q, &[0, 1, b'a']],
    ),
    (
        Asked::List("d"),
        0x0100_0000,
        &[&[2, 5, 1, 0, 0, 0, 2, 4], &Q, &[0, 1, b'd', 0]],
    ),
];

/// What the requests of `REQUEST_BODIES` ask.
const ALONE: &[Asked] = &[
    Asked::Basis,
    Asked::Poll(1, EMPTY),
    Asked::Fetch("a"),
    Asked::List("d"),
];

/// What is asked of all paths, for so many milliseconds.
fn asked_of(alloc: Global, asked: Asked, patience: u32) -> Result<eden_wire::Asked, Fail> {
    let question = Question::Whole(request_of(alloc, 1, asked)?);
    Ok(eden_wire::Asked { patience, question })
}

/// Whether a body in parts is read as this.
fn is_read_as(alloc: Global, asked: &eden_wire::Asked, parts: &[&[u8]]) -> Result<bool, Fail> {
    let body = joined(alloc, parts)?;
    Ok(decode_asked(alloc, body.as_slice())? == *asked)
}

/// Whether this is written as a body in parts, after a text.
fn is_written_as(alloc: Global, asked: &eden_wire::Asked, parts: &[&[u8]]) -> Result<bool, Fail> {
    let body = joined(alloc, parts)?;
    let frame = framed(alloc, body.as_slice())?;
    let mut text = joined(alloc, &[b"abc"])?;
    append_asked(&mut text, asked)?;
    Ok(text == joined(alloc, &[b"abc", frame.as_slice()])?)
}

#[test]
fn a_patient_poll_has_its_frame(rt: HostRuntime) -> Result<(), Fail> {
    let alloc = rt.alloc();
    let parts: &[&[u8]] = &[&[0, 0, 0, 0x45], TEN_SECONDS, &[2, 2], &Q, &P, &[0]];
    let mut text = Vec::new(alloc);
    append_asked(&mut text, &asked_of(alloc, Asked::Poll(1, EMPTY), 10_000)?)?;
    assert_eq!(rt; text, joined(alloc, parts)?);
    Ok(())
}

#[test]
fn a_patience_comes_before_its_request(rt: HostRuntime) -> Result<(), Fail> {
    let alloc = rt.alloc();
    for (request, patience, parts) in PATIENT {
        let asked = asked_of(alloc, *request, *patience)?;
        assert!(rt; is_read_as(alloc, &asked, parts)? && is_written_as(alloc, &asked, parts)?);
    }
    Ok(())
}

#[test]
fn a_request_alone_has_no_patience(rt: HostRuntime) -> Result<(), Fail> {
    let alloc = rt.alloc();
    for (request, parts) in ALONE.iter().zip(&REQUEST_BODIES) {
        let asked = asked_of(alloc, *request, 0)?;
        assert!(rt; is_read_as(alloc, &asked, parts)? && is_written_as(alloc, &asked, parts)?);
        // Zero milliseconds may be written out too.
        let body = joined(alloc, parts)?;
        let longer: &[&[u8]] = &[&[2, 5, 0, 0, 0, 0], body.as_slice()];
        assert!(rt; is_read_as(alloc, &asked, longer)?);
    }
    Ok(())
}

/// The parts of bodies that ask nothing, and the first fault of each.
const NOT_ASKED: &[(&[&[u8]], DecodeFault)] = &[
    (&[], DecodeFault::CutShort),
    (&[&[1, 5]], DecodeFault::Version),
    (&[&[2]], DecodeFault::CutShort),
    (&[&[2, 0]], DecodeFault::BadTag),
    (
        &[&[2, 6, 0, 0, 0x27, 0x10, 2, 2], &Q, &P, &[0]],
        DecodeFault::BadTag,
    ),
    // Milliseconds that are cut short, and no request after them.
    (&[&[2, 5]], DecodeFault::CutShort),
    (&[&[2, 5, 0, 0, 0x27]], DecodeFault::CutShort),
    (&[TEN_SECONDS], DecodeFault::CutShort),
    (&[TEN_SECONDS, &[2]], DecodeFault::CutShort),
    // A request of another version, a second patience and a reply.
    (&[TEN_SECONDS, &[1, 2], &Q, &P, &[0]], DecodeFault::Version),
    (
        &[TEN_SECONDS, TEN_SECONDS, &[2, 2], &Q, &P, &[0]],
        DecodeFault::BadTag,
    ),
    (
        &[TEN_SECONDS, &[2, 0x82], &Q, &P, &[0; 8]],
        DecodeFault::BadTag,
    ),
    // A poll without a filter, with a bad one, and with more after it.
    (&[TEN_SECONDS, &[2, 2], &Q, &P], DecodeFault::CutShort),
    (
        &[TEN_SECONDS, &[2, 2], &Q, &P, &[0x21]],
        DecodeFault::BadField,
    ),
    (
        &[TEN_SECONDS, &[2, 2], &Q, &P, &[0, 0]],
        DecodeFault::Trailing,
    ),
];

/// Returns the first of these bodies that is not refused as it should be.
fn first_wrong(alloc: Global) -> Result<Option<usize>, Fail> {
    for (row, (parts, fault)) in NOT_ASKED.iter().enumerate() {
        let body = joined(alloc, parts)?;
        if decode_asked(alloc, body.as_slice()).err() != Some(*fault) {
            return Ok(Some(row));
        }
    }
    Ok(None)
}

#[test]
fn bodies_that_ask_nothing(rt: HostRuntime) -> Result<(), Fail> {
    assert_eq!(rt; first_wrong(rt.alloc())?, None);
    Ok(())
}

#[test]
fn a_patience_counts_for_the_limit(rt: HostRuntime) -> Result<(), Fail> {
    let alloc = rt.alloc();
    let zeros = vec![in alloc; 0; 16_777_209]?;
    let longer = joined(alloc, &[TEN_SECONDS, &[2, 2], zeros.as_slice()])?;
    assert!(rt; decode_asked(alloc, longer.as_slice()).err() == Some(DecodeFault::TooLarge));
    // A poll of all paths, and zeros after it.
    let largest = longer.get(..16_777_216).unwrap_or(&[]);
    assert!(rt; decode_asked(alloc, largest).err() == Some(DecodeFault::Trailing));
    Ok(())
}
