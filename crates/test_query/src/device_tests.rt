//! Frames that are served over devices that fail.

use crate::calls::opened;
use crate::serving_tests::{KNOWN, poll, refusal};
use eden_query::{ServeFault, serve};
use eden_stream::Counted;
use std::alloc::Global;
use std::test::Fail;
use test_devices::{Exchange, Sink, Source};
use test_kit::joined;

/// Whether a reader that fails at this place leaves the replies to the frames before it.
fn is_served_before(
    alloc: Global,
    frames: &Exchange,
    place: usize,
    most: usize,
) -> Result<bool, Fail> {
    let mut sink = Sink::new(alloc);
    let ended = served(alloc, frames.source_to(place, most), &mut sink)?;
    Ok(ended == Err(ServeFault::Read) && sink.bytes.as_slice() == frames.text_before(place))
}

/// Whether a writer that fails behind so many bytes has the first bytes of the replies.
fn is_written_to(
    alloc: Global,
    frames: &Exchange,
    place: usize,
    most: usize,
) -> Result<bool, Fail> {
    let mut sink = Sink::new(alloc);
    sink.full_at = place;
    sink.most = most;
    let ended = served(alloc, Source::new(frames.stream.as_slice()), &mut sink)?;
    Ok(ended == Err(ServeFault::Write) && Some(sink.bytes.as_slice()) == frames.text.get(..place))
}

/// Adds so many polls since the second number, which is ahead of the first one.
fn add_ahead(alloc: Global, frames: &mut Exchange, polls: usize) -> Result<(), Fail> {
    let (ahead, refused) = (poll(alloc, 7, 2)?, refusal(alloc, 2, 1)?);
    for _ in 0..polls {
        frames.add(&[ahead.as_slice()], refused.as_slice())?;
    }
    Ok(())
}

/// Adds a poll that is refused, and a frame of each kind.
fn add_each_kind(alloc: Global, frames: &mut Exchange) -> Result<(), Fail> {
    add_ahead(alloc, frames, 1)?;
    for (frame, reply) in KNOWN {
        let (frame, reply) = (joined(alloc, frame)?, joined(alloc, reply)?);
        frames.add(&[frame.as_slice()], reply.as_slice())?;
    }
    Ok(())
}

/// Whether all of these frames are served.
fn are_served(alloc: Global, frames: &Exchange) -> Result<bool, Fail> {
    let mut sink = Sink::new(alloc);
    let ended = served(alloc, Source::new(frames.stream.as_slice()), &mut sink)?;
    Ok(ended == Ok(frames.count()) && sink.bytes == frames.text)
}

/// How a mount of the empty commit serves what a source gives.
fn served(
    alloc: Global,
    source: Source<'_>,
    sink: &mut Sink,
) -> Result<Result<u64, ServeFault>, Fail> {
    let mut mount = opened(alloc)?;
    let mut source = source;
    let mut reader = Counted::new(&mut source);
    let mut writer = Counted::new(sink);
    Ok(serve(alloc, &mut reader, &mut writer, &mut mount))
}

/// Returns what goes wrong first, and at which byte: all the frames are served, or a reader or a writer fails at each of its bytes.
fn first_wrong(
    alloc: Global,
    frames: &mut Exchange,
) -> Result<Option<(&'static str, usize)>, Fail> {
    add_each_kind(alloc, frames)?;
    if frames.count() != 8 || !are_served(alloc, frames)? {
        return Ok(Some(("all", 0)));
    }
    for most in [usize::MAX, 1, 3] {
        for place in 0..=frames.stream.len() {
            if !is_served_before(alloc, frames, place, most)? {
                return Ok(Some(("read to", place)));
            }
        }
        for place in 0..frames.text.len() {
            if !is_written_to(alloc, frames, place, most)? {
                return Ok(Some(("write to", place)));
            }
        }
    }
    Ok(None)
}

#[test]
fn devices_that_fail_at_each_byte(rt: HostRuntime) -> Result<(), Fail> {
    let mut frames = Exchange::new(rt.alloc());
    assert_eq!(rt; first_wrong(rt.alloc(), &mut frames)?, None);
    Ok(())
}

/// Where a reader fails in a stream of polls that are refused, and how many of the 39 bytes of each reply are written.
const BROKEN: &[(usize, usize)] = &[(20, 0), (67, 39), (87, 39), (134, 78)];

/// Returns the first place of the table that leaves other replies, or 10 where a writer that fails there does.
fn first_wrong_break(alloc: Global, frames: &mut Exchange) -> Result<Option<usize>, Fail> {
    add_ahead(alloc, frames, 2)?;
    for (fails_at, written) in BROKEN {
        let is_right = is_served_before(alloc, frames, *fails_at, usize::MAX)?;
        if !is_right || frames.text_before(*fails_at).len() != *written {
            return Ok(Some(*fails_at));
        }
    }
    let is_right = is_written_to(alloc, frames, 10, usize::MAX)?;
    Ok(if is_right { None } else { Some(10) })
}

// Within the first frame, at its end, within the second, and at the end of that.
#[test]
fn polls_that_break_off(rt: HostRuntime) -> Result<(), Fail> {
    let mut frames = Exchange::new(rt.alloc());
    assert_eq!(rt; first_wrong_break(rt.alloc(), &mut frames)?, None);
    Ok(())
}
