//! Frames of requests and what a mount replies, in whatever pieces they come.

use crate::calls::{opened, served};
use bytes::Bytes;
use eden_accumulate::Mount;
use eden_history::Change;
use eden_ids::{GitNaming, Kind, Path};
use eden_query::{FrameFault, ServeFault};
use std::alloc::Global;
use std::test::Fail;
use test_devices::{Endless, Source};
use test_kit::{QUERY_BYTES as Q, joined};

/// What a byte is changed to: the least and the greatest values, the bits, and those around the greatest number of patterns.
const VALUES: [u8; 16] = [
    0, 1, 2, 3, 4, 8, 16, 31, 32, 33, 64, 127, 128, 129, 254, 255,
];

/// A root of the empty commit.
pub(crate) const ROOT: [u8; 20] = [0; 20];

/// The last bytes of the generation 7 and of its first number.
const FIRST: [u8; 16] = [0, 0, 0, 0, 0, 0, 0, 7, 0, 0, 0, 0, 0, 0, 0, 1];

/// Those of its third number.
const THIRD: [u8; 16] = [0, 0, 0, 0, 0, 0, 0, 7, 0, 0, 0, 0, 0, 0, 0, 3];

/// A poll since the first row of generation 7.
pub(crate) const POLL: &[&[u8]] = &[&[0, 0, 0, 0x3f, 2, 2], &Q, &FIRST, &ROOT, &[0]];

/// The reply that tells no change up to that row.
pub(crate) const NO_CHANGES: &[&[u8]] = &[&[0, 0, 0, 0x46, 2, 0x82], &Q, &FIRST, &ROOT, &[0; 8]];

/// A fetch of `a`.
const FETCH: &[&[u8]] = &[&[0, 0, 0, 0x1d, 2, 3], &Q, &[0, 1, b'a']];

/// The reply that there is no file at `a` in that row.
const ABSENT: &[&[u8]] = &[
    &[0, 0, 0, 0x42, 2, 0x83],
    &Q,
    &FIRST,
    &ROOT,
    &[0, 1, b'a', 0],
];

/// A stat of `a`.
const STAT: &[&[u8]] = &[&[0, 0, 0, 0x1d, 2, 8], &Q, &[0, 1, b'a']];

/// The reply that there is no file at `a` in that row.
const NO_STAT: &[&[u8]] = &[
    &[0, 0, 0, 0x42, 2, 0x88],
    &Q,
    &FIRST,
    &ROOT,
    &[0, 1, b'a', 0],
];

/// Attributes of all files.
const ATTRIBUTES: &[&[u8]] = &[&[0, 0, 0, 0x1c, 2, 9], &Q, &[0, 0]];

/// The reply that there are none in that row.
const NO_ATTRIBUTES: &[&[u8]] = &[&[0, 0, 0, 0x43, 2, 0x89], &Q, &FIRST, &ROOT, &[0; 5]];

/// A status of all paths.
const STATUS: &[&[u8]] = &[&[0, 0, 0, 0x1b, 2, 10], &Q, &[0]];

/// The reply that no path differs from the commit in that row.
const CLEAN: &[&[u8]] = &[&[0, 0, 0, 0x42, 2, 0x8a], &Q, &FIRST, &ROOT, &[0; 4]];

/// A basis of all paths.
const BASIS: &[&[u8]] = &[&[0, 0, 0, 0x1b, 2, 1], &Q, &[0]];

/// The reply that no path holds a file in that row.
const NO_PATHS: &[&[u8]] = &[&[0, 0, 0, 0x42, 2, 0x81], &Q, &FIRST, &ROOT, &[0; 4]];

/// A list of what stands below `d`.
const LIST: &[&[u8]] = &[&[0, 0, 0, 0x1e, 2, 4], &Q, &[0, 1, b'd', 0]];

/// The reply that no path below it holds a file in that row.
const NO_LIST: &[&[u8]] = &[
    &[0, 0, 0, 0x45, 2, 0x85],
    &Q,
    &FIRST,
    &ROOT,
    &[0, 1, b'd', 0, 0, 0, 0],
];

/// A poll since a position of these last bytes of its generation and its sequence.
pub(crate) fn poll(alloc: Global, generation: u8, sequence: u8) -> Result<Vec<u8>, Fail> {
    let mut frame = joined(alloc, POLL)?;
    for (place, byte) in [(37, generation), (45, sequence)] {
        if let Some(last) = frame.get_mut(place) {
            *last = byte;
        }
    }
    Ok(frame)
}

/// A refusal for this cause, with a number below 256.
pub(crate) fn refusal(alloc: Global, cause: u8, number: u8) -> Result<Vec<u8>, Fail> {
    let value = [cause, 0, 0, 0, 0, 0, 0, 0, number];
    Ok(joined(alloc, &[&[0, 0, 0, 0x23, 2, 0x84], &Q, &value])?)
}

/// Writes a file.
fn write(
    alloc: Global,
    mount: &mut Mount<GitNaming>,
    at: &[u8],
    kind: Kind,
    text: &[u8],
) -> Result<(), Fail> {
    let change = Change::Write {
        path: Path::parse(alloc, at)?,
        kind,
        bytes: Bytes::copy_from_slice(alloc, text)?,
    };
    let _ = mount.apply(&change)?;
    Ok(())
}

fn stops(number: u64, fault: FrameFault) -> Result<u64, ServeFault> {
    Err(ServeFault::Frame { number, fault })
}

/// Whether a mount writes this text to these bytes, in such pieces, and ends so.
pub(crate) fn is_served(
    alloc: Global,
    mount: &mut Mount<GitNaming>,
    bytes: &[u8],
    pieces: (usize, usize),
    text: &[u8],
    end: Result<u64, ServeFault>,
) -> bool {
    let mut source = Source::new(bytes);
    source.most = pieces.0;
    source.cut = pieces.1;
    let (written, ended) = served(alloc, source, mount);
    written.as_slice() == text && ended == end
}

/// Whether a mount answers these frames by this text and this end, whole, byte by byte, and cut in two at each place.
fn is_answered(
    alloc: Global,
    mount: &mut Mount<GitNaming>,
    frames: &[u8],
    text: &[u8],
    end: Result<u64, ServeFault>,
) -> bool {
    let whole = (usize::MAX, usize::MAX);
    let mut same = is_served(alloc, mount, frames, whole, text, end)
        && is_served(alloc, mount, frames, (1, usize::MAX), text, end);
    for cut in 0..frames.len() {
        same = same && is_served(alloc, mount, frames, (usize::MAX, cut), text, end);
    }
    same
}

/// The same of a mount of the empty commit.
fn answers(
    alloc: Global,
    frames: &[u8],
    text: &[u8],
    end: Result<u64, ServeFault>,
) -> Result<bool, Fail> {
    let mut mount = opened(alloc)?;
    Ok(is_answered(alloc, &mut mount, frames, text, end))
}

/// The same of frames and a text in parts.
fn answers_parts(
    alloc: Global,
    frames: &[&[u8]],
    text: &[&[u8]],
    end: Result<u64, ServeFault>,
) -> Result<bool, Fail> {
    let (frames, text) = (joined(alloc, frames)?, joined(alloc, text)?);
    answers(alloc, frames.as_slice(), text.as_slice(), end)
}

/// Whether a poll since this position is refused for this cause, with this number.
fn is_refused(alloc: Global, generation: u8, sequence: u8, cause: (u8, u8)) -> Result<bool, Fail> {
    let frame = poll(alloc, generation, sequence)?;
    let reply = refusal(alloc, cause.0, cause.1)?;
    answers(alloc, frame.as_slice(), reply.as_slice(), Ok(1))
}

/// Frames and their replies.
pub(crate) const KNOWN: &[(&[&[u8]], &[&[u8]])] = &[
    (FETCH, ABSENT),
    (BASIS, NO_PATHS),
    (POLL, NO_CHANGES),
    (LIST, NO_LIST),
    (STAT, NO_STAT),
    (ATTRIBUTES, NO_ATTRIBUTES),
    (STATUS, CLEAN),
];

#[test]
fn known_frames(rt: HostRuntime) -> Result<(), Fail> {
    let alloc = rt.alloc();
    for (frame, reply) in KNOWN {
        assert!(rt; answers_parts(alloc, frame, reply, Ok(1))?);
    }
    for (generation, sequence, cause) in [(7, 2, (2, 1)), (7, 0, (3, 1)), (8, 9, (1, 7))] {
        assert!(rt; is_refused(alloc, generation, sequence, cause)?);
    }
    Ok(())
}

/// A frame with a byte behind its body that its length counts in.
fn trailing(alloc: Global, frame: &[u8]) -> Result<Vec<u8>, Fail> {
    let mut longer = joined(alloc, &[frame, &[0]])?;
    if let Some(length) = longer.get_mut(3) {
        *length = length.wrapping_add(1);
    }
    Ok(longer)
}

/// Whether a frame is refused with a byte more in its body and behind an empty frame, answered twice where it comes twice, and answered
/// where the next one is cut short.
fn is_framed(alloc: Global, frame: &[u8], reply: &[u8]) -> Result<bool, Fail> {
    let longer = trailing(alloc, frame)?;
    let (short, more) = (FrameFault::CutShort, FrameFault::Trailing);
    Ok(
        answers_parts(alloc, &[longer.as_slice()], &[], stops(1, more))?
            && answers_parts(alloc, &[&[0; 4], frame], &[], stops(1, short))?
            && answers_parts(alloc, &[frame, frame], &[reply, reply], Ok(2))?
            && answers_parts(alloc, &[frame, &[0; 3]], &[reply], stops(2, short))?,
    )
}

/// Returns whether a frame that comes for ever, a byte a read, is answered by N times the same reply, and then its reads are spent.
fn spends(alloc: Global, frame: &[u8], reply: &[u8], replies: usize) -> Result<bool, Fail> {
    let wanted = reply.repeat(alloc, replies)?;
    let mut mount = opened(alloc)?;
    let (written, ended) = served(alloc, Endless::new(frame), &mut mount);
    Ok(ended == Err(ServeFault::TurnsSpent) && written == wanted)
}

/// Bytes that are no frame, and why, or none where there is no byte.
const FAULTS: &[(&[u8], Option<FrameFault>)] = &[
    (&[0, 0, 0, 0], Some(FrameFault::CutShort)),
    (&[1, 0, 0, 1], Some(FrameFault::TooLarge)),
    (&[0, 0, 0], Some(FrameFault::CutShort)),
    (&[], None),
];

#[test]
fn frame_faults(rt: HostRuntime) -> Result<(), Fail> {
    let alloc = rt.alloc();
    for (bytes, fault) in FAULTS {
        let end = fault.map_or(Ok(0), |fault| stops(1, fault));
        assert!(rt; answers(alloc, bytes, &[], end)?, "{bytes:?}");
    }
    for (frame, reply) in [(FETCH, ABSENT), (BASIS, NO_PATHS), (LIST, NO_LIST)] {
        let (frame, reply) = (joined(alloc, frame)?, joined(alloc, reply)?);
        assert!(rt; is_framed(alloc, frame.as_slice(), reply.as_slice())?);
    }
    Ok(())
}

#[test]
fn poll_frames(rt: HostRuntime) -> Result<(), Fail> {
    let alloc = rt.alloc();
    let (frame, reply) = (joined(alloc, POLL)?, joined(alloc, NO_CHANGES)?);
    assert!(rt; frame.starts_with(&[0, 0, 0, 0x3f]) && reply.len() == 74);
    assert!(rt; trailing(alloc, frame.as_slice())?.starts_with(&[0, 0, 0, 0x40]));
    assert!(rt; is_framed(alloc, frame.as_slice(), reply.as_slice())?);
    assert!(rt; spends(alloc, frame.as_slice(), reply.as_slice(), 14_925)?);
    Ok(())
}

/// The first front of a frame, by its length, that a mount does not refuse as one that is cut short.
fn first_answered(alloc: Global, mount: &mut Mount<GitNaming>, frame: &[u8]) -> Option<usize> {
    let (whole, end) = ((usize::MAX, usize::MAX), stops(1, FrameFault::CutShort));
    for left in 1..frame.len() {
        if !is_served(alloc, mount, &frame[..left], whole, &[], end) {
            return Some(left);
        }
    }
    None
}

/// The same of a mount of the empty commit, and of a frame in parts.
fn not_cut_short(alloc: Global, parts: &[&[u8]]) -> Result<Option<usize>, Fail> {
    let frame = joined(alloc, parts)?;
    let mut mount = opened(alloc)?;
    Ok(first_answered(alloc, &mut mount, frame.as_slice()))
}

#[test]
fn frames_cut_short(rt: HostRuntime) -> Result<(), Fail> {
    for frame in [POLL, FETCH, BASIS, LIST, STAT] {
        assert_eq!(rt; not_cut_short(rt.alloc(), frame)?, None);
    }
    Ok(())
}

#[test]
fn reads_spent(rt: HostRuntime) -> Result<(), Fail> {
    let alloc = rt.alloc();
    let (frame, reply) = (joined(alloc, FETCH)?, joined(alloc, ABSENT)?);
    assert!(rt; spends(alloc, frame.as_slice(), reply.as_slice(), 30_303)?);
    Ok(())
}

/// What is written to a poll.
#[derive(Clone, Copy)]
enum Written {
    Reply,
    /// The reply with the byte that the poll has in the same place.
    ReplyWithByte,
    /// The refusal for a cause, with a number.
    Refusal(u8, u8),
}

/// What the plain reading says of a poll in which the byte at a place has another value: what is written, or the fault.
fn expected(place: usize, value: u8) -> Result<Written, FrameFault> {
    match place {
        // The length: above the limit, or another one than the body has.
        0 => Err(FrameFault::TooLarge),
        1..=3 => Err(FrameFault::CutShort),
        4 => Err(FrameFault::Version),
        // A basis has an end where the position stands, and a fetch, a list or a stat a path, of which a generation is no length.
        5 if value == 1 => Err(FrameFault::Trailing),
        5 if value == 3 || value == 4 || value == 8 => Err(FrameFault::BadField),
        5 => Err(FrameFault::BadTag),
        // The query is the reply's.
        6..=29 => Ok(Written::ReplyWithByte),
        30..=37 => Ok(Written::Refusal(1, 7)),
        45 if value == 0 => Ok(Written::Refusal(3, 1)),
        38..=45 => Ok(Written::Refusal(2, 1)),
        // The root decides nothing.
        46..=65 => Ok(Written::Reply),
        // The number of patterns, of which none is there.
        _ if value > 32 => Err(FrameFault::BadField),
        _ => Err(FrameFault::CutShort),
    }
}

/// These bytes with this value at a place.
fn changed(alloc: Global, parts: &[&[u8]], place: usize, value: u8) -> Result<Vec<u8>, Fail> {
    let mut bytes = joined(alloc, parts)?;
    if let Some(byte) = bytes.get_mut(place) {
        *byte = value;
    }
    Ok(bytes)
}

/// The text that is written to a poll with this value at a place.
fn text_of(alloc: Global, written: Written, place: usize, value: u8) -> Result<Vec<u8>, Fail> {
    match written {
        Written::Reply => Ok(joined(alloc, NO_CHANGES)?),
        Written::ReplyWithByte => changed(alloc, NO_CHANGES, place, value),
        Written::Refusal(cause, number) => refusal(alloc, cause, number),
    }
}

/// Whether a poll in which the byte at a place has another value is answered as the plain reading says.
fn is_read_plainly(
    alloc: Global,
    mount: &mut Mount<GitNaming>,
    place: usize,
    value: u8,
) -> Result<bool, Fail> {
    let (text, end) = match expected(place, value) {
        Ok(written) => (text_of(alloc, written, place, value)?, Ok(1)),
        Err(fault) => (Vec::new(alloc), stops(1, fault)),
    };
    let frame = changed(alloc, POLL, place, value)?;
    let whole = (usize::MAX, usize::MAX);
    Ok(is_served(alloc, mount, frame.as_slice(), whole, text.as_slice(), end))
}

/// Returns the first place of a poll, and the value there, that is answered otherwise.
fn first_wrong(alloc: Global, mount: &mut Mount<GitNaming>) -> Result<Option<(usize, u8)>, Fail> {
    for (place, byte) in joined(alloc, POLL)?.iter().enumerate() {
        for value in &VALUES {
            if value != byte && !is_read_plainly(alloc, mount, place, *value)? {
                return Ok(Some((place, *value)));
            }
        }
    }
    Ok(None)
}

/// The same of a mount of the empty commit.
fn first_wrong_byte(alloc: Global) -> Result<Option<(usize, u8)>, Fail> {
    let mut mount = opened(alloc)?;
    first_wrong(alloc, &mut mount)
}

#[test]
fn single_byte_changes(rt: HostRuntime) -> Result<(), Fail> {
    assert_eq!(rt; first_wrong_byte(rt.alloc())?, None);
    Ok(())
}

/// The pattern `d/**`, the path `d/a`, and its content.
const PATTERN: [u8; 7] = [1, 0, 4, b'd', b'/', b'*', b'*'];

const D_A: [u8; 5] = [0, 3, b'd', b'/', b'a'];

const CONTENT: [u8; 7] = [2, 0, 0, 0, 2, b'h', b'i'];

/// A basis by that pattern, a fetch of that path, and their replies.
const ASKED: &[&[u8]] = &[
    &[0, 0, 0, 0x21, 2, 1],
    &Q,
    &PATTERN,
    &[0, 0, 0, 0x1f, 2, 3],
    &Q,
    &D_A,
];

const REPLIED: &[&[u8]] = &[
    &[0, 0, 0, 0x47, 2, 0x81],
    &Q,
    &THIRD,
    &ROOT,
    &[0, 0, 0, 1],
    &D_A,
    &[0, 0, 0, 0x4a, 2, 0x83],
    &Q,
    &THIRD,
    &ROOT,
    &D_A,
    &CONTENT,
];

/// Two polls since the first row, of all paths and by that pattern, and their replies.
const POLLED: &[&[u8]] = &[
    &[0, 0, 0, 0x3f, 2, 2],
    &Q,
    &FIRST,
    &ROOT,
    &[0],
    &[0, 0, 0, 0x45, 2, 2],
    &Q,
    &FIRST,
    &ROOT,
    &PATTERN,
];

const CHANGED: &[&[u8]] = &[
    &[0, 0, 0, 0x50, 2, 0x82],
    &Q,
    &THIRD,
    &ROOT,
    &[0, 0, 0, 2, 1],
    &D_A,
    &[1, 0, 1, b'e', 0, 0, 0, 0],
    &[0, 0, 0, 0x4c, 2, 0x82],
    &Q,
    &THIRD,
    &ROOT,
    &[0, 0, 0, 1, 1],
    &D_A,
    &[0; 4],
];

/// Lists of what stands below `d` by that pattern, and below `e`, where a file stands, and their replies.
const LISTED: &[&[u8]] = &[
    &[0, 0, 0, 0x24, 2, 4],
    &Q,
    &[0, 1, b'd'],
    &PATTERN,
    &[0, 0, 0, 0x1e, 2, 4],
    &Q,
    &[0, 1, b'e', 0],
];

const BELOW: &[&[u8]] = &[
    &[0, 0, 0, 0x4a, 2, 0x85],
    &Q,
    &THIRD,
    &ROOT,
    &[0, 1, b'd', 0, 0, 0, 1],
    &D_A,
    &[0, 0, 0, 0x45, 2, 0x85],
    &Q,
    &THIRD,
    &ROOT,
    &[0, 1, b'e', 0, 0, 0, 0],
];

/// The id of a file that holds `hi`, by `git hash-object`.
const OF_HI: [u8; 20] = [
    0x32, 0xf9, 0x5c, 0x0d, 0x12, 0x44, 0xa7, 0x8b, 0x2b, 0xe1, 0xba, 0xb8, 0xde, 0x17, 0x90, 0x6f,
    0xab, 0xb2, 0xc4, 0xa8,
];

/// Stats of `d/a` and of `a`, where no file is, and their replies.
const STATED: &[&[u8]] = &[
    &[0, 0, 0, 0x1f, 2, 8],
    &Q,
    &D_A,
    &[0, 0, 0, 0x1d, 2, 8],
    &Q,
    &[0, 1, b'a'],
];

const STATS: &[&[u8]] = &[
    &[0, 0, 0, 0x5d, 2, 0x88],
    &Q,
    &THIRD,
    &ROOT,
    &D_A,
    &[1, 2, 0, 0, 0, 2],
    &OF_HI,
    &[0, 0, 0, 0x42, 2, 0x88],
    &Q,
    &THIRD,
    &ROOT,
    &[0, 1, b'a', 0],
];

/// Attributes of all files, and of those below `d` by that pattern, and their replies.
const ATTRIBUTES_ASKED: &[&[u8]] = &[
    &[0, 0, 0, 0x1c, 2, 9],
    &Q,
    &[0, 0],
    &[0, 0, 0, 0x25, 2, 9],
    &Q,
    &[1, 0, 1, b'd'],
    &PATTERN,
];

const ATTRIBUTES_ARE: &[&[u8]] = &[
    &[0, 0, 0, 0x7d, 2, 0x89],
    &Q,
    &THIRD,
    &ROOT,
    &[0, 0, 0, 0, 2],
    &D_A,
    &[2, 0, 0, 0, 2],
    &OF_HI,
    &[0, 1, b'e', 2, 0, 0, 0, 2],
    &OF_HI,
    &[0, 0, 0, 0x64, 2, 0x89],
    &Q,
    &THIRD,
    &ROOT,
    &[1, 0, 1, b'd', 0, 0, 0, 1],
    &D_A,
    &[2, 0, 0, 0, 2],
    &OF_HI,
];

/// A status of all paths, and of all but `e`, and their replies: no file is in the commit.
const STATUS_ASKED: &[&[u8]] = &[
    &[0, 0, 0, 0x1b, 2, 10],
    &Q,
    &[0],
    &[0, 0, 0, 0x21, 2, 7, 1, 0, 1, b'e', 2, 10],
    &Q,
    &[0],
];

const STATUS_IS: &[&[u8]] = &[
    &[0, 0, 0, 0x4c, 2, 0x8a],
    &Q,
    &THIRD,
    &ROOT,
    &[0, 0, 0, 2, 1],
    &D_A,
    &[1, 0, 1, b'e'],
    &[0, 0, 0, 0x48, 2, 0x8a],
    &Q,
    &THIRD,
    &ROOT,
    &[0, 0, 0, 1, 1],
    &D_A,
];

/// Returns whether a mount of the files `d/a` and `e`, which hold `hi`, answers two frames, which come in pieces of N bytes at the most, by
/// two replies.
fn answers_two(
    alloc: Global,
    mount: &mut Mount<GitNaming>,
    frames: &[&[u8]],
    replies: &[&[u8]],
    most: usize,
) -> Result<bool, Fail> {
    for at in [b"d/a".as_slice(), b"e".as_slice()] {
        write(alloc, mount, at, Kind::Exec, b"hi".as_slice())?;
    }
    let (frames, replies) = (joined(alloc, frames)?, joined(alloc, replies)?);
    let pieces = (most, usize::MAX);
    Ok(is_served(
        alloc,
        mount,
        frames.as_slice(),
        pieces,
        replies.as_slice(),
        Ok(2),
    ))
}

/// The same of a mount in generation 7.
fn are_answered(
    alloc: Global,
    frames: &[&[u8]],
    replies: &[&[u8]],
    most: usize,
) -> Result<bool, Fail> {
    let mut mount = opened(alloc)?;
    answers_two(alloc, &mut mount, frames, replies, most)
}

/// What it is called, two frames, their replies, and how many bytes come at once.
type TwoFrames = (
    &'static str,
    &'static [&'static [u8]],
    &'static [&'static [u8]],
    usize,
);

const TWO_FRAMES: &[TwoFrames] = &[
    ("basis_of_a_pattern_and_a_file", ASKED, REPLIED, 1),
    ("poll_by_a_pattern", POLLED, CHANGED, usize::MAX),
    ("list_of_a_directory", LISTED, BELOW, 1),
    ("stats_of_a_file_and_of_none", STATED, STATS, 1),
    ("attributes_of_files", ATTRIBUTES_ASKED, ATTRIBUTES_ARE, 1),
    ("status_of_files", STATUS_ASKED, STATUS_IS, 1),
];

#[test]
fn frames_by_patterns(rt: HostRuntime) -> Result<(), Fail> {
    for (name, frames, replies, most) in TWO_FRAMES {
        assert!(rt; are_answered(rt.alloc(), frames, replies, *most)?, "{name}");
    }
    Ok(())
}
