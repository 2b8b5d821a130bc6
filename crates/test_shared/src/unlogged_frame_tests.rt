//! Frames that a lock of which nothing is logged is asked by. A mount of one caller replies the same to them.

ghost use Rattle.std.specs.Prelude.{◌≡◌};
ghost use Rattle.eden_accumulate.specs.Mounts.{StandsFor};
ghost use Rattle.eden_history.specs.Worlds.{WorldState};

use crate::mounts::{basis, changes, fetch, file, files, mounted, poll};
use crate::unlogged::serve_stream;
use eden_accumulate::Mount;
use eden_ids::GitNaming;
use eden_messages::{Reply, Request};
use eden_query::{FrameFault, ServeFault, encode_reply, encode_request, serve};
use eden_shared::{Origin, Passes, Unlogged};
use eden_stream::Counted;
use std::alloc::Global;
use std::marker::Brand;
use std::process::Abort;
use std::sync::Wait;
use std::sync::ledger::{Blank, Ledger};
use std::test::Fail;
use std::time::Clock;
use test_kit::{PLACE_BYTES as P, QUERY_BYTES as Q, joined, write};

/// The bytes of ten seconds, as they come before a request.
const TEN_SECONDS: &[u8] = &[2, 5, 0, 0, 0x27, 0x10];

/// The frames of three requests once `a` was written, those of the right replies, and the last request's.
#[derive(Drop)]
struct Talk {
    requests: Vec<u8>,
    replies: Vec<u8>,
    fetch: Vec<u8>,
}

impl Talk {
    /// Adds the frames of a request and of its reply.
    fn add(&mut self, alloc: Global, request: &Request, reply: &Reply) -> Result<(), Fail> {
        self.fetch = encode_request(alloc, request)?;
        self.requests.extend_from_slice(self.fetch.as_slice())?;
        self.replies
            .extend_from_slice(encode_reply(alloc, reply)?.as_slice())?;
        Ok(())
    }
}

/// Returns what is asked once `a` was written, and what is right.
fn three_requests(alloc: Global) -> Result<Talk, Fail> {
    let mut talk = Talk {
        requests: Vec::new(alloc),
        replies: Vec::new(alloc),
        fetch: Vec::new(alloc),
    };
    talk.add(alloc, &poll(alloc), &changes(alloc, 2, &["a"])?)?;
    talk.add(alloc, &basis(alloc), &files(alloc, 2, &["a"])?)?;
    talk.add(alloc, &fetch(alloc, "a")?, &file(alloc, 2, "a", "x")?)?;
    Ok(talk)
}

/// How many bytes the frame of a fetch of `a` has.
const WHOLE: usize = 33;

/// A stream, and how its serving ends.
///
/// First come the three requests, or none; then these bytes, and the front of a fetch. It ends after this many frames, or at the frame of this
/// number with a fault.
type Case = (bool, &'static [u8], usize, Result<u64, (u64, FrameFault)>);

const CASES: &[Case] = &[
    (false, &[], 0, Ok(0)),
    (true, &[], 0, Ok(3)),
    (false, &[0, 0, 0, 0], 0, Err((1, FrameFault::CutShort))),
    (true, &[0, 0, 0], 0, Err((4, FrameFault::CutShort))),
    (true, &[], 9, Err((4, FrameFault::CutShort))),
    (true, &[1, 0, 0, 1], WHOLE, Err((4, FrameFault::TooLarge))),
    // A version that there is none of, and a frame after it.
    (true, &[0, 0, 0, 1, 0], WHOLE, Err((4, FrameFault::Version))),
];

/// Returns the stream of a case.
fn stream_of(alloc: Global, talk: &Talk, case: &Case) -> Result<Vec<u8>, Fail> {
    let (asks, bytes, front, _) = case;
    let mut stream = Vec::new(alloc);
    if *asks {
        stream.extend_from_slice(talk.requests.as_slice())?;
    }
    stream.extend_from_slice(*bytes)?;
    let front = talk.fetch.get(..*front).ok_or("a frame is too short")?;
    stream.extend_from_slice(front)?;
    Ok(stream)
}

fn stops(number: u64, fault: FrameFault) -> Result<u64, ServeFault> {
    Err(ServeFault::Frame { number, fault })
}

/// Returns how the serving of a case ends.
fn end_of(case: &Case) -> Result<u64, ServeFault> {
    match case.3 {
        Ok(served) => Ok(served),
        Err((number, fault)) => stops(number, fault),
    }
}

/// Returns a poll and a fetch with a patience, and one with two.
fn patient(alloc: Global) -> Result<Vec<u8>, Fail> {
    Ok(joined(
        alloc,
        &[
            &[0, 0, 0, 0x45],
            TEN_SECONDS,
            &[2, 2],
            &Q,
            &P,
            &[0, 0, 0, 0, 0x23],
            TEN_SECONDS,
            &[2, 3],
            &Q,
            &[0, 1, b'a', 0, 0, 0, 0x29],
            TEN_SECONDS,
            TEN_SECONDS,
            &[2, 3],
            &Q,
            &[0, 1, b'a'],
        ],
    )?)
}

/// Returns the frames of the replies to the poll and the fetch.
fn told(alloc: Global) -> Result<Vec<u8>, Fail> {
    let changed = encode_reply(alloc, &changes(alloc, 2, &["a"])?)?;
    let held = encode_reply(alloc, &file(alloc, 2, "a", "x")?)?;
    Ok(joined(alloc, &[changed.as_slice(), held.as_slice()])?)
}

/// Writes `a`, with a pass that is given for that.
fn write_a<L: Origin>(
    rt: &impl Wait,
    alloc: Global,
    unlogged: &Unlogged<GitNaming, Mount<GitNaming>, L>,
    passes: &mut Passes<L>,
) -> Result<(), Fail> {
    let change = write(alloc, "a", "x")?;
    let mut pass = passes.give()?;
    let _position = unlogged.change(rt, &mut pass, &change)?;
    Ok(())
}

/// Returns what the lock writes to a stream once `a` was written, and how that ends.
fn unlogged_end<L: Origin, R: Wait + Clock>(
    rt: &R,
    alloc: Global,
    mount: Mount<GitNaming>,
    blank: Blank,
    stream: &[u8],
) -> Result<(Vec<u8>, Result<u64, ServeFault>), Fail>
    requires opens { (world : WorldState) → L.opens world → StandsFor mount world }
    requires name { blank.name ≡ L.name }
    requires parts { blank.parts ≡ L.parts }
    requires whole { blank.parts ≡ 2048 }
{
    let (unlogged, mut passes) = Unlogged::<GitNaming, _, L>::new(mount, blank);
    write_a(rt, alloc, &unlogged, &mut passes)?;
    Ok(serve_stream(rt, alloc, &unlogged, &mut None, stream))
}

/// Returns the same, over a mount of its own.
fn unlogged_text<R: Wait + Clock>(
    rt: &R,
    alloc: Global,
    stream: &[u8],
) -> Result<(Vec<u8>, Result<u64, ServeFault>), Fail> {
    unlogged_end::<Brand, R>(rt, alloc, mounted(alloc)?, Blank::new(2048), stream)
}

/// Writes `a`, and serves a stream over a mount of one caller.
///
/// Returns what is written, and how that ends.
fn write_and_serve(
    alloc: Global,
    mount: &mut Mount<GitNaming>,
    stream: &[u8],
) -> Result<(Vec<u8>, Result<u64, ServeFault>), Fail> {
    let _position = mount.apply(&write(alloc, "a", "x")?)?;
    let mut text = Vec::new(alloc);
    let mut reader = Counted::new(stream);
    let mut writer = Counted::new(&mut text);
    let end = serve(alloc, &mut reader, &mut writer, mount);
    Ok((text, end))
}

/// Returns the same, over a mount of its own.
fn single_end(alloc: Global, stream: &[u8]) -> Result<(Vec<u8>, Result<u64, ServeFault>), Fail> {
    let mut mount = mounted(alloc)?;
    write_and_serve(alloc, &mut mount, stream)
}

/// Checks that both serve a case as it says.
fn are_served<R: Wait + Clock + Abort>(
    rt: &R,
    alloc: Global,
    talk: &Talk,
    case: &Case,
) -> Result<(), Fail> {
    let stream = stream_of(alloc, talk, case)?;
    let replies = if case.0 {
        talk.replies.as_slice()
    } else {
        b"".as_slice()
    };
    let (text, end) = unlogged_text(rt, alloc, stream.as_slice())?;
    assert_eq!(rt; end, end_of(case));
    assert!(rt; text.as_slice() == replies);
    let (text, end) = single_end(alloc, stream.as_slice())?;
    assert_eq!(rt; end, end_of(case));
    assert!(rt; text.as_slice() == replies);
    Ok(())
}

#[test]
fn frames_are_replied_as_to_one_caller(rt: HostRuntime) -> Result<(), Fail> {
    let alloc = rt.alloc();
    let talk = three_requests(alloc)?;
    for case in CASES {
        are_served(&rt, alloc, &talk, case)?;
    }
    Ok(())
}

/// The id of a file that holds `x`, by `git hash-object`.
pub(crate) const OF_X: [u8; 20] = [
    0xc1, 0xb0, 0x73, 0x0e, 0x01, 0x33, 0x44, 0x7b, 0xad, 0xcf, 0xd4, 0x7f, 0xd1, 0x44, 0xe2, 0x54,
    0x80, 0x7b, 0x06, 0xe1,
];

/// The second position of generation 7, over the empty commit.
pub(crate) const SECOND: [u8; 16] = [0, 0, 0, 0, 0, 0, 0, 7, 0, 0, 0, 0, 0, 0, 0, 2];

/// A stat of `a`, and its reply.
const STAT: &[&[u8]] = &[&[0, 0, 0, 0x1d, 2, 8], &Q, &[0, 1, b'a']];

const STAT_IS: &[&[u8]] = &[
    &[0, 0, 0, 0x5b, 2, 0x88],
    &Q,
    &SECOND,
    &[0; 20],
    &[0, 1, b'a', 1, 1, 0, 0, 0, 1],
    &OF_X,
];

#[test]
fn a_stat_is_replied_as_to_one_caller(rt: HostRuntime) -> Result<(), Fail> {
    let alloc = rt.alloc();
    let (stream, wanted) = (joined(alloc, STAT)?, joined(alloc, STAT_IS)?);
    let (text, end) = unlogged_text(&rt, alloc, stream.as_slice())?;
    assert_eq!(rt; end, Ok(1));
    assert_eq!(rt; text, wanted);
    let (text, end) = single_end(alloc, stream.as_slice())?;
    assert_eq!(rt; end, Ok(1));
    assert_eq!(rt; text, wanted);
    Ok(())
}

/// Attributes of all files and a status, and their replies.
const ATTRIBUTES: &[&[u8]] = &[
    &[0, 0, 0, 0x1c, 2, 9],
    &Q,
    &[0, 0],
    &[0, 0, 0, 0x1b, 2, 10],
    &Q,
    &[0],
];

const ATTRIBUTES_ARE: &[&[u8]] = &[
    &[0, 0, 0, 0x5f, 2, 0x89],
    &Q,
    &SECOND,
    &[0; 20],
    &[0, 0, 0, 0, 1, 0, 1, b'a', 1, 0, 0, 0, 1],
    &OF_X,
    &[0, 0, 0, 0x46, 2, 0x8a],
    &Q,
    &SECOND,
    &[0; 20],
    &[0, 0, 0, 1, 1, 0, 1, b'a'],
];

#[test]
fn attributes_are_replied_as_to_one_caller(rt: HostRuntime) -> Result<(), Fail> {
    let alloc = rt.alloc();
    let (stream, wanted) = (joined(alloc, ATTRIBUTES)?, joined(alloc, ATTRIBUTES_ARE)?);
    let (text, end) = unlogged_text(&rt, alloc, stream.as_slice())?;
    assert_eq!(rt; end, Ok(2));
    assert_eq!(rt; text, wanted);
    let (text, end) = single_end(alloc, stream.as_slice())?;
    assert_eq!(rt; end, Ok(2));
    assert_eq!(rt; text, wanted);
    Ok(())
}

#[test]
fn a_patience_is_known_to_the_lock_alone(rt: HostRuntime) -> Result<(), Fail> {
    let alloc = rt.alloc();
    let stream = patient(alloc)?;
    let (text, end) = unlogged_text(&rt, alloc, stream.as_slice())?;
    assert_eq!(rt; end, stops(3, FrameFault::BadTag));
    assert_eq!(rt; text, told(alloc)?);
    let (text, end) = single_end(alloc, stream.as_slice())?;
    assert_eq!(rt; end, stops(1, FrameFault::BadTag));
    assert!(rt; text.is_empty());
    Ok(())
}
