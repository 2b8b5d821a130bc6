//! Frames that change a mount behind a lock of which nothing is logged.

ghost use Rattle.std.specs.Prelude.{◌≡◌};
ghost use Rattle.eden_accumulate.specs.Mounts.{StandsFor};
ghost use Rattle.eden_history.specs.Worlds.{WorldState};

use crate::mounts::mounted;
use crate::unlogged::serve_stream;
use eden_accumulate::Mount;
use eden_ids::GitNaming;
use eden_query::{FrameFault, ServeFault};
use eden_shared::{Origin, Unlogged};
use std::alloc::Global;
use std::marker::Brand;
use std::sync::Wait;
use std::sync::ledger::{Blank, Ledger};
use std::test::Fail;
use std::time::Clock;
use test_kit::{PLACE_BYTES as P, QUERY_BYTES as Q, framed, joined};

/// What a body has after its query.
type Pieces = &'static [&'static [u8]];

/// The tags of a poll and of a change, and of their answers.
const POLL: u8 = 0x02;

const DO: u8 = 0x06;

const CHANGED: u8 = 0x82;

const DONE: u8 = 0x86;

/// The generation of the mount.
const SEVEN: &[u8] = &[0, 0, 0, 0, 0, 0, 0, 7];

/// The root of the empty commit.
const EMPTY: &[u8] = &[0; 20];

/// Eight bytes that are zero.
const ZEROS: &[u8] = &[0; 8];

/// A blob, a tree that has it at `a`, and a commit of that tree. Each has its type and its length before it.
const BLOB: &[u8] = &[1, 0, 0, 0, 1, b'y'];

const TREE: &[u8] =
    b"\x02\0\0\0\x1d100644 a\0\xe2\x5f\x18\x14\xe5\x15\x79\xd5\xf5\x5c\x0f\x1f\xe0\x13\x5d\xdb\x28\xa4\x7f\x4a";

const COMMIT: &[u8] = b"\x03\0\0\0\x2etree 1db55d88805488d4a0e3b3fd40c9d73571f9a840\n";

/// The id of that commit, as Git names it.
const ID: &[u8] =
    b"\xe0\x85\x6c\x3a\x08\x16\x6b\x65\x91\xae\x90\x89\x8b\xa3\x40\x06\xb7\x34\xf2\x5b";

/// Changes that are asked for one after another, and how each ends.
pub(crate) const CHANGES: &[(Pieces, Pieces)] = &[
    // Files are written, one of them is removed, and one is renamed there and back.
    (
        &[&[1, 0, 1, b'a', 1, 0, 0, 0, 1, b'x']],
        &[&[1], SEVEN, &[0, 0, 0, 0, 0, 0, 0, 2], EMPTY],
    ),
    (
        &[&[1, 0, 1, b'b', 2, 0, 0, 0, 0]],
        &[&[1], SEVEN, &[0, 0, 0, 0, 0, 0, 0, 3], EMPTY],
    ),
    (
        &[&[1, 0, 1, b'b', 0]],
        &[&[1], SEVEN, &[0, 0, 0, 0, 0, 0, 0, 4], EMPTY],
    ),
    (
        &[&[2, 0, 1, b'a', 0, 1, b'c']],
        &[&[1], SEVEN, &[0, 0, 0, 0, 0, 0, 0, 5], EMPTY],
    ),
    (
        &[&[2, 0, 1, b'c', 0, 1, b'a']],
        &[&[1], SEVEN, &[0, 0, 0, 0, 0, 0, 0, 6], EMPTY],
    ),
    // There is no file, no directory, no commit, and the generation is not new.
    (&[&[1, 0, 1, b'b', 0]], &[&[3, 3], ZEROS, &[0]]),
    (&[&[3, 0, 1, b'd', 0, 1, b'e']], &[&[3, 3], ZEROS, &[0]]),
    (&[&[4], ID, &[1]], &[&[3, 7], ZEROS, &[0]]),
    (&[&[7], SEVEN], &[&[3, 9], ZEROS, &[0]]),
    // A tree needs its blob, and the second of the two is refused.
    (
        &[&[8, 0, 0, 0, 2, 1, 0, 0, 0, 0], TREE],
        &[&[3, 10, 0, 0, 0, 0, 0, 0, 0, 1, 8]],
    ),
    (
        &[&[8, 0, 0, 0, 3], BLOB, TREE, COMMIT],
        &[&[1], SEVEN, &[0, 0, 0, 0, 0, 0, 0, 6], EMPTY],
    ),
    // The commit has another `a`, which is left as it is.
    (
        &[&[4], ID, &[2]],
        &[
            &[2],
            SEVEN,
            &[0, 0, 0, 0, 0, 0, 0, 6],
            EMPTY,
            &[0, 0, 0, 1, 0, 1, b'a'],
        ],
    ),
    (
        &[&[4], ID, &[1]],
        &[
            &[2],
            SEVEN,
            &[0, 0, 0, 0, 0, 0, 0, 7],
            ID,
            &[0, 0, 0, 1, 0, 1, b'a'],
        ],
    ),
    (
        &[&[5], EMPTY],
        &[&[1], SEVEN, &[0, 0, 0, 0, 0, 0, 0, 8], EMPTY],
    ),
    (&[&[6]], &[&[1], SEVEN, &[0, 0, 0, 0, 0, 0, 0, 9], EMPTY]),
    (
        &[&[7, 0, 0, 0, 0, 0, 0, 0, 8]],
        &[
            &[1, 0, 0, 0, 0, 0, 0, 0, 8],
            &[0, 0, 0, 0, 0, 0, 0, 1],
            EMPTY,
        ],
    ),
];

/// A poll since the mount, and the replies that nothing has changed and that `a` was created.
const SINCE: Pieces = &[&P, &[0]];

const NOTHING: Pieces = &[&P, ZEROS];

const A: Pieces = &[
    SEVEN,
    &[0, 0, 0, 0, 0, 0, 0, 2],
    EMPTY,
    &[0, 0, 0, 1, 1, 0, 1, b'a', 0, 0, 0, 0],
];

/// Adds the frame of a body to a text.
pub(crate) fn add(
    alloc: Global,
    text: &mut Vec<u8>,
    tag: u8,
    pieces: &[&[u8]],
) -> Result<(), Fail> {
    let rest = joined(alloc, pieces)?;
    let body = joined(alloc, &[&[2, tag], &Q, rest.as_slice()])?;
    text.extend_from_slice(framed(alloc, body.as_slice())?.as_slice())?;
    Ok(())
}

/// A stream of frames, and what is written of it.
#[derive(Drop)]
pub(crate) struct Talk {
    pub(crate) asked: Vec<u8>,
    pub(crate) said: Vec<u8>,
}

impl Talk {
    fn new(alloc: Global) -> Talk {
        Talk {
            asked: Vec::new(alloc),
            said: Vec::new(alloc),
        }
    }

    /// Adds a poll and its reply.
    fn poll(&mut self, alloc: Global, reply: &[&[u8]]) -> Result<(), Fail> {
        add(alloc, &mut self.asked, POLL, SINCE)?;
        add(alloc, &mut self.said, CHANGED, reply)
    }

    /// Adds a change and how it ends.
    fn change(&mut self, alloc: Global, change: &[&[u8]], end: &[&[u8]]) -> Result<(), Fail> {
        add(alloc, &mut self.asked, DO, change)?;
        add(alloc, &mut self.said, DONE, end)
    }
}

/// Asks for all changes. None of them is made if the connection may not.
pub(crate) fn all_changes(alloc: Global, writable: bool) -> Result<Talk, Fail> {
    let mut talk = Talk::new(alloc);
    for (change, end) in CHANGES {
        talk.change(alloc, *change, if writable { *end } else { &[&[0]] })?;
    }
    Ok(talk)
}

/// Asks for all changes, none of which is made, and what has changed.
fn none_made(alloc: Global) -> Result<Talk, Fail> {
    let mut talk = all_changes(alloc, false)?;
    talk.poll(alloc, NOTHING)?;
    Ok(talk)
}

/// Asks for a change between two polls.
pub(crate) fn change_among_polls(alloc: Global) -> Result<Talk, Fail> {
    let mut talk = Talk::new(alloc);
    let (change, end) = CHANGES[0];
    talk.poll(alloc, NOTHING)?;
    talk.change(alloc, change, end)?;
    talk.poll(alloc, A)?;
    Ok(talk)
}

/// Returns what the lock writes to a stream, and how that ends.
fn end_behind<L: Origin, R: Wait + Clock>(
    rt: &R,
    alloc: Global,
    mount: Mount<GitNaming>,
    blank: Blank,
    writable: bool,
    stream: &[u8],
) -> (Vec<u8>, Result<u64, ServeFault>)
    requires opens { (world : WorldState) → L.opens world → StandsFor mount world }
    requires name { blank.name ≡ L.name }
    requires parts { blank.parts ≡ L.parts }
    requires whole { blank.parts ≡ 2048 }
{
    let (unlogged, mut passes) = Unlogged::<GitNaming, _, L>::new(mount, blank);
    let mut writing = if writable { passes.give().ok() } else { None };
    serve_stream(rt, alloc, &unlogged, &mut writing, stream)
}

/// Returns the same, over a mount of its own.
fn end_of<R: Wait + Clock>(
    rt: &R,
    alloc: Global,
    writable: bool,
    stream: &[u8],
) -> Result<(Vec<u8>, Result<u64, ServeFault>), Fail> {
    let mount = mounted(alloc)?;
    Ok(end_behind::<Brand, R>(rt, alloc, mount, Blank::new(2048), writable, stream))
}

#[test]
fn changes_are_made_over_frames(rt: HostRuntime) -> Result<(), Fail> {
    let talk = all_changes(rt.alloc(), true)?;
    let (text, end) = end_of(&rt, rt.alloc(), true, talk.asked.as_slice())?;
    assert_eq!(rt; end, Ok(CHANGES.len() as u64));
    assert_eq!(rt; text, talk.said);
    Ok(())
}

#[test]
fn no_change_is_made_without_a_pass(rt: HostRuntime) -> Result<(), Fail> {
    let talk = none_made(rt.alloc())?;
    let (text, end) = end_of(&rt, rt.alloc(), false, talk.asked.as_slice())?;
    assert_eq!(rt; end, Ok(CHANGES.len() as u64 + 1));
    assert_eq!(rt; text, talk.said);
    Ok(())
}

#[test]
fn a_change_among_polls_is_seen_by_the_later_ones(rt: HostRuntime) -> Result<(), Fail> {
    let talk = change_among_polls(rt.alloc())?;
    let (text, end) = end_of(&rt, rt.alloc(), true, talk.asked.as_slice())?;
    assert_eq!(rt; end, Ok(3));
    assert_eq!(rt; text, talk.said);
    Ok(())
}

/// Returns a flush, and a frame with a fault after it.
fn flush_and(alloc: Global, faulty: &[&[u8]]) -> Result<Vec<u8>, Fail> {
    let mut stream = Vec::new(alloc);
    add(alloc, &mut stream, DO, &[&[6]])?;
    let body = joined(alloc, faulty)?;
    stream.extend_from_slice(framed(alloc, body.as_slice())?.as_slice())?;
    Ok(stream)
}

/// Bodies that ask for no change, and the fault of each.
const FAULTS: &[(Pieces, FrameFault)] = &[
    (&[&[2, 6], &Q], FrameFault::CutShort),
    (&[&[2, 6], &Q, &[0]], FrameFault::BadField),
    (&[&[2, 6], &Q, &[6, 0]], FrameFault::Trailing),
    // After a patience comes a request.
    (&[&[2, 5, 0, 0, 0, 1, 2, 6], &Q, &[6]], FrameFault::BadTag),
];

#[test]
fn a_frame_with_a_fault_changes_nothing(rt: HostRuntime) -> Result<(), Fail> {
    let mut flushed = Vec::new(rt.alloc());
    add(
        rt.alloc(),
        &mut flushed,
        DONE,
        &[&[1], SEVEN, &[0, 0, 0, 0, 0, 0, 0, 2], EMPTY],
    )?;
    for (faulty, fault) in FAULTS {
        let stream = flush_and(rt.alloc(), *faulty)?;
        let (text, end) = end_of(&rt, rt.alloc(), true, stream.as_slice())?;
        let fault = ServeFault::Frame {
            number: 2,
            fault: *fault,
        };
        assert_eq!(rt; end, Err(fault));
        assert_eq!(rt; text, flushed);
    }
    Ok(())
}
