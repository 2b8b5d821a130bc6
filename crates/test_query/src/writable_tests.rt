//! Frames that ask for changes, and what a mount of one caller answers.

ghost use Rattle.std.specs.Prelude.{◌≡◌, None};
ghost use Rattle.eden_accumulate.specs.Mounts.{StandsFor};

use crate::calls::{opened, served, served_writable};
use crate::serving_tests::{NO_CHANGES, POLL, ROOT};
use eden_accumulate::Mount;
use eden_history::{Answer, Change};
use eden_ids::{GitNaming, NoMemory};
use eden_messages::Request;
use eden_objects::Store;
use eden_query::{FrameFault, Raw, ServeFault, Served};
use std::alloc::Global;
use std::test::Fail;
use test_devices::Source;
use test_kit::{QUERY_BYTES as Q, joined};

/// The last bytes of the generation 7 and of its second number.
const SECOND: [u8; 16] = [0, 0, 0, 0, 0, 0, 0, 7, 0, 0, 0, 0, 0, 0, 0, 2];

/// A change that writes `a`.
const WRITE: &[&[u8]] = &[
    &[0, 0, 0, 0x24, 2, 6],
    &Q,
    &[1, 0, 1, b'a', 1, 0, 0, 0, 1, b'x'],
];

/// The answer that it was made.
const MADE: &[&[u8]] = &[&[0, 0, 0, 0x3f, 2, 0x86], &Q, &[1], &SECOND, &ROOT];

/// The reply to the poll since the first row once `a` is written.
const CREATED: &[&[u8]] = &[
    &[0, 0, 0, 0x4a, 2, 0x82],
    &Q,
    &SECOND,
    &ROOT,
    &[0, 0, 0, 1, 1, 0, 1, b'a', 0, 0, 0, 0],
];

/// A change that removes `b`.
const REMOVE: &[&[u8]] = &[&[0, 0, 0, 0x1f, 2, 6], &Q, &[1, 0, 1, b'b', 0]];

/// The answer that there is no such file.
const NO_ENTRY: &[&[u8]] = &[
    &[0, 0, 0, 0x25, 2, 0x86],
    &Q,
    &[3, 3, 0, 0, 0, 0, 0, 0, 0, 0, 0],
];

/// A fetch of `a` that may wait ten seconds.
const PATIENT: &[&[u8]] = &[
    &[0, 0, 0, 0x23, 2, 5, 0, 0, 0x27, 0x10, 2, 3],
    &Q,
    &[0, 1, b'a'],
];

/// The reply with the file.
const HELD: &[&[u8]] = &[
    &[0, 0, 0, 0x47, 2, 0x83],
    &Q,
    &SECOND,
    &ROOT,
    &[0, 1, b'a', 1, 0, 0, 0, 1, b'x'],
];

/// A frame that has no body.
const EMPTY: &[&[u8]] = &[&[0; 4]];

/// Frames or answers, each in parts.
type Frames = &'static [&'static [&'static [u8]]];

/// Frames, what is answered to them, and how the serving ends.
type Case = (Frames, Frames, Result<u64, ServeFault>);

const CASES: &[Case] = &[
    (&[POLL, WRITE, POLL], &[NO_CHANGES, MADE, CREATED], Ok(3)),
    (&[REMOVE, POLL], &[NO_ENTRY, NO_CHANGES], Ok(2)),
    (&[WRITE, PATIENT], &[MADE, HELD], Ok(2)),
    (
        &[WRITE, EMPTY, POLL],
        &[MADE],
        Err(ServeFault::Frame {
            number: 2,
            fault: FrameFault::CutShort,
        }),
    ),
];

/// Returns the bytes of frames.
fn bytes_of(alloc: Global, frames: Frames) -> Result<Vec<u8>, Fail> {
    let mut bytes = Vec::new(alloc);
    for parts in frames {
        bytes.extend_from_slice(joined(alloc, *parts)?.as_slice())?;
    }
    Ok(bytes)
}

/// Returns whether a mount answers a case as it says, whose bytes come in such pieces.
fn is_answered(alloc: Global, case: &Case, most: usize) -> Result<bool, Fail> {
    let (frames, text) = (bytes_of(alloc, case.0)?, bytes_of(alloc, case.1)?);
    let mut source = Source::new(frames.as_slice());
    source.most = most;
    let mut mount = opened(alloc)?;
    let (written, ended) = served_writable(alloc, source, &mut mount);
    Ok(ended == case.2 && written == text)
}

#[test]
fn each_frame_is_answered_as_those_before_it_leave_the_mount(rt: HostRuntime) -> Result<(), Fail> {
    for case in CASES {
        for most in [usize::MAX, 1] {
            assert!(rt; is_answered(rt.alloc(), case, most)?);
        }
    }
    Ok(())
}

/// Returns what a mount that may not be changed writes to frames, how that ends, and its number.
fn read_only(
    alloc: Global,
    frames: &[u8],
) -> Result<(Vec<u8>, Result<u64, ServeFault>, u64), Fail> {
    let mut mount = opened(alloc)?;
    let (written, ended) = served(alloc, Source::new(frames), &mut mount);
    Ok((written, ended, mount.position().sequence))
}

#[test]
fn a_service_of_requests_knows_no_change(rt: HostRuntime) -> Result<(), Fail> {
    let alloc = rt.alloc();
    let frames = bytes_of(alloc, &[POLL, WRITE, POLL])?;
    let (written, ended, number) = read_only(alloc, frames.as_slice())?;
    let fault = FrameFault::BadTag;
    assert_eq!(rt; ended, Err(ServeFault::Frame { number: 2, fault }));
    assert_eq!(rt; written, joined(alloc, NO_CHANGES)?);
    assert_eq!(rt; number, 1);
    Ok(())
}

/// A mount that has no memory for a change.
#[derive(Drop)]
struct Full {
    mount: Mount<GitNaming>,
}

impl Served<GitNaming> for Full {
    ghost stands_for = { λ full world. StandsFor full.mount world };

    ghost spelled = { λ _ _ stands. (stands.is_world, stands.spellable) };

    ghost held = { λ full. full.mount.held };

    ghost stored = { λ _. None };

    ghost apply_gives = { λ _ _ _ _ _. ⊥ };

    ghost hold_gives = { λ before _ _ _ after. after ≡ before };

    fn store(&self) -> &Store<GitNaming> {
        Served::store(&self.mount)
    }

    fn taken(&self) -> Option<u64> {
        None
    }

    fn hold(
        &mut self,
        caller: u64,
        request: &Request,
    ) -> Result<(Raw, Store<GitNaming>), NoMemory> {
        self.mount.hold(caller, request)
    }

    fn apply(&mut self, _caller: u64, _change: &Change) -> Result<Answer, NoMemory> {
        self.mount.stands_law();
        Err(NoMemory)
    }
}

/// Returns what such a mount writes to frames, and how that ends.
fn without_memory(
    alloc: Global,
    frames: &[u8],
) -> Result<(Vec<u8>, Result<u64, ServeFault>), Fail> {
    let mount = opened(alloc)?;
    let mut full = Full { mount };
    Ok(served_writable(alloc, Source::new(frames), &mut full))
}

#[test]
fn replies_before_a_change_without_memory_are_written(rt: HostRuntime) -> Result<(), Fail> {
    let alloc = rt.alloc();
    let frames = bytes_of(alloc, &[POLL, WRITE, POLL])?;
    let (written, ended) = without_memory(alloc, frames.as_slice())?;
    assert_eq!(rt; ended, Err(ServeFault::NoMemory));
    assert_eq!(rt; written, joined(alloc, NO_CHANGES)?);
    Ok(())
}
