//! Frames that a desk is asked by.

ghost use Rattle.std.specs.Prelude.{◌≡◌};

use crate::audits::{AuditedMount, Ended, close, end_both, opened};
use eden_ids::{GitNaming, Id};
use eden_messages::{Query, Request};
use eden_objects::Store;
use eden_query::{FrameFault, ServeFault};
use eden_shared::{Desk, Gate, serve_shared};
use eden_stream::Counted;
use std::alloc::Global;
use std::marker::Brand;
use std::process::Abort;
use std::sync::Wait;
use std::sync::atomic::{AtomicU64, Ordering};
use std::sync::ledger::{Blank, Ledger};
use std::test::Fail;
use std::time::Duration;
use test_kit::{PLACE_BYTES as P, QUERY_BYTES as Q, joined};

/// A fetch of `a`.
const FETCH: &[&[u8]] = &[&[0, 0, 0, 0x1d, 2, 3], &Q, &[0, 1, b'a']];

/// The same with a byte more than its fields.
const LONGER: &[&[u8]] = &[&[0, 0, 0, 0x1e, 2, 3], &Q, &[0, 1, b'a', 0]];

/// The same with the longest patience that there is.
const PATIENT: &[&[u8]] = &[
    &[0, 0, 0, 0x23, 2, 5, 0xff, 0xff, 0xff, 0xff],
    &[2, 3],
    &Q,
    &[0, 1, b'a'],
];

/// A flush, which a desk is not asked by frames.
const FLUSH: &[&[u8]] = &[&[0, 0, 0, 0x1b, 2, 6], &Q, &[6]];

/// A stat of `a`, which is asked as that fetch.
const STAT: &[&[u8]] = &[&[0, 0, 0, 0x1d, 2, 8], &Q, &[0, 1, b'a']];

/// The reply that nothing stands at `a`, to a stat.
const NO_STAT: &[&[u8]] = &[&[0, 0, 0, 0x42, 2, 0x88], &Q, &P, &[0, 1, b'a', 0]];

/// Attributes of all files below `d`, which is asked as a list, and the reply that there are none.
const ATTRIBUTES: &[&[u8]] = &[&[0, 0, 0, 0x1f, 2, 9], &Q, &[1, 0, 1, b'd', 0]];

const NO_ATTRIBUTES: &[&[u8]] = &[
    &[0, 0, 0, 0x46, 2, 0x89],
    &Q,
    &P,
    &[1, 0, 1, b'd', 0, 0, 0, 0],
];

/// A status, which is asked as a basis, and the reply that nothing differs from the commit.
const STATUS: &[&[u8]] = &[&[0, 0, 0, 0x1b, 2, 10], &Q, &[0]];

const CLEAN: &[&[u8]] = &[&[0, 0, 0, 0x42, 2, 0x8a], &Q, &P, &[0; 4]];

/// The reply that nothing stands at `a`.
const ABSENT: &[&[u8]] = &[&[0, 0, 0, 0x42, 2, 0x83], &Q, &P, &[0, 1, b'a', 0]];

/// Frames, or other bytes, one after another.
type Frames = &'static [&'static [&'static [u8]]];

/// A stream, the replies to it, and how its serving ends.
///
/// It ends after this many frames, or at the frame of this number with a fault.
type Case = (Frames, Frames, Result<u64, (u64, FrameFault)>);

const CASES: &[Case] = &[
    (&[], &[], Ok(0)),
    (&[&[&[0, 0, 0, 0]]], &[], Err((1, FrameFault::CutShort))),
    (&[&[&[1, 0, 0, 1]]], &[], Err((1, FrameFault::TooLarge))),
    (&[&[&[0, 0, 0]]], &[], Err((1, FrameFault::CutShort))),
    (
        &[FETCH, LONGER, FETCH],
        &[ABSENT],
        Err((2, FrameFault::Trailing)),
    ),
    (
        &[FETCH, FLUSH, FETCH],
        &[ABSENT],
        Err((2, FrameFault::BadTag)),
    ),
    (&[FETCH, FETCH], &[ABSENT, ABSENT], Ok(2)),
    (&[PATIENT, FETCH], &[ABSENT, ABSENT], Ok(2)),
    (&[STAT, FETCH, STAT], &[NO_STAT, ABSENT, NO_STAT], Ok(3)),
    (&[ATTRIBUTES, STATUS], &[NO_ATTRIBUTES, CLEAN], Ok(2)),
    (
        &[FETCH, FETCH, &[&[0]]],
        &[ABSENT, ABSENT],
        Err((3, FrameFault::CutShort)),
    ),
];

fn text_of(alloc: Global, frames: &[&[&[u8]]]) -> Result<Vec<u8>, Fail> {
    let mut text = Vec::new(alloc);
    for parts in frames {
        text.extend_from_slice(joined(alloc, parts)?.as_slice())?;
    }
    Ok(text)
}

/// Returns how the serving of a case ends.
fn end_of(end: Result<u64, (u64, FrameFault)>) -> Result<u64, ServeFault> {
    match end {
        Ok(served) => Ok(served),
        Err((number, fault)) => Err(ServeFault::Frame { number, fault }),
    }
}

/// A gate that keeps the longest patience, in milliseconds.
#[derive(Drop)]
struct Longest {
    milliseconds: AtomicU64,
}

impl Gate for Longest {
    fn before(&self, _request: &Request, patience: Duration) {
        let milliseconds = u64::try_from(patience.as_millis()).unwrap_or(u64::MAX);
        self.milliseconds.fetch_max(milliseconds, Ordering::SeqCst);
    }

    fn between(&self, _query: &Query) {}
}

/// What is written to a stream, and how its serving ends.
fn served<L: Ledger>(
    rt: &impl Wait,
    alloc: Global,
    shared: &AuditedMount<L>,
    desk: &mut Desk<L>,
    gate: &Longest,
    stream: &[u8],
) -> (Vec<u8>, Result<u64, ServeFault>) {
    let mut written = Vec::new(alloc);
    let mut reader = Counted::new(stream);
    let mut writer = Counted::new(&mut written);
    let end = serve_shared(rt, alloc, &mut reader, &mut writer, shared, desk, gate);
    (written, end)
}

/// Serves a case, and checks the replies and the end.
fn serve_case<L: Ledger>(
    rt: &(impl Wait + Abort),
    alloc: Global,
    shared: &AuditedMount<L>,
    desk: &mut Desk<L>,
    gate: &Longest,
    case: &Case,
) -> Result<(), Fail> {
    let (frames, replies, end) = case;
    let (stream, text) = (text_of(alloc, frames)?, text_of(alloc, replies)?);
    let (written, told) = served(rt, alloc, shared, desk, gate, stream.as_slice());
    assert_eq!(rt; told, end_of(*end));
    assert_eq!(rt; written, text);
    Ok(())
}

/// A desk is asked by these streams, one after another.
fn serve_all<L: Ledger>(
    rt: &(impl Wait + Abort),
    alloc: Global,
    shared: &AuditedMount<L>,
    desk: &mut Desk<L>,
) -> Result<(), Fail> {
    let gate = Longest {
        milliseconds: AtomicU64::new(0),
    };
    for case in CASES {
        serve_case(rt, alloc, shared, desk, &gate, case)?;
    }
    // More than a minute counts as a minute.
    assert_eq!(rt; gate.milliseconds.load(Ordering::SeqCst), 60_000);
    Ok(())
}

/// Asks one desk by all streams, and a later one by none.
fn serve_one_of_two<L: Ledger>(
    rt: &(impl Wait + Abort),
    alloc: Global,
    shared: &AuditedMount<L>,
) -> Result<Ended<L>, Fail> {
    let mut desk = Desk::new(alloc, shared.pass(rt)?);
    serve_all(rt, alloc, shared, &mut desk)?;
    let other = Desk::new(alloc, shared.pass(rt)?);
    end_both(alloc, other, desk)
}

/// Serves the streams, and gives the lock up.
fn serve_and_close<L: Ledger>(
    rt: &(impl Wait + Abort),
    alloc: Global,
    shared: AuditedMount<L>,
) -> Result<(), Fail> {
    let given = serve_one_of_two(rt, alloc, &shared)?;
    close(rt, alloc, shared, given)
}

/// A desk is asked by frames, and notes each request that was answered.
fn serves<L: Ledger>(rt: &(impl Wait + Abort), alloc: Global, blank: Blank) -> Result<(), Fail>
    requires name { blank.name ≡ L.name }
    requires parts { blank.parts ≡ L.parts }
    requires whole { blank.parts ≡ 256 }
{
    let shared = opened::<L>(alloc, Store::new(alloc, GitNaming), Id::ZERO, blank)?;
    serve_and_close(rt, alloc, shared)
}

#[test]
fn frame_faults(rt: HostRuntime) -> Result<(), Fail> {
    serves::<Brand>(&rt, rt.alloc(), Blank::new(256))
}
