//! Frames that change a mount at a desk, and the audit of what it notes.

ghost use Rattle.std.specs.Prelude.{◌≡◌};

use crate::audits::{AuditedMount, Ended, close, end_both, opened};
use crate::change_frame_tests::{CHANGES, Talk, add, all_changes, change_among_polls};
use crate::unlogged_frame_tests::{OF_X, SECOND};
use eden_ids::{GitNaming, Id};
use eden_objects::Store;
use eden_query::ServeFault;
use eden_shared::{Desk, OpenGate, serve_shared_writable};
use eden_stream::Counted;
use std::alloc::Global;
use std::marker::Brand;
use std::process::Abort;
use std::sync::Wait;
use std::sync::ledger::{Blank, Ledger};
use std::test::Fail;

/// Asks for a change between two polls, and then for a stat of the file that it wrote.
fn change_and_stat(alloc: Global) -> Result<Talk, Fail> {
    let mut talk = change_among_polls(alloc)?;
    add(alloc, &mut talk.asked, 0x08, &[&[0, 1, b'a']])?;
    let file = &[0, 1, b'a', 1, 1, 0, 0, 0, 1];
    add(
        alloc,
        &mut talk.said,
        0x88,
        &[&SECOND, &[0; 20], file, &OF_X],
    )?;
    Ok(talk)
}

/// Returns what a desk writes to a stream, and how that ends.
fn served<L: Ledger>(
    rt: &impl Wait,
    alloc: Global,
    shared: &AuditedMount<L>,
    desk: &mut Desk<L>,
    stream: &[u8],
) -> (Vec<u8>, Result<u64, ServeFault>) {
    let mut written = Vec::new(alloc);
    let mut reader = Counted::new(stream);
    let mut writer = Counted::new(&mut written);
    let end = serve_shared_writable(rt, alloc, &mut reader, &mut writer, shared, desk, &OpenGate);
    (written, end)
}

/// Serves a stream at one of two desks, and checks what is written.
fn talk_at_desk<L: Ledger>(
    rt: &(impl Wait + Abort),
    alloc: Global,
    shared: &AuditedMount<L>,
    talk: &Talk,
    frames: u64,
) -> Result<Ended<L>, Fail> {
    let mut desk = Desk::new(alloc, shared.pass(rt)?);
    let (text, end) = served(rt, alloc, shared, &mut desk, talk.asked.as_slice());
    assert_eq!(rt; end, Ok(frames));
    assert_eq!(rt; text, talk.said);
    let other = Desk::new(alloc, shared.pass(rt)?);
    end_both(alloc, other, desk)
}

/// Serves a stream at a desk, and audits what that has noted.
fn talk_and_close<L: Ledger>(
    rt: &(impl Wait + Abort),
    alloc: Global,
    shared: AuditedMount<L>,
    talk: &Talk,
    frames: u64,
) -> Result<(), Fail> {
    let given = talk_at_desk(rt, alloc, &shared, talk, frames)?;
    close(rt, alloc, shared, given)
}

/// Does so at a lock of its own.
fn is_audited<L: Ledger>(
    rt: &(impl Wait + Abort),
    alloc: Global,
    talk: &Talk,
    frames: u64,
    blank: Blank,
) -> Result<(), Fail>
    requires name { blank.name ≡ L.name }
    requires parts { blank.parts ≡ L.parts }
    requires whole { blank.parts ≡ 256 }
{
    let shared = opened::<L>(alloc, Store::new(alloc, GitNaming), Id::ZERO, blank)?;
    talk_and_close(rt, alloc, shared, talk, frames)
}

#[test]
fn desk_changes_over_frames(rt: HostRuntime) -> Result<(), Fail> {
    let talk = all_changes(rt.alloc(), true)?;
    let frames = CHANGES.len() as u64;
    is_audited::<Brand>(&rt, rt.alloc(), &talk, frames, Blank::new(256))
}

#[test]
fn desk_is_asked_among_changes(rt: HostRuntime) -> Result<(), Fail> {
    let talk = change_and_stat(rt.alloc())?;
    is_audited::<Brand>(&rt, rt.alloc(), &talk, 4, Blank::new(256))
}
