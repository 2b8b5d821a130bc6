//! A mount of which nothing is logged, behind a lock: what it writes, and where it ends.

use crate::mounts::position;
use eden_accumulate::Mount;
use eden_ids::GitNaming;
use eden_query::ServeFault;
use eden_shared::{Origin, Pass, Passes, Present, Unlogged, serve_unlogged};
use eden_stream::Counted;
use std::alloc::Global;
use std::process::Abort;
use std::sync::Wait;
use std::test::Fail;
use std::time::Clock;

/// A mount of which nothing is logged, behind a lock.
pub(crate) type UnloggedMount<L> = Unlogged<GitNaming, Mount<GitNaming>, L>;

/// Finishes the lock, whose mount has come to this number.
pub(crate) fn ends_at<L: Origin>(
    rt: &impl Abort,
    unlogged: UnloggedMount<L>,
    passes: Passes<L>,
    sequence: u64,
) -> Result<(), Fail> {
    let mount = unlogged.finish(passes)?;
    assert!(rt; mount.position() == position(sequence));
    Ok(())
}

/// Returns what the lock writes to a stream, and how that ends.
pub(crate) fn serve_stream<L: Origin, R: Wait + Clock>(
    rt: &R,
    alloc: Global,
    unlogged: &UnloggedMount<L>,
    writing: &mut Option<Pass<L>>,
    stream: &[u8],
) -> (Vec<u8>, Result<u64, ServeFault>) {
    let mut text = Vec::new(alloc);
    let mut reader = Counted::new(stream);
    let mut writer = Counted::new(&mut text);
    let end = serve_unlogged(
        rt,
        alloc,
        &mut reader,
        &mut writer,
        unlogged,
        writing,
        &Present,
    );
    (text, end)
}
