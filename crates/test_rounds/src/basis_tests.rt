//! A basis whose body is as long as a frame's may be, and one that would be longer.

use bytes::Bytes;
use eden_accumulate::Mount;
use eden_history::Change;
use eden_ids::{GitNaming, Id, Kind, Path};
use eden_objects::Store;
use eden_query::serve;
use eden_stream::Counted;
use std::alloc::Global;
use std::process::Abort;
use std::test::Fail;
use test_kit::{QUERY_BYTES as Q, joined};

/// How many files there are whose paths have 1,024 bytes.
const FILES: usize = 16_351;

/// A path of this many bytes: a number of five digits, and letters behind it.
fn long_path(alloc: Global, number: usize, bytes: usize) -> Result<Path, Fail> {
    let mut text = Vec::new(alloc);
    for digit in [
        number / 10_000,
        number / 1_000,
        number / 100,
        number / 10,
        number,
    ] {
        text.push(b'0' + (digit % 10) as u8)?;
    }
    for place in 5..bytes {
        text.push(if place % 250 == 249 { b'/' } else { b'a' })?;
    }
    Ok(Path::parse(alloc, text.as_slice())?)
}

fn write(alloc: Global, mount: &mut Mount<GitNaming>, path: Path) -> Result<(), Fail> {
    let change = Change::Write {
        path,
        kind: Kind::Plain,
        bytes: Bytes::new(),
    };
    let _ = mount.apply(&change)?;
    Ok(())
}

fn remove(mount: &mut Mount<GitNaming>, path: Path) -> Result<(), Fail> {
    let _ = mount.apply(&Change::Remove { path })?;
    Ok(())
}

/// What a mount writes to one frame, a basis of all paths.
fn replied(alloc: Global, mount: &mut Mount<GitNaming>) -> Result<Vec<u8>, Fail> {
    let basis = joined(alloc, &[&[0, 0, 0, 0x1b, 2, 1], &Q, &[0]])?;
    let mut written = Vec::new(alloc);
    let mut reader = Counted::new(basis.as_slice());
    let mut writer = Counted::new(&mut written);
    match serve(alloc, &mut reader, &mut writer, mount) {
        Ok(1) => Ok(written),
        _ => Err(Fail::new("one frame is not answered")),
    }
}

/// Whether a frame with this length of its body tells the paths of so many files at this sequence, of which the first is `first`.
fn is_basis(
    alloc: Global,
    frame: &[u8],
    length: [u8; 4],
    sequence: [u8; 2],
    count: [u8; 2],
    first: &Path,
) -> Result<bool, Fail> {
    let place = [0, 0, 0, 0, 0, 0, 0, 7, 0, 0, 0, 0, 0, 0];
    let head = joined(
        alloc,
        &[
            &length,
            &[2, 0x81],
            &Q,
            &place,
            &sequence,
            &[0; 20],
            &[0, 0],
            &count,
            &[4, 0],
            first.as_bytes(),
        ],
    )?;
    let whole = frame.len() == (u32::from_be_bytes(length) as usize) + 4;
    Ok(whole && frame.starts_with(head.as_slice()))
}

/// Whether a mount replies by a basis of this length, sequence and count.
///
/// Its first path is the first that was written.
fn replies_by_basis(
    alloc: Global,
    mount: &mut Mount<GitNaming>,
    length: [u8; 4],
    sequence: [u8; 2],
    count: [u8; 2],
) -> Result<bool, Fail> {
    let first = long_path(alloc, 0, 1024)?;
    let frame = replied(alloc, mount)?;
    is_basis(alloc, frame.as_slice(), length, sequence, count, &first)
}

/// Whether a mount refuses a basis as one that is too large.
fn refuses_basis(alloc: Global, mount: &mut Mount<GitNaming>) -> Result<bool, Fail> {
    let frame = replied(alloc, mount)?;
    let refused = joined(
        alloc,
        &[&[0, 0, 0, 0x23, 2, 0x84], &Q, &[4, 0, 0, 0, 0, 0, 0, 0, 0]],
    )?;
    Ok(frame.as_slice() == refused.as_slice())
}

/// Checks what a mount of the empty commit replies as it takes one long path after another.
fn check_bases(rt: &impl Abort, alloc: Global, mount: &mut Mount<GitNaming>) -> Result<(), Fail> {
    for number in 0..FILES {
        write(alloc, mount, long_path(alloc, number, 1024)?)?;
    }
    // 16,776,192 bytes: 66, and 1,026 for each path.
    assert!(rt; replies_by_basis(alloc, mount, [0, 0xff, 0xfc, 0], [0x3f, 0xe0], [0x3f, 0xdf])?);
    // 16,777,216 bytes, which is the most.
    write(alloc, mount, long_path(alloc, FILES, 1022)?)?;
    assert!(rt; replies_by_basis(alloc, mount, [1, 0, 0, 0], [0x3f, 0xe1], [0x3f, 0xe0])?);
    // Two bytes more.
    remove(mount, long_path(alloc, FILES, 1022)?)?;
    write(alloc, mount, long_path(alloc, FILES, 1024)?)?;
    assert!(rt; refuses_basis(alloc, mount)?);
    Ok(())
}

#[test]
fn largest_basis(rt: HostRuntime) -> Result<(), Fail> {
    let store = Store::new(rt.alloc(), GitNaming);
    let mut mount = Mount::mount(rt.alloc(), store, Id::ZERO, 7, 0)?;
    check_bases(&rt, rt.alloc(), &mut mount)
}
