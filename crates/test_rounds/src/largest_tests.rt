//! A file as large as one may be, and one that is larger by a byte.

use crate::daemon::{Pair, Step, opened_mount};
use crate::rounds_tests::PLACED;
use crate::wanted::{Said, position};
use eden_accumulate::Mount;
use eden_history::ChangeFault;
use eden_ids::{GitNaming, Kind, Path};
use eden_messages::Outcome;
use eden_mirror::Mirror;
use eden_objects::{PutFault, Store};
use eden_query::{DecodeFault, decode_reply};
use std::alloc::Global;
use std::process::Abort;
use std::test::Fail;
use test_kit::path;

/// How many bytes a file has at the most.
const LARGEST: usize = 8_388_608;

/// As many bytes, the first and the last of them others than those in between.
fn largest(alloc: Global) -> Result<Vec<u8>, Fail> {
    let mut bytes = vec![in alloc; b'x'; LARGEST - 1]?;
    bytes.push(b'z')?;
    if let Some(first) = bytes.get_mut(0) {
        *first = b'a';
    }
    Ok(bytes)
}

/// The second round of a mirror that is told of one file.
const TOLD: &[Step] = &[
    Step::Begin,
    Step::Goes(Said::Created(2, (7, 2), "p"), Outcome::Taken),
];

/// Whether a mount takes these bytes as a plain file, and is at 7/2 then.
fn takes(mount: &mut Mount<GitNaming>, at: &Path, bytes: &[u8]) -> bool {
    mount.write(at, Kind::Plain, bytes) == Ok(position(7, 2))
}

/// Whether each reply to what is asked places the mirror.
fn places(pair: &mut Pair<Mount<GitNaming>>) -> Result<bool, Fail> {
    for reply in &pair.asked()? {
        if pair.delivered(reply)? != Outcome::Placed {
            return Ok(false);
        }
    }
    Ok(true)
}

/// Whether a mirror at 7/2 has a plain file of these bytes.
fn has_file(mirror: &Mirror, at: &Path, bytes: &[u8]) -> bool {
    let Some(read) = mirror.get(at) else {
        return false;
    };
    let here = mirror.position() == Some(position(7, 2));
    here && read.kind == Kind::Plain && read.bytes.as_slice() == bytes
}

/// Checks that a mirror follows a mount to which these bytes are written.
fn check_followed(
    rt: &impl Abort,
    pair: &mut Pair<Mount<GitNaming>>,
    at: &Path,
    bytes: &[u8],
) -> Result<(), Fail> {
    pair.goes(PLACED)?;
    assert!(rt; takes(&mut pair.daemon, at, bytes));
    pair.goes(TOLD)?;
    assert!(rt; places(pair)?);
    assert!(rt; has_file(&pair.mirror, at, bytes));
    Ok(())
}

#[test]
fn largest_content(rt: HostRuntime) -> Result<(), Fail> {
    let alloc = rt.alloc();
    let at = path(alloc, "p")?;
    let bytes = largest(alloc)?;
    assert_eq!(rt; bytes.len(), LARGEST);
    let mut pair = Pair::new(alloc, opened_mount(alloc)?);
    check_followed(&rt, &mut pair, &at, bytes.as_slice())
}

/// The body of a ContentIs with a plain file of these bytes at `p`, of which this is the count.
fn body_of(alloc: Global, count: u32, bytes: &[u8]) -> Result<Vec<u8>, Fail> {
    let mut body = Vec::new(alloc);
    body.extend_from_slice([2, 0x83].as_slice())?;
    for number in [1_u64, 1, 1, 7, 1] {
        body.extend_from_slice(&number.to_be_bytes())?;
    }
    body.extend_from_slice([0; 20].as_slice())?;
    body.extend_from_slice([0, 1, b'p', 1].as_slice())?;
    body.extend_from_slice(&count.to_be_bytes())?;
    body.extend_from_slice(bytes)?;
    Ok(body)
}

#[test]
fn larger_content(rt: HostRuntime) -> Result<(), Fail> {
    let alloc = rt.alloc();
    let mut bytes = largest(alloc)?;
    bytes.push(b'x')?;
    let body = body_of(alloc, 8_388_609, bytes.as_slice())?;
    let fault = decode_reply(alloc, body.as_slice()).err();
    assert_eq!(rt; fault, Some(DecodeFault::BadField));
    let at = path(alloc, "p")?;
    let mut mount = opened_mount(alloc)?;
    let written = mount.write(&at, Kind::Plain, bytes.as_slice());
    assert_eq!(rt; written, Err(ChangeFault::TooLarge));
    assert_eq!(rt; mount.position(), position(7, 1));
    let mut store = Store::new(alloc, GitNaming);
    assert_eq!(rt; store.put_blob(bytes.as_slice()), Err(PutFault::TooLarge));
    Ok(())
}
