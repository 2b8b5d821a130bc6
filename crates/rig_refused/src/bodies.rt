//! Bodies that are drawn by lot, most of which are no message.

use crate::decoding::{reply_frame, reply_of, request_frame, request_of};
use crate::mounted::empty_mount;
use anyhow::{Result, bail};
use eden_accumulate::Mount;
use eden_ids::GitNaming;
use eden_query::{DecodeFault, ServeFault, serve};
use eden_stream::Counted;
use std::alloc::Global;
use test_kit::{Bodies, framed};

/// Whether bytes are read as a request, which is spelled again by them.
fn is_request(alloc: Global, body: &[u8]) -> Result<bool> {
    match request_of(alloc, body) {
        Ok(request) => {
            if request_frame(alloc, &request)?.get(4..) != Some(body) {
                bail!("a request is spelled otherwise");
            }
            Ok(true)
        }
        Err(DecodeFault::NoMemory) => bail!("no memory"),
        Err(_) => Ok(false),
    }
}

/// Bytes are no reply, or one that is spelled again by them.
fn read_reply(alloc: Global, body: &[u8]) -> Result<()> {
    match reply_of(alloc, body) {
        Ok(reply) => {
            if reply_frame(alloc, &reply)?.get(4..) != Some(body) {
                bail!("a reply is spelled otherwise");
            }
            Ok(())
        }
        Err(DecodeFault::NoMemory) => bail!("no memory"),
        Err(_) => Ok(()),
    }
}

/// How the serving of one frame ends.
fn end_of(alloc: Global, mount: &mut Mount<GitNaming>, frame: &[u8]) -> Result<u64, ServeFault> {
    let mut text = Vec::new(alloc);
    let mut reader = Counted::new(frame);
    let mut writer = Counted::new(&mut text);
    serve(alloc, &mut reader, &mut writer, mount)
}

/// Reads a body as a request and as a reply, and serves its frame.
fn read(alloc: Global, mount: &mut Mount<GitNaming>, body: Vec<u8>) -> Result<()> {
    let is_request = is_request(alloc, body.as_slice())?;
    read_reply(alloc, body.as_slice())?;
    let frame = framed(alloc, body.as_slice())?;
    drop(body);
    match end_of(alloc, mount, frame.as_slice()) {
        Ok(1) if is_request => Ok(()),
        Err(ServeFault::Frame { number: 1, .. }) if !is_request => Ok(()),
        ended => bail!("a frame is served so: {ended:?}"),
    }
}

/// Draws so many bodies of at most this length, and reads each of them.
pub(crate) fn read_bodies(rt: &HostRuntime, count: u64, length: usize) -> Result<()> {
    let alloc = rt.alloc();
    let mut mount = empty_mount(alloc)?;
    let mut bodies = Bodies::new(7);
    for _ in 0..count {
        let body = bodies.body(alloc, length)?;
        read(alloc, &mut mount, body)?;
    }
    println!(rt; "{count} bodies")?;
    Ok(())
}
