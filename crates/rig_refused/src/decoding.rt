//! Bodies that are read, and spelled again.

use crate::refusals::{Refusals, again};
use anyhow::{Context, Result, bail};
use eden_messages::{Reply, Request};
use eden_query::{
    DecodeFault, EncodeFault, decode_reply, decode_request, encode_reply, encode_request,
};
use std::alloc::Global;
use test_kit::{REPLY_BODIES, REQUEST_BODIES, joined};

/// The request that a body spells.
pub(crate) fn request_of(alloc: Global, body: &[u8]) -> Result<Request, DecodeFault> {
    decode_request(alloc, body)
}

/// The reply that a body spells.
pub(crate) fn reply_of(alloc: Global, body: &[u8]) -> Result<Reply, DecodeFault> {
    decode_reply(alloc, body)
}

/// The frame of a request.
pub(crate) fn request_frame(alloc: Global, request: &Request) -> Result<Vec<u8>, EncodeFault> {
    encode_request(alloc, request)
}

/// The frame of a reply.
pub(crate) fn reply_frame(alloc: Global, reply: &Reply) -> Result<Vec<u8>, EncodeFault> {
    encode_reply(alloc, reply)
}

/// The request that a body spells, which is spelled again as it was.
fn read_request(alloc: Global, refusals: &mut Refusals, body: &[u8]) -> Result<()> {
    let request = again!(refusals, DecodeFault::NoMemory, request_of(alloc, body));
    let frame = again!(
        refusals,
        EncodeFault::NoMemory,
        request_frame(alloc, &request)
    );
    if frame.get(4..) != Some(body) {
        bail!("a request is spelled otherwise");
    }
    Ok(())
}

/// The reply that a body spells, which is spelled again as it was.
fn read_reply(alloc: Global, refusals: &mut Refusals, body: &[u8]) -> Result<()> {
    let reply = again!(refusals, DecodeFault::NoMemory, reply_of(alloc, body));
    let frame = again!(refusals, EncodeFault::NoMemory, reply_frame(alloc, &reply));
    if frame.get(4..) != Some(body) {
        bail!("a reply is spelled otherwise");
    }
    Ok(())
}

/// Why a body is no request.
fn request_fault(alloc: Global, refusals: &mut Refusals, body: &[u8]) -> Result<DecodeFault> {
    let fault = match request_of(alloc, body).err() {
        Some(DecodeFault::NoMemory) => {
            refusals.add();
            request_of(alloc, body).err()
        }
        fault => fault,
    };
    Ok(fault.context("what is no request is read")?)
}

/// Why a body is no reply.
fn reply_fault(alloc: Global, refusals: &mut Refusals, body: &[u8]) -> Result<DecodeFault> {
    let fault = match reply_of(alloc, body).err() {
        Some(DecodeFault::NoMemory) => {
            refusals.add();
            reply_of(alloc, body).err()
        }
        fault => fault,
    };
    Ok(fault.context("what is no reply is read")?)
}

/// Reads a known body, and with a byte more behind it.
fn read(
    rt: &HostRuntime,
    alloc: Global,
    refusals: &mut Refusals,
    parts: &[&[u8]],
    is_request: bool,
) -> Result<()> {
    let longer = again!(refusals, _, joined(alloc, parts));
    let longer = again!(refusals, _, joined(alloc, &[longer.as_slice(), &[0]]));
    let body = &longer[..longer.len().saturating_sub(1)];
    let fault = if is_request {
        read_request(alloc, refusals, body)?;
        request_fault(alloc, refusals, longer.as_slice())?
    } else {
        read_reply(alloc, refusals, body)?;
        reply_fault(alloc, refusals, longer.as_slice())?
    };
    println!(rt; "read, and {fault}")?;
    Ok(())
}

/// Reads the known bodies.
pub(crate) fn decode(rt: &HostRuntime) -> Result<u64> {
    let mut refusals = Refusals::new();
    for parts in &REQUEST_BODIES {
        read(rt, rt.alloc(), &mut refusals, parts, true)?;
    }
    for parts in &REPLY_BODIES {
        read(rt, rt.alloc(), &mut refusals, parts, false)?;
    }
    Ok(refusals.count())
}
