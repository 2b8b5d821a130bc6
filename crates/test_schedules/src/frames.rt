//! What a mount replies to frames.

use eden_accumulate::Mount;
use eden_ids::GitNaming;
use eden_messages::{Reply, Request};
use eden_query::{decode_reply, encode_request, serve};
use eden_stream::Counted;
use std::alloc::Global;
use std::test::Fail;

/// Returns the frame of a request.
pub(crate) fn asked(alloc: Global, request: &Request) -> Result<Vec<u8>, Fail> {
    Ok(encode_request(alloc, request)?)
}

/// Returns what the mount writes to the bytes of one frame.
pub(crate) fn served(
    alloc: Global,
    mount: &mut Mount<GitNaming>,
    frame: &[u8],
) -> Result<Vec<u8>, Fail> {
    let mut written = Vec::new(alloc);
    let mut reader = Counted::new(frame);
    let mut writer = Counted::new(&mut written);
    let ended = serve(alloc, &mut reader, &mut writer, mount);
    if ended != Ok(1) {
        return Err(Fail::new(format_args!("serving a frame ended {ended:?}")));
    }
    Ok(written)
}

/// Returns the reply that a frame spells.
pub(crate) fn reply_in(alloc: Global, frame: &[u8]) -> Result<Reply, Fail> {
    match frame.get(4..) {
        Some(body) => Ok(decode_reply(alloc, body)?),
        None => Err(Fail::new("a reply without a length")),
    }
}

/// Returns what the mount replies, by frames, to a request.
pub(crate) fn replied(
    alloc: Global,
    mount: &mut Mount<GitNaming>,
    request: &Request,
) -> Result<Reply, Fail> {
    let frame = asked(alloc, request)?;
    let reply = served(alloc, mount, frame.as_slice())?;
    reply_in(alloc, reply.as_slice())
}
