//! A line between a follower and its service: frames, through two channels.

use crossbeam_channel::{Receiver, Sender};
use eden_ids::NoMemory;
use eden_messages::{Reply, Request};
use eden_wire::{DecodeFault, EncodeFault, decode_reply, encode_request};
use std::alloc::Global;
use std::sync::Wait;

/// Holds the frame of a reply, and the ticket of its request.
#[derive(Drop)]
pub(crate) struct TicketedReply {
    pub(crate) ticket: u64,
    pub(crate) frame: Vec<u8>,
}

/// Holds the follower's end.
#[derive(Drop)]
pub(crate) struct Caller {
    requests: Sender<Vec<u8>>,
    replies: Receiver<TicketedReply>,
}

/// Holds the service's end.
#[derive(Drop)]
pub(crate) struct Callee {
    pub(crate) requests: Receiver<Vec<u8>>,
    pub(crate) replies: Sender<TicketedReply>,
}

/// Returns a line between a follower and its service, with room for one frame each way.
pub(crate) fn open_line(alloc: Global) -> Result<(Caller, Callee), NoMemory> {
    let (asks, asked) = crossbeam_channel::bounded(alloc, 1)?;
    let (tells, told) = crossbeam_channel::bounded(alloc, 1)?;
    let caller = Caller {
        requests: asks,
        replies: told,
    };
    let callee = Callee {
        requests: asked,
        replies: tells,
    };
    Ok((caller, callee))
}

/// Returns what a frame has after the four bytes of its length.
pub(crate) fn body_of(frame: &[u8]) -> &[u8] {
    frame.get(4..).unwrap_or(&[])
}

impl Caller {
    /// Sends a request, and waits for its reply with the ticket.
    ///
    /// Returns `None` if the service has ended, or sends no reply.
    pub(crate) fn ask(
        &self,
        rt: &impl Wait,
        alloc: Global,
        request: &Request,
    ) -> Result<Option<(u64, Reply)>, NoMemory> {
        let frame = match encode_request(alloc, request) {
            Ok(frame) => frame,
            Err(EncodeFault::NoMemory) => return Err(NoMemory),
            // Each request has a frame.
            Err(EncodeFault::TooLarge) => unreachable!(),
        };
        if self.requests.send(rt, frame).is_err() {
            return Ok(None);
        }
        let Ok(told) = self.replies.recv(rt) else {
            return Ok(None);
        };
        match decode_reply(alloc, body_of(told.frame.as_slice())) {
            Ok(reply) => Ok(Some((told.ticket, reply))),
            Err(DecodeFault::NoMemory) => Err(NoMemory),
            Err(_) => Ok(None),
        }
    }
}
