//! The service of a follower: a desk that is asked by frames.

use crate::line::{Callee, TicketedReply, body_of};
use crate::threads::AuditedMount;
use eden_ids::NoMemory;
use eden_shared::{CallLog, Desk, OpenGate, Pass};
use eden_wire::{DecodeFault, append_reply, decode_request};
use std::alloc::Global;
use std::sync::Wait;
use std::sync::ledger::Ledger;

/// Holds what the thread of a service begins with.
#[derive(Drop)]
pub(crate) struct Service<L: Ledger> {
    pub(crate) desk: Desk<L>,
    pub(crate) line: Callee,
}

/// Asks the desk what a frame spells. Returns `None` if the frame spells no request.
fn answer_frame<L: Ledger>(
    rt: &impl Wait,
    alloc: Global,
    shared: &AuditedMount<L>,
    desk: &mut Desk<L>,
    frame: &[u8],
) -> Result<Option<TicketedReply>, NoMemory> {
    let request = match decode_request(alloc, body_of(frame)) {
        Ok(request) => request,
        Err(DecodeFault::NoMemory) => return Err(NoMemory),
        Err(_) => return Ok(None),
    };
    let (ticket, reply) = desk.ask(rt, shared, &request, &OpenGate)?;
    let mut frame = Vec::new(alloc);
    append_reply(&mut frame, &reply)?;
    Ok(Some(TicketedReply { ticket, frame }))
}

/// Answers frames until no more can come.
fn answer_frames<L: Ledger>(
    rt: &impl Wait,
    alloc: Global,
    shared: &AuditedMount<L>,
    desk: &mut Desk<L>,
    line: &Callee,
) -> Result<(), NoMemory> {
    for frame in line.requests.iter(rt) {
        let Some(told) = answer_frame(rt, alloc, shared, desk, frame.as_slice())? else {
            return Ok(());
        };
        if line.replies.send(rt, told).is_err() {
            return Ok(());
        }
    }
    Ok(())
}

/// Serves a follower until it ends.
pub(crate) fn serve<L: Ledger>(
    rt: &impl Wait,
    alloc: Global,
    shared: &AuditedMount<L>,
    service: Service<L>,
) -> Result<(Pass<L>, CallLog), NoMemory> {
    let Service { mut desk, line } = service;
    answer_frames(rt, alloc, shared, &mut desk, &line)?;
    Ok(desk.finish())
}
