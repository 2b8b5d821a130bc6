//! Clients that check what they are told: of one file and of what changed, on one connection or on one after another.

use crate::asking::{BIG_SEQUENCE, QUERY, fetch_frame, poll_frame, told_up_to};
use crate::client::{ask, connect, read_reply};
use eden_ids::{Content, Kind};
use eden_messages::Reply;
use std::alloc::Global;
use std::io::{Read, Write};
use std::net::{Net, Shutdown, TcpStream};
use std::test::Fail;
use std::time::Clock;

/// What a client sends, and where the lines begin that change what it asks for.
#[derive(Drop)]
pub(crate) struct Frames {
    /// Whether `w` changed since the mount.
    pub(crate) poll: Vec<u8>,
    /// What stands at `notes`.
    pub(crate) notes: Vec<u8>,
    /// The number of the last event before those of `w`.
    pub(crate) begun: u64,
}

pub(crate) fn make_frames(alloc: Global, begun: u64) -> Result<Frames, Fail> {
    Ok(Frames {
        poll: poll_frame(alloc)?,
        notes: fetch_frame(alloc, "notes")?,
        begun,
    })
}

/// Whether a reply tells that `notes` is a plain file with this text.
fn tells_notes(reply: &Reply, text: &[u8]) -> bool {
    match reply {
        Reply::ContentIs {
            query,
            content: Some(Content { kind, bytes }),
            ..
        } => *query == QUERY && *kind == Kind::Plain && bytes.as_slice() == text,
        _ => false,
    }
}

/// Asks for `notes` and for the changes of `w`, and gives the number up to which they are told. None where a reply is not right.
pub(crate) fn ask_both(alloc: Global, stream: &TcpStream, frames: &Frames) -> Option<u64> {
    let notes = ask(alloc, stream, &frames.notes)?;
    if !tells_notes(&notes, b"to do") {
        return None;
    }
    told_up_to(&ask(alloc, stream, &frames.poll)?, frames.begun)
}

/// Sends a frame on a connection of its own, and gives the one reply.
fn ask_alone<R: Net<Stream = TcpStream> + Clock>(
    rt: &R,
    alloc: Global,
    port: u16,
    frame: &[u8],
) -> Option<Reply> {
    let mut stream = connect(rt, port)?;
    stream.write_all(frame).ok()?;
    stream.shutdown(Shutdown::Write).ok()?;
    let reply = read_reply(alloc, &stream)?;
    match stream.read(&mut [0]) {
        Ok(0) => Some(reply),
        _ => None,
    }
}

/// Polls so often, each time on another connection. Says whether each reply is right, and none is of an earlier state than the one before it.
pub(crate) fn poll_often<R: Net<Stream = TcpStream> + Clock>(
    rt: &R,
    alloc: Global,
    port: u16,
    frame: &[u8],
    times: u32,
) -> bool {
    let mut last = 1;
    for _ in 0..times {
        let Some(reply) = ask_alone(rt, alloc, port, frame) else {
            return false;
        };
        match told_up_to(&reply, BIG_SEQUENCE) {
            Some(sequence) if sequence >= last => last = sequence,
            _ => return false,
        }
    }
    true
}
