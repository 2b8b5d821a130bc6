//! One connection: frames of requests go out, and frames of replies come in.

ghost use Rattle.std.specs.Prelude.{◌≡◌, length, IfOk, OnOk};
ghost use Rattle.std.specs.Int.{w32, to_be_bytes};
ghost use Rattle.std.specs.Io.KnownBytes.{Consumes};
ghost use Rattle.eden_connect.specs.Connections.{Receives};
ghost use Rattle.eden_connect.specs.internal.Exchanges.{Exchanges, Gathers, Sends, request_frame};
ghost use Rattle.eden_connect.specs.internal.Talks.{HearsSome};

use crate::collector::Collector;
use crate::progress::Progress;
use crate::window::Window;
use eden_ids::NoMemory;
use eden_messages::{Reply, Request};
use eden_stream::BODY_LIMIT;
use eden_wire::{DecodeFault, EncodeFault, decode_reply, encode_request};
use std::alloc::{AllocError, Global};
use std::io::{Read, Write};

/// How many bytes of a body are read at once: 64 KiB. So a length alone takes no memory.
const PIECE: usize = 65_536;

/// Why an exchange over a connection did not end.
#[derive(Clone, Copy, Debug, PartialEq, Eq)]
pub(crate) enum LinkFault {
    /// The connection is lost, or what comes over it can't be read.
    Lost,
    /// An allocation failed.
    NoMemory,
}

impl From<NoMemory> for LinkFault {
    ghost use Rattle.std.specs.Prelude.{◌≡◌};
    ghost use Rattle.eden_connect.specs.declared.link.LinkFault.TheVariants.{NoMemory};

    ghost from_gives = { λ _ fault. fault ≡ NoMemory };

    fn from(_refused: NoMemory) -> LinkFault {
        LinkFault::NoMemory
    }
}

impl From<AllocError> for LinkFault {
    ghost use Rattle.std.specs.Prelude.{◌≡◌};
    ghost use Rattle.eden_connect.specs.declared.link.LinkFault.TheVariants.{NoMemory};

    ghost from_gives = { λ _ fault. fault ≡ NoMemory };

    fn from(_refused: AllocError) -> LinkFault {
        LinkFault::NoMemory
    }
}

/// The two directions of a connection.
#[derive(Drop)]
pub(crate) struct Link<I: Read, O: Write> {
    alloc: Global,
    pub(crate) reader: I,
    pub(crate) writer: O,
}

/// Returns the length that four bytes spell.
fn read_length(bytes: [u8; 4]) -> usize
    ensures { to_be_bytes w32 result ≡ bytes }
{
    u32::from_be_bytes(bytes) as usize
}

/// Fills a piece with the next bytes.
fn read_piece<I: Read>(reader: &mut I, piece: &mut [u8]) -> Result<(), LinkFault>
    ensures { OnOk result (Consumes (I.remaining reader.old) (I.remaining reader.new) piece.new) }
{
    match reader.read_exact(piece) {
        Ok(()) => Ok(()),
        Err(_) => Err(LinkFault::Lost),
    }
}

/// Reads N bytes, a piece at a time.
fn read_body<I: Read>(alloc: Global, reader: &mut I, len: usize) -> Result<Vec<u8>, LinkFault>
    ensures len { IfOk result (λ body. length body.items ≡ len) }
    ensures read { IfOk result (λ body. Consumes (I.remaining reader.old) (I.remaining reader.new) body.items) }
{
    let mut body = Vec::new(alloc);
    while body.len() < len {
        let start = body.len();
        let end = if len - start > PIECE {
            start + PIECE
        } else {
            len
        };
        body.resize(end, 0)?;
        read_piece(reader, &mut body[start..])?;
    }
    Ok(body)
}

/// Reads the next reply.
fn read_reply<I: Read>(alloc: Global, reader: &mut I) -> Result<Reply, LinkFault>
    ensures { IfOk result (λ reply. Receives (I.remaining reader.old) (I.remaining reader.new) reply) }
{
    let mut told = [0; 4];
    read_piece(reader, &mut told)?;
    let len = read_length(told);
    if len > BODY_LIMIT {
        return Err(LinkFault::Lost);
    }
    let body = read_body(alloc, reader, len)?;
    match decode_reply(alloc, body.as_slice()) {
        Ok(reply) => Ok(reply),
        Err(DecodeFault::NoMemory) => Err(LinkFault::NoMemory),
        Err(_) => Err(LinkFault::Lost),
    }
}

/// Returns the frame of a request.
fn frame_of(alloc: Global, request: &Request) -> Result<Vec<u8>, NoMemory>
    ensures { IfOk result (λ bytes. bytes.items ≡ request_frame request.now) }
{
    match encode_request(alloc, request) {
        Ok(bytes) => Ok(bytes),
        Err(EncodeFault::NoMemory) => Err(NoMemory),
        Err(EncodeFault::TooLarge) => unreachable!(),
    }
}

/// Appends the frames of the first requests to a text, as many as the window takes. Returns the
/// other requests.
fn gather<'a>(
    alloc: Global,
    window: &mut Window,
    requests: &'a [Request],
    text: &mut Vec<u8>,
) -> Result<&'a [Request], NoMemory>
    ensures { IfOk result (λ unsent. Gathers window.old window.new requests.now unsent.now text.old.items text.new.items) }
{
    let mut unsent = requests;
    while let Some((request, rest)) = unsent.split_first() {
        let size = 4 + request.body_len();
        if !window.fits(size) {
            break;
        }
        text.extend_from_slice(&frame_of(alloc, request)?)?;
        window.add(size)?;
        unsent = rest;
    }
    Ok(unsent)
}

impl<I: Read, O: Write> Link<I, O> {
    /// Returns the connection of a reader and a writer.
    pub(crate) fn new(alloc: Global, reader: I, writer: O) -> Link<I, O>
        ensures reader { result.reader ≡ reader }
        ensures writer { result.writer ≡ writer }
    {
        Link {
            alloc,
            reader,
            writer,
        }
    }

    /// Sends the first of these requests in one write, and returns the others.
    ///
    /// It sends as many as the window takes, and none while less than half of the window is free.
    fn send<'a>(
        &mut self,
        window: &mut Window,
        requests: &'a [Request],
    ) -> Result<&'a [Request], LinkFault>
        ensures sent { IfOk result (λ unsent. Sends window.old window.new requests.now unsent.now (O.contents self.old.writer) (O.contents self.new.writer)) }
        ensures unread { self.new.reader ≡ self.old.reader }
    {
        if !window.is_half_free() {
            return Ok(requests);
        }
        let mut text = Vec::new(self.alloc);
        let unsent = gather(self.alloc, window, requests, &mut text)?;
        match self.writer.write_all(text.as_slice()) {
            Ok(()) => Ok(unsent),
            Err(_) => Err(LinkFault::Lost),
        }
    }

    /// Sends requests, and delivers a reply for each as it comes. Returns whether one counted.
    pub(crate) fn exchange<P: Progress>(
        &mut self,
        requests: &[Request],
        collector: &mut Collector,
        progress: &mut P,
    ) -> Result<bool, LinkFault>
        ensures all { IfOk result (λ counted. Exchanges requests.now (O.contents self.old.writer) (O.contents self.new.writer)
            (I.remaining self.old.reader) (I.remaining self.new.reader) collector.old collector.new counted) }
        ensures heard { HearsSome (I.remaining self.old.reader) collector.old collector.new }
    {
        let named = collector.named(requests);
        let mut window = Window::new(self.alloc);
        let mut unsent = requests;
        let mut counted = false;
        for _ in 0..requests.len() {
            unsent = self.send(&mut window, unsent)?;
            let reply = read_reply(self.alloc, &mut self.reader)?;
            window.remove_first();
            counted |= collector.deliver(reply, named, progress)?;
        }
        Ok(counted)
    }
}
