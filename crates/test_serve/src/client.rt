//! A client that sends one frame and reads the reply.

use crate::asking::QUERY;
use eden_messages::Reply;
use eden_sockets::{ListenFault, Listener, Place};
use eden_wire::{Done, decode_done, decode_reply};
use std::alloc::Global;
use std::io::{Read, Write};
use std::net::{Ipv4Addr, Net, TcpListener, TcpStream};
use std::thread;
use std::time::{Clock, Duration};

/// For how many milliseconds at most somebody waits for a port to be listened at.
const PATIENCE: u32 = 10_000;

/// A listener on a port of this machine that nobody listened at.
pub fn listen<R: Net<Listener = TcpListener, Stream = TcpStream>>(
    rt: &R,
) -> Result<Listener, ListenFault> {
    Listener::at_free_port(rt)
}

/// The port of a listener, and 0 if it listens at no port.
pub fn port_of(listener: &Listener) -> u16 {
    match listener.reached_at() {
        Place::Port(port) => port,
        Place::Socket(_) => 0,
    }
}

/// A port of this machine that nobody listens at.
pub fn free_port<R: Net<Listener = TcpListener, Stream = TcpStream>>(
    rt: &R,
) -> Result<u16, ListenFault> {
    Ok(port_of(&listen(rt)?))
}

/// A connection to a port of this machine, once somebody listens there, ten seconds from now at the most.
pub fn connect<R: Net<Stream = TcpStream> + Clock>(rt: &R, port: u16) -> Option<TcpStream> {
    for _ in 0..PATIENCE {
        if let Ok(stream) = TcpStream::connect(rt, (Ipv4Addr::LOCALHOST, port)) {
            let _ = stream.set_nodelay(true);
            return Some(stream);
        }
        thread::sleep(rt, Duration::from_millis(1));
    }
    None
}

/// Reads the body of one frame, if a whole frame comes.
fn read_body(alloc: Global, mut stream: &TcpStream) -> Option<Vec<u8>> {
    let mut length = [0; 4];
    stream.read_exact(&mut length).ok()?;
    let length = u32::from_be_bytes(length) as usize;
    let mut body = vec![in alloc; 0; length].ok()?;
    stream.read_exact(&mut body).ok()?;
    Some(body)
}

/// Reads one reply. None where no whole frame comes, or where it is none of a reply.
pub fn read_reply(alloc: Global, stream: &TcpStream) -> Option<Reply> {
    decode_reply(alloc, &read_body(alloc, stream)?).ok()
}

/// Sends the frame of a change, and reads what is answered, if anything is.
pub(crate) fn ask_change(alloc: Global, mut stream: &TcpStream, frame: &[u8]) -> Option<Done> {
    stream.write_all(frame).ok()?;
    let (query, done) = decode_done(alloc, &read_body(alloc, stream)?).ok()?;
    (query == QUERY).then_some(done)
}

/// Sends a frame, and reads the reply to it.
pub fn ask(alloc: Global, mut stream: &TcpStream, frame: &[u8]) -> Option<Reply> {
    stream.write_all(frame).ok()?;
    read_reply(alloc, stream)
}
