//! Connections that are open at once, and a writer meanwhile.

use crate::checking::{Frames, ask_both, make_frames};
use crate::client::{connect, listen, port_of};
use crate::serving::{PRINTED, SCRIPT, SEQUENCE, serve};
use eden_edend::{LineInput, Objects, run_to_listen};
use eden_serve::{DaemonFault, Desks, Listening, Unobserved, Until, serve_listener};
use eden_stream::Counted;
use std::alloc::Global;
use std::net::{Net, TcpListener, TcpStream};
use std::sync::Wait;
use std::sync::atomic::{AtomicBool, Ordering};
use std::test::Fail;
use std::thread;
use std::thread::Threads;
use std::time::Clock;

/// Opens so many connections.
fn connect_all<R: Net<Stream = TcpStream> + Clock>(
    rt: &R,
    alloc: Global,
    port: u16,
    count: u64,
) -> Option<Vec<TcpStream>> {
    let mut streams = Vec::new(alloc);
    for _ in 0..count {
        streams.push(connect(rt, port)?).ok()?;
    }
    Some(streams)
}

/// Asks on each of the connections, on the last of them first, so that all are open at once. Says whether each reply is right, and of no earlier
/// state than the one before it.
fn ask_all(alloc: Global, streams: &[TcpStream], frames: &Frames) -> bool {
    let mut last = 1;
    for stream in streams.iter().rev() {
        match ask_both(alloc, stream, frames) {
            Some(sequence) if sequence >= last => last = sequence,
            _ => return false,
        }
    }
    true
}

/// Opens so many connections, asks on each of them twice, and closes them. Then the writer is to end.
fn run_clients<R: Net<Stream = TcpStream> + Clock>(
    rt: &R,
    alloc: Global,
    port: u16,
    count: u64,
    frames: &Frames,
    ended: &AtomicBool,
) -> bool {
    let right = match connect_all(rt, alloc, port, count) {
        Some(streams) => {
            ask_all(alloc, streams.as_slice(), frames) && ask_all(alloc, streams.as_slice(), frames)
        }
        None => false,
    };
    ended.store(true, Ordering::SeqCst);
    right
}

/// Whether so many clients are served at once.
fn are_served<R: Threads + Wait + Clock + Net<Listener = TcpListener, Stream = TcpStream> + Sync>(
    rt: &R,
    alloc: Global,
    count: u64,
    frames: &Frames,
) -> Result<bool, Fail> {
    let listener = listen(rt)?;
    let port = port_of(&listener);
    let ended = AtomicBool::new(false);
    let (served, right) = thread::join(
        rt,
        || serve(rt, alloc, SCRIPT, PRINTED, &ended, listener, count),
        || run_clients(rt, alloc, port, count, frames, &ended),
    );
    Ok(served && right)
}

#[test]
fn connections_at_once(rt: HostRuntime) -> Result<(), Fail> {
    let frames = make_frames(rt.alloc(), SEQUENCE)?;
    for count in [1, 8, 64] {
        assert!(rt; are_served(&rt, rt.alloc(), count, &frames)?, "{count}");
    }
    Ok(())
}

/// Serves a mount over a listener that accepts nothing, and gives how that ends.
fn refused<R: Threads + Wait + Clock + Net<Listener = TcpListener, Stream = TcpStream> + Sync>(
    rt: &R,
    alloc: Global,
    connections: u64,
    output: &mut Vec<u8>,
) -> Result<Result<(), DaemonFault>, Fail> {
    let listener = listen(rt)?;
    listener.stop()?;
    let mut input = Counted::new(LineInput::new(alloc, SCRIPT)?);
    let mut unread = Counted::new(Vec::new(alloc));
    let opened = run_to_listen(alloc, Objects::new(alloc), &mut input, &mut unread)?;
    let listening = Listening { opened, listener };
    let until = Until::Connections(Desks {
        count: connections,
        writable: false,
    });
    let mut writer = Counted::new(output);
    Ok(serve_listener(
        rt,
        alloc,
        listening,
        until,
        &mut input,
        &mut writer,
        &Unobserved,
    ))
}

/// How many connections, and what comes of them where none is accepted. A lock has 255 callers, of whom one is the writer.
const REFUSED: &[(u64, Result<(), DaemonFault>, &[u8])] = &[
    (0, Ok(()), b"audit ok\n"),
    (3, Ok(()), b"audit ok\n"),
    (254, Ok(()), b"audit ok\n"),
    (255, Err(DaemonFault::NoConnection), b""),
];

#[test]
fn refused_connections_count(rt: HostRuntime) -> Result<(), Fail> {
    for (count, end, text) in REFUSED {
        let mut output = Vec::new(rt.alloc());
        let served = refused(&rt, rt.alloc(), *count, &mut output)?;
        assert_eq!(rt; served, *end);
        assert_eq!(rt; output.as_slice(), *text);
    }
    Ok(())
}
