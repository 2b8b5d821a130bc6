//! A server whose lines go on for as long as its clients want.

use crate::asking::LINES;
use crate::feed::Feed;
use crate::served::serve_feed;
use eden_sockets::Listener;
use std::alloc::Global;
use std::net::{Net, TcpListener, TcpStream};
use std::sync::Wait;
use std::sync::atomic::AtomicBool;
use std::thread::Threads;
use std::time::Clock;

/// A script that mounts, and writes one small file.
pub(crate) const SCRIPT: &[u8] = b"mount empty 7 1000000\nwrite notes plain to\\sdo\nlisten\n";

/// What it prints.
pub(crate) const PRINTED: &[u8] = b"at 7 1 empty\nat 7 2 empty\n";

/// The number up to which it leads.
pub(crate) const SEQUENCE: u64 = 2;

/// Serves what a script opens to so many connections, and writes `w` meanwhile until the flag is set. Says whether that ends well, and this is
/// what is printed.
pub(crate) fn serve<
    R: Threads + Wait + Clock + Net<Listener = TcpListener, Stream = TcpStream> + Sync,
>(
    rt: &R,
    alloc: Global,
    script: &[u8],
    printed: &[u8],
    ended: &AtomicBool,
    listener: Listener,
    connections: u64,
) -> bool {
    let feed = Feed::new(rt, script, LINES, b"".as_slice(), ended);
    match serve_feed(rt, alloc, feed, listener, connections) {
        Some(output) => output.as_slice() == printed,
        None => false,
    }
}
