//! A daemon that serves a number of connections and audits what they were told.

use crate::feed::Feed;
use eden_edend::{LineInput, Objects, run_to_listen};
use eden_serve::{Desks, Listening, Unobserved, Until, serve_listener};
use eden_sockets::Listener;
use eden_stream::Counted;
use std::alloc::Global;
use std::net::{Net, TcpListener, TcpStream};
use std::sync::Wait;
use std::thread::Threads;
use std::time::Clock;

/// Serves what a script opens to this many connections, while the lines after `listen` change it.
///
/// Returns what was written before the line that says that the audit agrees, and `None` if the
/// daemon does not end well.
pub fn serve_feed<
    R: Threads + Wait + Clock + Net<Listener = TcpListener, Stream = TcpStream> + Sync,
>(
    rt: &R,
    alloc: Global,
    feed: Feed<'_, R>,
    listener: Listener,
    connections: u64,
) -> Option<Vec<u8>> {
    let mut input = Counted::new(LineInput::new(alloc, feed).ok()?);
    let mut output = Vec::new(alloc);
    let mut writer = Counted::new(&mut output);
    let opened = run_to_listen(alloc, Objects::new(alloc), &mut input, &mut writer).ok()?;
    let listening = Listening { opened, listener };
    let until = Until::Connections(Desks {
        count: connections,
        writable: false,
    });
    serve_listener(
        rt,
        alloc,
        listening,
        until,
        &mut input,
        &mut writer,
        &Unobserved,
    )
    .ok()?;
    let printed = output.strip_suffix(b"audit ok\n".as_slice())?.len();
    output.truncate(printed);
    Some(output)
}
