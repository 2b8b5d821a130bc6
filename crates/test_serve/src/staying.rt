//! A daemon that serves until its input ends.

use eden_edend::Objects;
use eden_serve::{Daemon, DaemonFault, ScriptInput, Terms, Unobserved, Until, run_daemon};
use eden_sockets::Place;
use eden_stream::CountedWrite;
use std::alloc::Global;
use std::fs::{File, Files};
use std::io::Read;
use std::net::{Net, TcpListener, TcpStream};
use std::sync::Wait;
use std::thread::Threads;
use std::time::{Clock, Duration};

/// How many seconds a peer may take for a frame or a reply.
const LIMIT: u64 = 10;

/// Runs a script, and serves its mount in this many threads until the script ends.
///
/// Clients may change the mount if it is writable.
pub fn stay<
    R: Threads
        + Wait
        + Clock
        + Files<File = File>
        + Net<Listener = TcpListener, Stream = TcpStream>
        + Sync,
    I: Read + Send + Drop,
    W: CountedWrite,
>(
    rt: &R,
    alloc: Global,
    script: I,
    writer: &mut W,
    port: u16,
    threads: u64,
    writable: bool,
) -> Result<(), DaemonFault> {
    let mut input = ScriptInput::new(alloc, script)?;
    let daemon = Daemon {
        objects: Objects::new(alloc),
        place: Place::Port(port),
        until: Until::Input(Terms {
            threads,
            limit: Duration::from_secs(LIMIT),
            writable,
        }),
    };
    run_daemon(rt, alloc, daemon, &mut input, writer, &Unobserved)
}
