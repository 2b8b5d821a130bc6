//! Paths for the sockets of tests, and the files at them.

use eden_sockets::{Listener, Place, SocketPath};
use std::alloc::Global;
use std::fs;
use std::fs::Files;
use std::net::{Net, TcpListener, TcpStream};
use std::test::Fail;

/// Returns a path in the working folder that no other process takes meanwhile.
pub fn fresh_path<R: Net<Listener = TcpListener, Stream = TcpStream>>(
    rt: &R,
    alloc: Global,
) -> Result<SocketPath, Fail> {
    let listener = Listener::at_free_port(rt)?;
    let number = match listener.reached_at() {
        Place::Port(port) => port,
        Place::Socket(_) => 0,
    };
    Ok(SocketPath::new(format!(in alloc; "{number}.socket")?.as_str())?)
}

/// Returns which of the files of a socket are there: the socket, and the file of its lock.
pub fn files_of(rt: &impl Files, alloc: Global, path: SocketPath) -> Result<(bool, bool), Fail> {
    let path = path.as_str();
    let lock = format!(in alloc; "{path}.lock")?;
    Ok((fs::exists(rt, path)?, fs::exists(rt, lock.as_str())?))
}
