//! Where a daemon is reached.

use crate::binding::remove;
use crate::socket_path::SocketPath;
use crate::stream::Stream;
use std::fs::{File, Files};
use std::io;
use std::net::{Ipv4Addr, Net, TcpStream};
use std::os::unix::net::UnixStream;

/// Where a daemon is reached.
#[derive(Clone, Copy)]
pub enum Place {
    /// A port of 127.0.0.1, to which whoever has an account on the machine can connect.
    Port(u16),
    /// A Unix socket, to which its owner alone can connect.
    Socket(SocketPath),
}

impl Place {
    /// Opens a connection to who listens here.
    ///
    /// # Errors
    ///
    /// What the system says, `ConnectionRefused` if nobody listens, and `NotFound` if there is no
    /// such socket.
    pub fn connect<R: Net<Stream = TcpStream>>(&self, rt: &R) -> io::Result<Stream> {
        match self {
            Place::Port(port) => {
                let stream = TcpStream::connect(rt, (Ipv4Addr::LOCALHOST, *port))?;
                Ok(Stream::over_tcp(stream))
            }
            Place::Socket(path) => Ok(Stream::Unix(UnixStream::connect(rt, path.as_str())?)),
        }
    }

    /// Removes a socket at which nobody listens, and the file of its lock.
    ///
    /// A port has no files. If somebody listens at the socket or is about to, or if the system
    /// refuses it, both files stay. A file that is no socket stays.
    pub fn remove_files<R: Files<File = File> + Net>(&self, rt: &R) {
        match self {
            Place::Port(_) => {}
            Place::Socket(path) => {
                let _ = remove(rt, *path);
            }
        }
    }
}
