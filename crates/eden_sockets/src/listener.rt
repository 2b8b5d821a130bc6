//! What accepts connections.

ghost use Rattle.std.specs.Prelude.{◌≡◌, ℕ, IfOk};

use crate::binding::{Bound, bind};
use crate::place::Place;
use crate::socket_path::SocketPath;
use crate::stream::Stream;
use std::fs::{File, Files};
use std::io;
use std::io::ErrorKind;
use std::marker::Model;
use std::net::{Ipv4Addr, Net, Shutdown, TcpListener, TcpStream};
use std::os::fd::OwnedFd;
use thiserror::Error;

/// Why nobody can listen at a place.
#[derive(Clone, Copy, Debug, Error)]
pub enum ListenFault {
    /// Somebody listens there, or a file that is no socket is there.
    // As Linux says it of a port.
    #[error("Address already in use (os error 98)")]
    InUse,
    /// What the system says.
    #[error("{0}")]
    System(io::Error),
}

impl From<io::Error> for ListenFault {
    ghost use Rattle.eden_sockets.specs.Faults.{IsFaultOf};

    ghost from_gives = { IsFaultOf };

    fn from(error: io::Error) -> ListenFault {
        if error.kind() == ErrorKind::AddrInUse {
            ListenFault::InUse
        } else {
            ListenFault::System(error)
        }
    }
}

/// The kinds of what accepts.
#[derive(Drop)]
enum Acceptor {
    Port(TcpListener),
    Socket(Bound),
}

/// What accepts connections at a place.
#[derive(Drop)]
pub struct Listener {
    acceptor: Acceptor,
    place: Place,
}

impl Model for Listener {
    ghost use Rattle.eden_sockets.specs.declared.place.Place.{Place};

    ghost Value = { Place };

    ghost view = { λ listener. listener.place };
}

impl Listener {
    /// Listens on a port of 127.0.0.1.
    ///
    /// # Errors
    ///
    /// - `InUse` if another program listens there.
    /// - `System` if the system refuses it for another reason.
    pub fn at_port<R: Net<Listener = TcpListener, Stream = TcpStream>>(
        rt: &R,
        port: u16,
    ) -> Result<Listener, ListenFault>
        ensures { IfOk result (λ listener. listener ≡ Place.Port port) }
    {
        Ok(Listener {
            acceptor: Acceptor::Port(TcpListener::bind(rt, (Ipv4Addr::LOCALHOST, port))?),
            place: Place::Port(port),
        })
    }

    /// Listens on a port of 127.0.0.1 that the system chooses, at which nobody listens.
    ///
    /// # Errors
    ///
    /// `System` if the system refuses it.
    pub fn at_free_port<R: Net<Listener = TcpListener, Stream = TcpStream>>(
        rt: &R,
    ) -> Result<Listener, ListenFault>
        ensures { IfOk result (λ listener. (port : ℕ) × (listener ≡ Place.Port port)) }
    {
        let listener = TcpListener::bind(rt, (Ipv4Addr::LOCALHOST, 0))?;
        let place = Place::Port(listener.local_addr()?.port());
        Ok(Listener {
            acceptor: Acceptor::Port(listener),
            place,
        })
    }

    /// Listens at a Unix socket that is made here, to which its owner alone can connect.
    ///
    /// The file has mode 0600 from its first moment on. A socket that is there and at which nobody
    /// listens gives way, and the path is never without a file meanwhile. While it listens it holds
    /// a lock of the file `PATH.lock`. Both files stay when it ends, until `Place::remove_files` or
    /// the next one who listens.
    ///
    /// # Errors
    ///
    /// - `InUse` if a program listens there, is about to, or has just ended, or if a file that is no
    ///   socket is there.
    /// - `System` if the system refuses it for another reason.
    pub fn at_path<R: Files<File = File> + Net>(
        rt: &R,
        path: SocketPath,
    ) -> Result<Listener, ListenFault>
        ensures { IfOk result (λ listener. listener ≡ Place.Socket path) }
    {
        Ok(Listener {
            acceptor: Acceptor::Socket(bind(rt, path)?),
            place: Place::Socket(path),
        })
    }

    /// Listens at a place, as `at_port` or `at_path` does.
    ///
    /// # Errors
    ///
    /// As those of `at_port` and `at_path`.
    pub fn open<R: Files<File = File> + Net<Listener = TcpListener, Stream = TcpStream>>(
        rt: &R,
        place: Place,
    ) -> Result<Listener, ListenFault>
        ensures { IfOk result (λ listener. listener ≡ place) }
    {
        match place {
            Place::Port(port) => Listener::at_port(rt, port),
            Place::Socket(path) => Listener::at_path(rt, path),
        }
    }

    /// Returns where it listens.
    pub fn reached_at(&self) -> Place
        ensures { result ≡ self.now }
    {
        self.place
    }

    /// Waits for the next connection.
    ///
    /// # Errors
    ///
    /// What the system says, and `InvalidInput` once it is stopped.
    pub fn accept(&self) -> io::Result<Stream> {
        match &self.acceptor {
            Acceptor::Port(listener) => {
                let (stream, _) = listener.accept()?;
                Ok(Stream::over_tcp(stream))
            }
            Acceptor::Socket(bound) => {
                let (stream, _) = bound.listener.accept()?;
                Ok(Stream::Unix(stream))
            }
        }
    }

    /// Has each `accept` end with an error, also those that wait in other threads.
    ///
    /// # Errors
    ///
    /// What the system says, also if it is stopped already.
    pub fn stop(&self) -> io::Result<()> {
        let handle = match &self.acceptor {
            Acceptor::Port(listener) => OwnedFd::from(listener.try_clone()?),
            Acceptor::Socket(bound) => OwnedFd::from(bound.listener.try_clone()?),
        };
        // std's listeners can't be shut down, and its TCP streams do so at any socket.
        TcpStream::from(handle).shutdown(Shutdown::Both)
    }
}
