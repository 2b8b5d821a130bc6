//! A connection, over TCP or a Unix socket.

ghost use Rattle.std.specs.Prelude.{◌≡◌, IsErr};
ghost use Rattle.std.specs.Duration.{as_nanos};
ghost use Rattle.std.specs.Io.{ReadsAtMost, WritesAtMost};

use std::io;
use std::io::{Read, Write};
use std::net::TcpStream;
use std::os::fd::OwnedFd;
use std::os::unix::net::UnixStream;
use std::time::Duration;

/// A connection. Both directions may be used at once, each by a reference.
#[derive(Drop)]
pub enum Stream {
    /// A connection to a port.
    Tcp(TcpStream),
    /// A connection to a Unix socket.
    Unix(UnixStream),
}

impl Stream {
    /// Returns a connection over TCP, in which a small text does not wait for more.
    ///
    /// If that option can't be set, the connection is slower.
    pub(crate) fn over_tcp(stream: TcpStream) -> Stream {
        let _ = stream.set_nodelay(true);
        Stream::Tcp(stream)
    }

    /// Has each read end after so long, as `WouldBlock`.
    ///
    /// # Errors
    ///
    /// What the system says, and `InvalidInput` if the time is zero.
    pub fn set_read_patience(&self, patience: Duration) -> io::Result<()>
        ensures { as_nanos patience ≡ 0 → IsErr result }
    {
        match self {
            Stream::Tcp(stream) => stream.set_read_timeout(Some(patience)),
            Stream::Unix(stream) => stream.set_read_timeout(Some(patience)),
        }
    }

    /// Has each write end after so long, as `WouldBlock`.
    ///
    /// # Errors
    ///
    /// What the system says, and `InvalidInput` if the time is zero.
    pub fn set_write_patience(&self, patience: Duration) -> io::Result<()>
        ensures { as_nanos patience ≡ 0 → IsErr result }
    {
        match self {
            Stream::Tcp(stream) => stream.set_write_timeout(Some(patience)),
            Stream::Unix(stream) => stream.set_write_timeout(Some(patience)),
        }
    }

    /// Has each read and each write end after so long, as `WouldBlock`.
    ///
    /// # Errors
    ///
    /// What the system says, and `InvalidInput` if the time is zero.
    pub fn set_patience(&self, patience: Duration) -> io::Result<()>
        ensures { as_nanos patience ≡ 0 → IsErr result }
    {
        self.set_read_patience(patience)?;
        self.set_write_patience(patience)
    }

    /// Reads as `read` does, and leaves the bytes for the next call.
    ///
    /// # Errors
    ///
    /// As those of `read`.
    pub fn peek(&self, buf: &mut [u8]) -> io::Result<usize>
        ensures { ReadsAtMost result buf.new }
    {
        match self {
            Stream::Tcp(stream) => stream.peek(buf),
            // std's Unix streams can't peek, and its TCP streams do so at any socket.
            Stream::Unix(stream) => {
                let handle = OwnedFd::from(stream.try_clone()?);
                TcpStream::from(handle).peek(buf)
            }
        }
    }

    /// Returns another handle of the same connection.
    ///
    /// # Errors
    ///
    /// What the system says, if it has no more handles.
    pub fn try_clone(&self) -> io::Result<Stream> {
        match self {
            Stream::Tcp(stream) => Ok(Stream::Tcp(stream.try_clone()?)),
            Stream::Unix(stream) => Ok(Stream::Unix(stream.try_clone()?)),
        }
    }

    fn receive(&self, buf: &mut [u8]) -> io::Result<usize>
        ensures { ReadsAtMost result buf.new }
    {
        match self {
            Stream::Tcp(stream) => read_from(stream, buf),
            Stream::Unix(stream) => read_from(stream, buf),
        }
    }

    fn send(&self, buf: &[u8]) -> io::Result<usize>
        ensures { WritesAtMost result buf.now }
    {
        match self {
            Stream::Tcp(stream) => write_to(stream, buf),
            Stream::Unix(stream) => write_to(stream, buf),
        }
    }
}

/// Reads once from a reader that is held by value.
fn read_from<R: Read + Drop>(mut reader: R, buf: &mut [u8]) -> io::Result<usize>
    ensures { ReadsAtMost result buf.new }
{
    reader.read(buf)
}

/// Writes once to a writer that is held by value.
fn write_to<W: Write + Drop>(mut writer: W, buf: &[u8]) -> io::Result<usize>
    ensures { WritesAtMost result buf.now }
{
    writer.write(buf)
}

impl Read for &Stream {
    fn read(&mut self, buf: &mut [u8]) -> io::Result<usize> {
        self.receive(buf)
    }
}

impl Write for &Stream {
    fn write(&mut self, buf: &[u8]) -> io::Result<usize> {
        self.send(buf)
    }

    // Nothing is kept back.
    fn flush(&mut self) -> io::Result<()> {
        Ok(())
    }
}

impl Read for Stream {
    fn read(&mut self, buf: &mut [u8]) -> io::Result<usize> {
        self.receive(buf)
    }
}

impl Write for Stream {
    fn write(&mut self, buf: &[u8]) -> io::Result<usize> {
        self.send(buf)
    }

    // Nothing is kept back.
    fn flush(&mut self) -> io::Result<()> {
        Ok(())
    }
}
