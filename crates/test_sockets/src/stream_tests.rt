//! What two ends of a connection hear of each other.

use crate::files::fresh_path;
use eden_sockets::{Listener, Place, Stream};
use std::io::{ErrorKind, Read, Write};
use std::net::{Net, TcpStream};
use std::test::Fail;
use std::thread::Threads;
use std::time::{Clock, Duration};
use std::{io, thread};

/// Whether nothing can be read for a moment.
fn is_quiet(stream: &Stream) -> io::Result<bool> {
    stream.set_patience(Duration::from_millis(1))?;
    let seen = stream.peek(&mut [0]);
    stream.set_patience(Duration::from_secs(10))?;
    Ok(matches!(seen, Err(error) if error.kind() == ErrorKind::WouldBlock))
}

/// Whether a text that one end sends is seen and then read at the other.
fn is_heard(from: &Stream, to: &Stream, text: [u8; 4]) -> io::Result<bool> {
    let mut writer = from;
    writer.write_all(&text)?;
    let mut seen = [0];
    let count = to.peek(&mut seen)?;
    let mut heard = [0; 4];
    let mut reader = to;
    reader.read_exact(&mut heard)?;
    Ok(count == 1 && seen[0] == text[0] && heard == text)
}

/// Whether both ends of a new connection hear each other, and one hears that the other has ended.
fn talks<R: Net<Stream = TcpStream>>(rt: &R, listener: &Listener) -> io::Result<bool> {
    let asking = listener.reached_at().connect(rt)?;
    let asked = listener.accept()?;
    let quiet = is_quiet(&asked)?;
    let heard = is_heard(&asking, &asked, *b"ping")?;
    let answered = is_heard(&asked, &asking.try_clone()?, *b"pong")?;
    drop(asking);
    Ok(quiet && heard && answered && asked.peek(&mut [0])? == 0)
}

#[test]
fn ports(rt: HostRuntime) -> Result<(), Fail> {
    let listener = Listener::at_free_port(&rt)?;
    assert!(rt; talks(&rt, &listener)?);
    assert!(rt; Listener::open(&rt, listener.reached_at()).is_err());
    Ok(())
}

#[test]
fn sockets(rt: HostRuntime) -> Result<(), Fail> {
    let path = fresh_path(&rt, rt.alloc())?;
    let listener = Listener::open(&rt, Place::Socket(path))?;
    assert!(rt; talks(&rt, &listener)?);
    drop(listener);
    Place::Socket(path).remove_files(&rt);
    Ok(())
}

/// Whether a thread that waits for a connection hears that there will be none.
fn hears_end<R: Threads + Clock + Sync>(rt: &R, listener: &Listener) -> bool {
    let (ended, stopped) = thread::join(
        rt,
        || listener.accept().is_err(),
        || {
            thread::sleep(rt, Duration::from_millis(50));
            listener.stop().is_ok()
        },
    );
    ended && stopped && listener.accept().is_err()
}

#[test]
fn port_stops(rt: HostRuntime) -> Result<(), Fail> {
    let listener = Listener::at_free_port(&rt)?;
    assert!(rt; hears_end(&rt, &listener));
    Ok(())
}

#[test]
fn socket_stops(rt: HostRuntime) -> Result<(), Fail> {
    let path = fresh_path(&rt, rt.alloc())?;
    let listener = Listener::at_path(&rt, path)?;
    assert!(rt; hears_end(&rt, &listener));
    drop(listener);
    Place::Socket(path).remove_files(&rt);
    Ok(())
}
