//! A client and what listens for it, at once.

use crate::listener::{Act, listen};
use eden_accumulate::Mount;
use eden_connect::{ConnectFault, Progress, Quiet, connect_program};
use eden_globs::Filter;
use eden_history::Change;
use eden_ids::{GitNaming, Id};
use eden_objects::Store;
use eden_sockets::Place;
use std::alloc::Global;
use std::net::{Net, TcpListener, TcpStream};
use std::test::Fail;
use std::thread;
use std::thread::Threads;
use test_kit::write;

/// How a client ended, and what it wrote.
pub(crate) type Told = (Result<(), ConnectFault>, Vec<u8>);

/// A listener on a port that the system chooses, and the port.
pub(crate) fn open_port<R: Net<Listener = TcpListener, Stream = TcpStream>>(
    rt: &R,
) -> Result<(TcpListener, u16), Fail> {
    let listener = TcpListener::bind(rt, "127.0.0.1:0")?;
    let port = listener.local_addr()?.port();
    Ok((listener, port))
}

/// Writes these plain files to a mount.
fn write_all(
    alloc: Global,
    mount: &mut Mount<GitNaming>,
    files: &[(&str, &str)],
) -> Result<(), Fail> {
    for (path, text) in files {
        let _ = mount.apply(&write(alloc, path, text)?)?;
    }
    Ok(())
}

/// A mount of the empty commit in generation 7, to which these plain files are written.
pub(crate) fn mount_of(alloc: Global, files: &[(&str, &str)]) -> Result<Mount<GitNaming>, Fail> {
    let store = Store::new(alloc, GitNaming);
    let mut mount = Mount::mount(alloc, store, Id::ZERO, 7, 100_000)?;
    write_all(alloc, &mut mount, files)?;
    Ok(mount)
}

/// The mirror 1 in its first life wants every path, for so many rounds.
pub(crate) fn follow<R: Net<Stream = TcpStream>, P: Progress>(
    rt: &R,
    alloc: Global,
    port: u16,
    rounds: u32,
    progress: &mut P,
) -> Told {
    let mut output = Vec::new(alloc);
    let filter = Filter::all(alloc);
    let ended = connect_program(
        rt,
        alloc,
        &mut output,
        Place::Port(port),
        1,
        1,
        rounds,
        &filter,
        progress,
    );
    (ended, output)
}

/// It does so while connections to its port become what the acts say. Each of them is made.
pub(crate) fn talk<R, P: Progress + Send>(
    rt: &R,
    alloc: Global,
    mount: &mut Mount<GitNaming>,
    acts: &[Act],
    rounds: u32,
    progress: &mut P,
) -> Result<Told, Fail>
where
    R: Net<Listener = TcpListener, Stream = TcpStream> + Threads + Sync,
{
    let (listener, port) = open_port(rt)?;
    let (told, _) = thread::join(
        rt,
        || follow(rt, alloc, port, rounds, progress),
        || listen(alloc, &listener, mount, acts),
    );
    // It has made no other connection.
    listener.set_nonblocking(true)?;
    match listener.accept() {
        Err(_) => Ok(told),
        Ok(_) => Err(Fail::new("a connection too many")),
    }
}

/// What comes of these acts over a mount of these files: how the client ends, and what it writes.
#[derive(Clone, Copy)]
pub(crate) struct Row {
    pub(crate) files: &'static [(&'static str, &'static str)],
    pub(crate) acts: &'static [Act],
    pub(crate) rounds: u32,
    pub(crate) ended: Result<(), ConnectFault>,
    pub(crate) text: &'static str,
}

impl Row {
    /// Whether the row is right over a mount of its files.
    fn is_right_over<R>(
        &self,
        rt: &R,
        alloc: Global,
        mount: &mut Mount<GitNaming>,
    ) -> Result<bool, Fail>
    where
        R: Net<Listener = TcpListener, Stream = TcpStream> + Threads + Sync,
    {
        let (ended, output) = talk(rt, alloc, mount, self.acts, self.rounds, &mut Quiet)?;
        Ok(ended == self.ended && output.as_slice() == self.text.as_bytes())
    }

    /// Whether the row is right.
    pub(crate) fn is_right<R>(&self, rt: &R, alloc: Global) -> Result<bool, Fail>
    where
        R: Net<Listener = TcpListener, Stream = TcpStream> + Threads + Sync,
    {
        let mut mount = mount_of(alloc, self.files)?;
        self.is_right_over(rt, alloc, &mut mount)
    }
}
