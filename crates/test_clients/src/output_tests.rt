//! What is written, and what is asked.

use crate::listener::{Act, listen, read_frame};
use crate::talks::{mount_of, open_port, talk};
use eden_accumulate::Mount;
use eden_connect::{ConnectFault, Quiet, connect_program};
use eden_globs::Filter;
use eden_ids::{GitNaming, Kind};
use eden_sockets::Place;
use std::alloc::Global;
use std::net::{Net, TcpListener, TcpStream};
use std::process::Abort;
use std::test::Fail;
use std::thread;
use std::thread::Threads;
use test_devices::Sink;
use test_kit::{Objects, path};

/// Files of each kind, and their paths with the bytes that are escaped.
const FILES: &[(&str, Kind, &str)] = &[
    ("a b", Kind::Plain, "1"),
    ("c\nd", Kind::Exec, "22"),
    ("e\\f", Kind::Link, "333"),
    ("g/h", Kind::Plain, ""),
    ("\u{e9}", Kind::Exec, "0123456789"),
];

const TEXT: &str = "placed 7 6 a5f432733ca9696dcb3c9e4a29d95e17adf94972\nfiles 6\n\
    plain 1 a\nplain 1 a\\sb\nexec 2 c\\nd\nlink 3 e\\\\f\nplain 0 g/h\nexec 10 \u{e9}\n";

/// Writes the files to a mount.
fn write_files(alloc: Global, mount: &mut Mount<GitNaming>) -> Result<(), Fail> {
    for (at, kind, text) in FILES {
        let _ = mount.write(&path(alloc, at)?, *kind, text.as_bytes())?;
    }
    Ok(())
}

/// A mount of a commit of one file.
fn mount_of_one(alloc: Global) -> Result<Mount<GitNaming>, Fail> {
    // Git names the commit so.
    let objects = Objects::of(alloc, "blob x x;tree t 100644 a x;commit c t")?;
    let commit = objects.id("c");
    Ok(Mount::mount(alloc, objects.store, commit, 7, 100_000)?)
}

/// The same, to which the other files are written.
fn mount_of_kinds(alloc: Global) -> Result<Mount<GitNaming>, Fail> {
    let mut mount = mount_of_one(alloc)?;
    write_files(alloc, &mut mount)?;
    Ok(mount)
}

/// Checks that a client that follows a mount for these rounds writes this.
fn writes<R>(
    rt: &R,
    alloc: Global,
    mount: &mut Mount<GitNaming>,
    rounds: u32,
    text: &str,
) -> Result<(), Fail>
where
    R: Net<Listener = TcpListener, Stream = TcpStream> + Threads + Abort + Sync,
{
    let (ended, output) = talk(rt, alloc, mount, &[Act::Serve], rounds, &mut Quiet)?;
    assert_eq!(rt; ended, Ok(()));
    assert!(rt; output.as_slice() == text.as_bytes());
    Ok(())
}

#[test]
fn kinds_and_escapes(rt: HostRuntime) -> Result<(), Fail> {
    let alloc = rt.alloc();
    let mut mount = mount_of_kinds(alloc)?;
    writes(&rt, alloc, &mut mount, 1, TEXT)
}

#[test]
fn no_files(rt: HostRuntime) -> Result<(), Fail> {
    let alloc = rt.alloc();
    let mut mount = mount_of(alloc, &[])?;
    let wanted = "placed 7 1 0000000000000000000000000000000000000000\nfiles 0\n";
    writes(&rt, alloc, &mut mount, 2, wanted)
}

/// How the client of a mount ends whose output takes so many bytes.
fn told_of<R>(
    rt: &R,
    alloc: Global,
    mount: &mut Mount<GitNaming>,
    room: usize,
) -> Result<(Result<(), ConnectFault>, Vec<u8>), Fail>
where
    R: Net<Listener = TcpListener, Stream = TcpStream> + Threads + Sync,
{
    let (listener, port) = open_port(rt)?;
    let mut output = Sink::new(alloc);
    output.full_at = room;
    let filter = Filter::all(alloc);
    let place = Place::Port(port);
    let (ended, _) = thread::join(
        rt,
        || connect_program(rt, alloc, &mut output, place, 1, 1, 1, &filter, &mut Quiet),
        || listen(alloc, &listener, mount, &[Act::Serve]),
    );
    Ok((ended, output.bytes))
}

/// The same of a mount of no file.
fn told_to<R>(
    rt: &R,
    alloc: Global,
    room: usize,
) -> Result<(Result<(), ConnectFault>, Vec<u8>), Fail>
where
    R: Net<Listener = TcpListener, Stream = TcpStream> + Threads + Sync,
{
    let mut mount = mount_of(alloc, &[])?;
    told_of(rt, alloc, &mut mount, room)
}

#[test]
fn full_output(rt: HostRuntime) -> Result<(), Fail> {
    for room in [0, 10] {
        let (ended, output) = told_to(&rt, rt.alloc(), room)?;
        assert_eq!(rt; ended, Err(ConnectFault::Write));
        assert!(rt; output.as_slice() == &b"placed 7 1 "[..room]);
    }
    Ok(())
}

/// The first request of a client, whose connection is closed then.
fn first_request(alloc: Global, listener: &TcpListener) -> Option<Vec<u8>> {
    let (stream, _) = listener.accept().ok()?;
    read_frame(alloc, &stream)
}

/// The first request of mirror 5 in its sixth life, which wants what is below `d`.
fn asked<R>(rt: &R, alloc: Global) -> Result<Option<Vec<u8>>, Fail>
where
    R: Net<Listener = TcpListener, Stream = TcpStream> + Threads + Sync,
{
    let (listener, port) = open_port(rt)?;
    let filter = Filter::parse(alloc, &[b"d/**".as_slice()])?;
    let mut output = Vec::new(alloc);
    let place = Place::Port(port);
    let (_, request) = thread::join(
        rt,
        || connect_program(rt, alloc, &mut output, place, 5, 6, 1, &filter, &mut Quiet),
        move || first_request(alloc, &listener),
    );
    Ok(request)
}

#[test]
fn first_request_asks_for_all_paths(rt: HostRuntime) -> Result<(), Fail> {
    let wanted =
        b"\0\0\0\x21\x02\x01\0\0\0\0\0\0\0\x05\0\0\0\0\0\0\0\x06\0\0\0\0\0\0\0\x01\x01\0\x04d/**";
    let Some(request) = asked(&rt, rt.alloc())? else {
        return Err(Fail::new("nothing is asked"));
    };
    assert!(rt; request.as_slice() == wanted.as_slice());
    Ok(())
}
