//! What listens in the tests: it serves a mount, or does what a service should not.

use eden_accumulate::Mount;
use eden_ids::{GitNaming, Path};
use eden_query::serve;
use eden_stream::Counted;
use std::alloc::Global;
use std::io::{Read, Write};
use std::net::{TcpListener, TcpStream};

/// What becomes of a connection before it is closed.
#[derive(Clone, Copy, Debug)]
pub(crate) enum Act {
    /// Nothing.
    Close,
    /// So many requests are answered.
    Answer(u32),
    /// A request is read, and these bytes are written.
    Say(&'static [u8]),
    /// So many requests are answered, and of the reply to one more a half is written.
    Half(u32),
    /// All requests are answered until the client ends it.
    Serve,
    /// So many requests are answered, then the mount goes over to generation 8, and the others are answered until the client ends it.
    Remount(u32),
    /// So many requests are answered, then the directory `d` is renamed to `e`, and the others are answered until the client ends it.
    RenameDir(u32),
    /// So many requests are answered twice each, and the others once until the client ends it.
    Twice(u32),
}

/// The frame of the next request, if there is one.
pub(crate) fn read_frame(alloc: Global, stream: &TcpStream) -> Option<Vec<u8>> {
    let mut input = stream;
    let mut told = [0; 4];
    input.read_exact(&mut told).ok()?;
    let len = u32::from_be_bytes(told) as usize;
    let mut frame = Vec::new(alloc);
    frame.resize(4 + len, 0).ok()?;
    frame[..4].copy_from_slice(&told);
    input.read_exact(&mut frame[4..]).ok()?;
    Some(frame)
}

/// The frame of the reply to the next request, if there is one.
fn read_and_reply(
    alloc: Global,
    stream: &TcpStream,
    mount: &mut Mount<GitNaming>,
) -> Option<Vec<u8>> {
    let frame = read_frame(alloc, stream)?;
    let mut reply = Vec::new(alloc);
    let mut reader = Counted::new(frame.as_slice());
    let mut writer = Counted::new(&mut reply);
    match serve(alloc, &mut reader, &mut writer, mount) {
        Ok(1) => Some(reply),
        _ => None,
    }
}

/// Writes bytes, if the client still listens.
fn say(stream: &TcpStream, bytes: &[u8]) {
    let mut output = stream;
    let _ = output.write_all(bytes);
}

/// Answers the next requests, each so many times.
fn answer(
    alloc: Global,
    stream: &TcpStream,
    mount: &mut Mount<GitNaming>,
    requests: u32,
    times: u32,
) {
    for _ in 0..requests {
        let Some(reply) = read_and_reply(alloc, stream, mount) else {
            return;
        };
        for _ in 0..times {
            say(stream, reply.as_slice());
        }
    }
}

/// Answers all requests until the client ends the connection.
fn answer_all(alloc: Global, stream: &TcpStream, mount: &mut Mount<GitNaming>) {
    let mut reader = Counted::new(stream);
    let mut writer = Counted::new(stream);
    let _ = serve(alloc, &mut reader, &mut writer, mount);
}

/// Writes the first half of a reply.
fn say_half(alloc: Global, stream: &TcpStream, mount: &mut Mount<GitNaming>) {
    if let Some(reply) = read_and_reply(alloc, stream, mount) {
        let (half, _) = reply.as_slice().split_at(reply.len() / 2);
        say(stream, half);
    }
}

/// Renames the directory `d` to `e`. Where it can't be renamed, the client finds its files where they were.
fn rename_dir(alloc: Global, mount: &mut Mount<GitNaming>) {
    if let (Ok(old), Ok(new)) = (
        Path::parse(alloc, b"d".as_slice()),
        Path::parse(alloc, b"e".as_slice()),
    ) {
        let _ = mount.rename_dir(&old, &new);
    }
}

fn play(alloc: Global, stream: &TcpStream, mount: &mut Mount<GitNaming>, act: Act) {
    match act {
        Act::Close => {}
        Act::Answer(requests) => answer(alloc, stream, mount, requests, 1),
        Act::Say(bytes) => {
            let _ = read_frame(alloc, stream);
            say(stream, bytes);
        }
        Act::Half(requests) => {
            answer(alloc, stream, mount, requests, 1);
            say_half(alloc, stream, mount);
        }
        Act::Serve => answer_all(alloc, stream, mount),
        Act::Remount(requests) => {
            answer(alloc, stream, mount, requests, 1);
            let _ = mount.remount(8);
            answer_all(alloc, stream, mount);
        }
        Act::RenameDir(requests) => {
            answer(alloc, stream, mount, requests, 1);
            rename_dir(alloc, mount);
            answer_all(alloc, stream, mount);
        }
        Act::Twice(requests) => {
            answer(alloc, stream, mount, requests, 2);
            answer_all(alloc, stream, mount);
        }
    }
}

/// Takes a connection for each act.
pub(crate) fn listen(
    alloc: Global,
    listener: &TcpListener,
    mount: &mut Mount<GitNaming>,
    acts: &[Act],
) {
    for act in acts {
        if let Ok((stream, _)) = listener.accept() {
            play(alloc, &stream, mount, *act);
        }
    }
}
