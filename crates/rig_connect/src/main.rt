//! What polls and a basis take over a socket of this machine, from a daemon that stays, in threads of one process. See bench/README.md.
//!
//! Standard output tells how many paths the replies list, and standard error what time they took by the clock.
#![tactic(auto)]

use anyhow::Result;
use eden_connect::{Quiet, connect_program};
use eden_globs::Filter;
use eden_history::Position;
use eden_ids::Id;
use eden_messages::{Query, Reply, Request};
use eden_sockets::Place;
use eden_stream::Counted;
use eden_wire::encode_request;
use rig_kit::nanoseconds;
use std::alloc::Global;
use std::fs::{File, Files};
use std::net::{Net, TcpListener, TcpStream};
use std::sync::Wait;
use std::sync::atomic::{AtomicBool, Ordering};
use std::thread;
use std::thread::Threads;
use std::time::{Clock, Instant};
use test_serve::{Feed, ask, connect, free_port, stay};

/// How many files a poll tells.
const CHANGED: [u64; 4] = [0, 100, 1_000, 10_000];

/// How often each poll is measured. The least time counts, since other work on the machine makes it longer and never shorter.
const TRIES: u32 = 50;

/// How many connections poll at once, and how often they poll in all.
const CONNECTIONS: [u64; 3] = [1, 8, 64];

const POLLS: u64 = 32_000;

/// How many files a basis lists, and how many bytes each of them has.
const FILES: u64 = 100_000;

const BYTES: u64 = 500;

/// What the daemon's input goes on with while it is polled.
const LINES: &[u8] = b"write w plain x\nwrite w plain y\n";

/// A script that mounts, and writes so many files with so many bytes each, up to `listen`.
fn script(alloc: Global, files: u64, bytes: u64) -> Result<Vec<u8>> {
    let mut content = Vec::new(alloc);
    content.resize(usize::try_from(bytes)?, b'x')?;
    let mut script = Vec::new(alloc);
    script.extend_from_slice(b"mount empty 7 1000000000\n".as_slice())?;
    for number in 0..files {
        let (directory, file) = (number / 100, number % 100);
        let line = format!(in alloc; "write directory{directory:04}/file{file:02} plain ")?;
        script.extend_from_slice(line.as_bytes())?;
        script.extend_from_slice(content.as_slice())?;
        script.push(b'\n')?;
    }
    script.extend_from_slice(b"listen\n".as_slice())?;
    Ok(script)
}

/// The frame that asks which of the script's files have changed since the mount.
fn poll_since(alloc: Global) -> Result<Vec<u8>> {
    let query = Query {
        mirror: 1,
        life: 1,
        number: 1,
    };
    let since = Position {
        generation: 7,
        sequence: 1,
        root: Id::ZERO,
    };
    let filter = Filter::parse(alloc, &[b"directory*/**".as_slice()])?;
    Ok(encode_request(
        alloc,
        &Request::Poll {
            query,
            since,
            filter,
        },
    )?)
}

/// How many paths a reply lists.
fn listed(reply: &Reply) -> u64 {
    match reply {
        Reply::ChangesAre { marked, .. } => marked.len() as u64,
        _ => 0,
    }
}

/// How many paths or files a client got, and how many nanoseconds that took.
#[derive(Clone, Copy)]
struct Measured {
    paths: u64,
    time: u64,
}

/// Polls one connection again and again: how many paths the last poll lists, and the least time.
fn poll_alone<R: Net<Stream = TcpStream> + Clock>(
    rt: &R,
    alloc: Global,
    port: u16,
    frame: &[u8],
) -> Option<Measured> {
    let stream = connect(rt, port)?;
    let mut measured = Measured {
        paths: 0,
        time: u64::MAX,
    };
    for _ in 0..TRIES {
        let start = Instant::now(rt).ok()?;
        let reply = ask(alloc, &stream, frame)?;
        let time = nanoseconds(start.elapsed(rt).ok()?);
        measured = Measured {
            paths: listed(&reply),
            time: measured.time.min(time),
        };
    }
    Some(measured)
}

/// Polls one connection so many times, and tells whether all were answered.
fn poll_often<R: Net<Stream = TcpStream> + Clock>(
    rt: &R,
    alloc: Global,
    port: u16,
    frame: &[u8],
    polls: u64,
) -> bool {
    let Some(stream) = connect(rt, port) else {
        return false;
    };
    for _ in 0..polls {
        if ask(alloc, &stream, frame).is_none() {
            return false;
        }
    }
    true
}

/// Has so many connections poll at once, by what polls one of them so many times: how many polls were made, and how long they took.
fn poll_together<R: Threads + Clock + Sync, P: Fn(u64) -> bool + Sync>(
    rt: &R,
    alloc: Global,
    connections: u64,
    poll: &P,
) -> Option<Measured>
    requires { P.IsAlwaysCallable poll.now }
{
    let each = POLLS.checked_div(connections)?;
    let mut turns = Vec::new(alloc);
    turns.resize(usize::try_from(connections).ok()?, each).ok()?;
    let start = Instant::now(rt).ok()?;
    let ended = thread::map_vec(rt, turns, poll).ok()?;
    let time = nanoseconds(start.elapsed(rt).ok()?);
    let paths = if ended.iter().all(|well| *well) {
        POLLS
    } else {
        0
    };
    Some(Measured { paths, time })
}

/// Takes a basis and all contents: how many files they are, and how long it took.
fn take_basis<R: Net<Stream = TcpStream> + Clock>(
    rt: &R,
    alloc: Global,
    port: u16,
) -> Option<Measured> {
    let _ready = connect(rt, port)?;
    let filter = Filter::all(alloc);
    let mut text = Vec::new(alloc);
    let place = Place::Port(port);
    let start = Instant::now(rt).ok()?;
    let ended = connect_program(rt, alloc, &mut text, place, 1, 1, 1, &filter, &mut Quiet);
    let time = nanoseconds(start.elapsed(rt).ok()?);
    let paths = text.iter().filter(|byte| **byte == b'\n').count() as u64;
    ended.ok()?;
    Some(Measured {
        paths: paths.saturating_sub(2),
        time,
    })
}

/// Runs a daemon with this script and then these lines, until the flag is set.
///
/// Returns whether it ends well.
fn stay_until<
    R: Threads
        + Wait
        + Clock
        + Files<File = File>
        + Net<Listener = TcpListener, Stream = TcpStream>
        + Sync,
>(rt: &R, alloc: Global, port: u16, script: &[u8], lines: &[u8], ended: &AtomicBool) -> bool {
    let feed = Feed::new(rt, script, lines, b"".as_slice(), ended);
    let mut writer = Counted::new(Vec::new(alloc));
    stay(rt, alloc, feed, &mut writer, port, 64, false).is_ok()
}

/// Prints how many paths or files a client got, and in what time.
fn print_measured(rt: &HostRuntime, what: &str, measured: Option<Measured>) -> Result<()> {
    let Some(Measured { paths, time }) = measured else {
        println!(rt; "{what}: not answered")?;
        return Ok(());
    };
    let each = time.checked_div(paths).unwrap_or(0);
    println!(rt; "{what}: {paths}")?;
    eprintln!(rt;
        "{what}: {}.{:03} ms, {each} ns each",
        time / 1_000_000,
        time / 1_000 % 1_000
    )?;
    Ok(())
}

fn main(rt: HostRuntime) -> Result<()> {
    let alloc = rt.alloc();
    let poll = poll_since(alloc)?;
    for changed in CHANGED {
        let (script, port) = (script(alloc, changed, 1)?, free_port(&rt)?);
        let ended = AtomicBool::new(false);
        let (measured, _) = thread::join(
            &rt,
            || {
                let measured = poll_alone(&rt, alloc, port, poll.as_slice());
                ended.store(true, Ordering::SeqCst);
                measured
            },
            || stay_until(&rt, alloc, port, script.as_slice(), b"".as_slice(), &ended),
        );
        let what = format!(in alloc; "a poll, files told of {changed}")?;
        print_measured(&rt, what.as_str(), measured)?;
    }
    for connections in CONNECTIONS {
        let (script, port) = (script(alloc, 0, 1)?, free_port(&rt)?);
        let ended = AtomicBool::new(false);
        let (measured, _) = thread::join(
            &rt,
            || {
                let poll = |polls| poll_often(&rt, alloc, port, poll.as_slice(), polls);
                let measured = poll_together(&rt, alloc, connections, &poll);
                ended.store(true, Ordering::SeqCst);
                measured
            },
            || stay_until(&rt, alloc, port, script.as_slice(), LINES, &ended),
        );
        let what = format!(in alloc; "polls over {connections} connections at once")?;
        print_measured(&rt, what.as_str(), measured)?;
    }
    let (script, port) = (script(alloc, FILES, BYTES)?, free_port(&rt)?);
    let ended = AtomicBool::new(false);
    let (measured, _) = thread::join(
        &rt,
        || {
            let measured = take_basis(&rt, alloc, port);
            ended.store(true, Ordering::SeqCst);
            measured
        },
        || stay_until(&rt, alloc, port, script.as_slice(), b"".as_slice(), &ended),
    );
    print_measured(&rt, "a basis and its contents, files", measured)
}
