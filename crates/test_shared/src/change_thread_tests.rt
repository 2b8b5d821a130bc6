//! Threads that change a mount and ask for it by frames at once.

ghost use Rattle.std.specs.Prelude.{◌≡◌};
ghost use Rattle.eden_accumulate.specs.Mounts.{StandsFor};
ghost use Rattle.eden_history.specs.Worlds.{WorldState};

use crate::change_frame_tests::add;
use crate::mounts::mounted;
use crate::unlogged::{UnloggedMount, ends_at};
use eden_accumulate::Mount;
use eden_ids::GitNaming;
use eden_shared::{Origin, Pass, Passes, Present, Unlogged, serve_unlogged};
use eden_stream::Counted;
use std::alloc::{AllocError, Global};
use std::marker::Brand;
use std::process::Abort;
use std::sync::Wait;
use std::sync::ledger::{Blank, Ledger};
use std::test::Fail;
use std::thread;
use std::thread::Threads;
use std::time::Clock;

/// How often each connection writes, and asks for what it wrote.
const ROUNDS: u8 = 100;

/// How many bytes are written of a round: the frames of an end and of a reply.
const ROUND: usize = 67 + 75;

/// A connection: its pass, the file that it writes, and its frames.
#[derive(Drop)]
struct Connection<L: Origin> {
    pass: Option<Pass<L>>,
    at: u8,
    stream: Vec<u8>,
    text: Vec<u8>,
}

/// Returns the frames of a connection.
fn stream_of(alloc: Global, at: u8) -> Result<Vec<u8>, Fail> {
    let mut stream = Vec::new(alloc);
    for number in 0..ROUNDS {
        let write = [1, 0, 1, at, 1, 0, 0, 0, 1, number];
        add(alloc, &mut stream, 0x06, &[&write])?;
        add(alloc, &mut stream, 0x03, &[&[0, 1, at]])?;
    }
    Ok(stream)
}

/// Returns what is written of a round, if the write and the reply are at these numbers.
fn round_of(alloc: Global, at: u8, number: u8, made: u64, told: u64) -> Result<Vec<u8>, Fail> {
    let mut text = Vec::new(alloc);
    let seven = 7_u64.to_be_bytes();
    let empty = [0; 20];
    add(
        alloc,
        &mut text,
        0x86,
        &[&[1], &seven, &made.to_be_bytes(), &empty],
    )?;
    let file = [0, 1, at, 1, 0, 0, 0, 1, number];
    add(
        alloc,
        &mut text,
        0x83,
        &[&seven, &told.to_be_bytes(), &empty, &file],
    )?;
    Ok(text)
}

/// Returns the number of eight bytes at a place.
fn number_at(text: &[u8], place: usize) -> Option<u64> {
    let (front, _) = text.get(place..)?.split_first_chunk::<8>()?;
    Some(u64::from_be_bytes(*front))
}

/// Returns whether each write of a connection was made after the one before it, and seen by the reply after it.
fn is_right(alloc: Global, at: u8, text: &[u8]) -> Result<bool, Fail> {
    let mut last = 1;
    let mut number = 0;
    for round in text.chunks(ROUND) {
        let made = number_at(round, 39).ok_or("a round is too short")?;
        let told = number_at(round, 105).ok_or("a round is too short")?;
        let right = round_of(alloc, at, number, made, told)?;
        if made <= last || told < made || right.as_slice() != round {
            return Ok(false);
        }
        last = made;
        number = number.wrapping_add(1);
    }
    Ok(number == ROUNDS)
}

/// Serves a connection.
fn serve<L: Origin, R: Wait + Clock>(
    rt: &R,
    alloc: Global,
    unlogged: &UnloggedMount<L>,
    connection: Connection<L>,
) -> Connection<L> {
    let Connection {
        mut pass,
        at,
        stream,
        mut text,
    } = connection;
    let mut reader = Counted::new(stream.as_slice());
    let mut writer = Counted::new(&mut text);
    let _ = serve_unlogged(
        rt,
        alloc,
        &mut reader,
        &mut writer,
        unlogged,
        &mut pass,
        &Present,
    );
    Connection {
        pass,
        at,
        stream,
        text,
    }
}

fn serve_in_threads<L: Origin + Send + Sync, R: Threads + Wait + Clock + Sync>(
    rt: &R,
    alloc: Global,
    unlogged: &UnloggedMount<L>,
    connections: Vec<Connection<L>>,
) -> Result<Vec<Connection<L>>, AllocError> {
    Ok(thread::map_vec(
        rt,
        connections,
        &|connection| serve(rt, alloc, unlogged, connection),
    )?)
}

/// Makes two connections, each with a pass and a file of its own.
fn two_connections<L: Origin>(
    alloc: Global,
    passes: &mut Passes<L>,
) -> Result<Vec<Connection<L>>, Fail> {
    let mut connections = Vec::new(alloc);
    for at in b"ab".as_slice() {
        connections.push(Connection {
            pass: passes.give().ok(),
            at: *at,
            stream: stream_of(alloc, *at)?,
            text: Vec::new(alloc),
        })?;
    }
    Ok(connections)
}

/// Serves them at once, and takes their passes back.
fn serve_two<L: Origin + Send + Sync, R: Threads + Wait + Clock + Sync>(
    rt: &R,
    alloc: Global,
    unlogged: &UnloggedMount<L>,
    passes: &mut Passes<L>,
) -> Result<bool, Fail> {
    let connections = two_connections(alloc, passes)?;
    let mut right = true;
    for connection in serve_in_threads(rt, alloc, unlogged, connections)? {
        let Connection { pass, at, text, .. } = connection;
        passes.take_back(pass.ok_or("a pass is gone")?);
        right = right && is_right(alloc, at, text.as_slice())?;
    }
    Ok(right)
}

fn two_threads<L: Origin + Send + Sync, R: Threads + Wait + Abort + Clock + Sync>(
    rt: &R,
    alloc: Global,
    mount: Mount<GitNaming>,
    blank: Blank,
) -> Result<(), Fail>
    requires opens { (world : WorldState) → L.opens world → StandsFor mount world }
    requires name { blank.name ≡ L.name }
    requires parts { blank.parts ≡ L.parts }
    requires whole { blank.parts ≡ 2048 }
{
    let (unlogged, mut passes) = Unlogged::<GitNaming, _, L>::new(mount, blank);
    let right = serve_two(rt, alloc, &unlogged, &mut passes)?;
    assert!(rt; right);
    ends_at(rt, unlogged, passes, 201)
}

#[test]
fn two_connections_change_and_ask(rt: HostRuntime) -> Result<(), Fail> {
    let alloc = rt.alloc();
    two_threads::<Brand, HostRuntime>(&rt, alloc, mounted(alloc)?, Blank::new(2048))
}
