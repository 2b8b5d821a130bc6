//! One daemon, one mirror, one round.

use crate::client::free_port;
use eden_connect::{ConnectFault, Quiet, connect_program};
use eden_globs::Filter;
use eden_serve::{DaemonFault, serve_program};
use eden_sockets::{Listener, Place};
use eden_stream::Counted;
use std::alloc::Global;
use std::fs::{File, Files};
use std::net::{Net, TcpListener, TcpStream};
use std::sync::Wait;
use std::test::Fail;
use std::thread;
use std::thread::Threads;
use std::time::{Clock, Duration};
use test_sockets::{files_of, fresh_path};

/// How often a client tries again, a millisecond later, where nobody listens yet.
const TRIES: u32 = 10_000;

/// The port that is tried first, and how many are: another program may have one of them.
const FIRST_PORT: u16 = 40_711;

const TURNS: u32 = 16;

/// A script with one file.
const SCRIPT: &[u8] = b"mount empty 7 1000\nwrite a plain 1\nlisten\n";

/// How the daemon ended, and what it wrote.
type Served = (Result<(), DaemonFault>, Vec<u8>);

/// How the mirror ended, and what it wrote.
type Told = (Result<(), ConnectFault>, Vec<u8>);

/// Serves one connection.
fn serve_one<
    R: Threads
        + Wait
        + Clock
        + Files<File = File>
        + Net<Listener = TcpListener, Stream = TcpStream>
        + Sync,
>(rt: &R, alloc: Global, place: &Place) -> Served {
    let mut output = Vec::new(alloc);
    let ended = serve_program(rt, alloc, SCRIPT, &mut Counted::new(&mut output), *place, 1);
    (ended, output)
}

/// Keeps mirror 1 in its life 1 for a round, once somebody listens.
fn follow_one<R: Net<Stream = TcpStream> + Clock>(rt: &R, alloc: Global, place: &Place) -> Told {
    let filter = Filter::all(alloc);
    let mut output = Vec::new(alloc);
    for _ in 0..TRIES {
        let ended = connect_program(rt, alloc, &mut output, *place, 1, 1, 1, &filter, &mut Quiet);
        if ended != Err(ConnectFault::NoConnection) {
            return (ended, output);
        }
        thread::sleep(rt, Duration::from_millis(1));
    }
    (Err(ConnectFault::NoConnection), output)
}

/// The port to try in this turn, where nobody listens at it.
fn port_of<R: Net<Listener = TcpListener, Stream = TcpStream>>(
    rt: &R,
    turn: u32,
) -> Result<Option<u16>, Fail> {
    if turn > 0 {
        return Ok(Some(free_port(rt)?));
    }
    match Listener::at_port(rt, FIRST_PORT) {
        Ok(_) => Ok(Some(FIRST_PORT)),
        Err(_) => Ok(None),
    }
}

/// Whether both ends have told what they should, over a place that is printed so.
fn are_right(alloc: Global, place: &str, served: &Served, followed: &Told) -> Result<bool, Fail> {
    let printed = format!(in alloc; "at 7 1 empty\nat 7 2 empty\nlistening {place}\naudit ok\n")?;
    let told = b"placed 7 2 0000000000000000000000000000000000000000\nfiles 1\nplain 1 a\n";
    Ok(
        served.0 == Ok(())
            && served.1.as_slice() == printed.as_bytes()
            && followed.0 == Ok(())
            && followed.1.as_slice() == told.as_slice(),
    )
}

#[test]
fn serve_and_connect(rt: HostRuntime) -> Result<(), Fail> {
    let alloc = rt.alloc();
    for turn in 0..TURNS {
        let Some(port) = port_of(&rt, turn)? else {
            continue;
        };
        let place = Place::Port(port);
        let (served, followed) = thread::join(
            &rt,
            || serve_one(&rt, alloc, &place),
            || follow_one(&rt, alloc, &place),
        );
        let printed = format!(in alloc; "{port}")?;
        assert!(rt;
            are_right(alloc, printed.as_str(), &served, &followed)?,
            "{port}"
        );
        return Ok(());
    }
    Err("no port is free".into())
}

// The second daemon takes over the files of the first one.
#[test]
fn serve_and_connect_over_a_socket(rt: HostRuntime) -> Result<(), Fail> {
    let alloc = rt.alloc();
    let path = fresh_path(&rt, alloc)?;
    let place = Place::Socket(path);
    let printed = format!(in alloc; "unix {}", path.as_str())?;
    for _ in 0..2 {
        let (served, followed) = thread::join(
            &rt,
            || serve_one(&rt, alloc, &place),
            || follow_one(&rt, alloc, &place),
        );
        assert!(rt; are_right(alloc, printed.as_str(), &served, &followed)?);
        assert_eq!(rt; files_of(&rt, alloc, path)?, (true, true));
    }
    place.remove_files(&rt);
    Ok(())
}
