//! Scripts with their line `listen`: what is printed, and how the program ends.

use crate::checking::{Frames, ask_both, make_frames};
use crate::client::{connect, free_port, listen, port_of};
use crate::serving::{PRINTED, SCRIPT, SEQUENCE};
use eden_serve::{DaemonFault, serve_program};
use eden_sockets::Place;
use eden_stream::{Counted, RunFault};
use std::alloc::Global;
use std::fs::{File, Files};
use std::io::Read;
use std::net::{Ipv4Addr, Net, TcpListener, TcpStream};
use std::sync::Wait;
use std::test::Fail;
use std::thread;
use std::thread::Threads;
use std::time::Clock;
use test_devices::{Endless, Sink, Source};

/// How a program ends.
type End = Result<(), DaemonFault>;

/// No place.
const ALL: usize = usize::MAX;

/// How many ports are tried: another program may take one in between.
const PORTS: u32 = 16;

/// The text that a row gives, where `@` stands for the line that tells the port.
fn text_of(alloc: Global, row: &[u8], port: u16) -> Result<Vec<u8>, Fail> {
    let mut text = Vec::new(alloc);
    for byte in row {
        if *byte == b'@' {
            let line = format!(in alloc; "listening {port}\n")?;
            text.extend_from_slice(line.as_bytes())?;
        } else {
            text.push(*byte)?;
        }
    }
    Ok(text)
}

/// Whether a program that serves nobody ends so and prints this, over an output that is full at a place.
fn ends_so<
    R: Threads
        + Wait
        + Clock
        + Files<File = File>
        + Net<Listener = TcpListener, Stream = TcpStream>
        + Sync,
    I: Read + Send + Drop,
>(
    rt: &R,
    alloc: Global,
    input: I,
    port: u16,
    full_at: usize,
    text: &[u8],
) -> Result<(End, bool), Fail> {
    let mut output = Sink::new(alloc);
    output.full_at = full_at;
    let place = Place::Port(port);
    let end = serve_program(rt, alloc, input, &mut Counted::new(&mut output), place, 0);
    let wanted = text_of(alloc, text, port)?;
    let most = wanted.len().min(full_at);
    Ok((end, output.bytes.as_slice() == &wanted[..most]))
}

/// How a program ends over a source that gives so many bytes a read, and fails at a place; and whether it prints this.
fn ends_over<
    R: Threads
        + Wait
        + Clock
        + Files<File = File>
        + Net<Listener = TcpListener, Stream = TcpStream>
        + Sync,
>(
    rt: &R,
    alloc: Global,
    script: &'static [u8],
    most: usize,
    fails_at: usize,
    full_at: usize,
    text: &[u8],
) -> Result<(End, bool), Fail> {
    for _ in 0..PORTS {
        let mut source = Source::new(script);
        source.most = most;
        source.fails_at = fails_at;
        source.cut = fails_at;
        let port = free_port(rt)?;
        let ended = ends_so(rt, alloc, source, port, full_at, text)?;
        if ended.0 != Err(DaemonFault::NoConnection) {
            return Ok(ended);
        }
    }
    Err("no port is free".into())
}

fn bad(number: u64) -> End {
    Err(DaemonFault::Script(RunFault::BadLine(number)))
}

/// Scripts that open nothing, what they print, and the number of the line that they end with.
const UNOPENED: &[(&[u8], &[u8], u64)] = &[
    (b"", b"", 1),
    (b"# a\n\n", b"", 3),
    (b"mount empty 7 1000\n", b"at 7 1 empty\n", 2),
    (b"mount empty 7 1000\n# listen", b"at 7 1 empty\n", 3),
    (
        b"mount empty 7 1000\nlisten x\nlisten\n",
        b"at 7 1 empty\n",
        2,
    ),
    (b"mount empty 7 1000\nlisten\r\r\n", b"at 7 1 empty\n", 2),
    (
        b"mount empty 7 1000\n listen\nlisten\n",
        b"at 7 1 empty\n",
        2,
    ),
    (
        b"mount empty 7 1000\nliste\nn\nlisten\n",
        b"at 7 1 empty\n",
        2,
    ),
    (b"listen\nmount empty 7 1000\nlisten\n", b"", 1),
    (
        b"mount c 7 1000\r\n#\r\nlisten\r\n",
        b"refused NoLabel\n",
        3,
    ),
];

#[test]
fn scripts_that_open_nothing(rt: HostRuntime) -> Result<(), Fail> {
    for (script, text, number) in UNOPENED {
        for most in [ALL, 1, 3] {
            let ended = ends_over(&rt, rt.alloc(), script, most, ALL, ALL, text)?;
            assert_eq!(rt; ended, (bad(*number), true));
        }
    }
    Ok(())
}

/// Scripts that open a mount, and the number of the line behind `listen` that can't be read, or 0 where each can.
const BEHIND: &[(&[u8], u64)] = &[
    (b"mount empty 7 1000\nlisten", 0),
    (b"mount empty 7 1000\nlisten\n", 0),
    (b"mount empty 7 1000\r\nlisten\r\n\r\n# b\r\nflush\r\n", 0),
    (
        b"mount empty 7 1000\nlisten\nwrite a plain x\nremove a\nrename b c\nwrite d/x plain x\nrenamedir d e\n",
        0,
    ),
    (
        b"mount empty 7 1000\nlisten\ncheckout empty force\nreset empty\nflush\nremount 8",
        0,
    ),
    (
        b"mount empty 7 1000\nlisten\ncheckout c normal\nreset c\n",
        0,
    ),
    (
        b"mount empty 7 1000\nlisten\nwrite a//b plain x\nremount 7\nremove b\n",
        0,
    ),
    (b"mount empty 7 1000\nlisten\nposition\n", 3),
    (b"mount empty 7 1000\nlisten\n\n#\nflush\nlist\nflush\n", 6),
    (b"mount empty 7 1000\nlisten\ndirty\n", 3),
    (b"mount empty 7 1000\nlisten\nread a\n", 3),
    (b"mount empty 7 1000\nlisten\nsince 7 1\n", 3),
    (b"mount empty 7 1000\nlisten\nid empty\n", 3),
    (b"mount empty 7 1000\nlisten\nblob a b\n", 3),
    (b"mount empty 7 1000\nlisten\ntree a\n", 3),
    (b"mount empty 7 1000\nlisten\ncommit a b\n", 3),
    (b"mount empty 7 1000\nlisten\nmount empty 8 1000\n", 3),
    (b"mount empty 7 1000\nlisten\nlisten\n", 3),
    (b"mount empty 7 1000\nlisten\nwrite a plain\n", 3),
    (b"mount empty 7 1000\nlisten\nflush \n", 3),
];

#[test]
fn lines_behind_listen(rt: HostRuntime) -> Result<(), Fail> {
    for (script, number) in BEHIND {
        let end = if *number == 0 { Ok(()) } else { bad(*number) };
        for most in [ALL, 1, 7] {
            let text = b"at 7 1 empty\n@audit ok\n";
            let ended = ends_over(&rt, rt.alloc(), script, most, ALL, ALL, text)?;
            assert_eq!(rt; ended, (end, true));
        }
    }
    Ok(())
}

/// Where the input fails, and where the output is full; what is printed, up to there; and how the program ends.
const FAILED: &[(usize, usize, &[u8], RunFault)] = &[
    (0, ALL, b"", RunFault::Read),
    (20, ALL, b"at 7 1 empty\n", RunFault::Read),
    (26, ALL, b"at 7 1 empty\n@audit ok\n", RunFault::Read),
    (30, ALL, b"at 7 1 empty\n@audit ok\n", RunFault::Read),
    (ALL, 0, b"at 7 1 empty\n@audit ok\n", RunFault::Write),
    (ALL, 13, b"at 7 1 empty\n@audit ok\n", RunFault::Write),
    (ALL, 20, b"at 7 1 empty\n@audit ok\n", RunFault::Write),
    (ALL, 35, b"at 7 1 empty\n@audit ok\n", RunFault::Write),
];

#[test]
fn devices_that_fail(rt: HostRuntime) -> Result<(), Fail> {
    let script = b"mount empty 7 1000\nlisten\nflush\nflush\n";
    for (fails_at, full_at, text, fault) in FAILED {
        for most in [ALL, 1] {
            let ended = ends_over(&rt, rt.alloc(), script, most, *fails_at, *full_at, text)?;
            assert_eq!(rt; ended, (Err(DaemonFault::Script(*fault)), true));
        }
    }
    Ok(())
}

#[test]
fn a_port_in_use(rt: HostRuntime) -> Result<(), Fail> {
    let listener = listen(&rt)?;
    let port = port_of(&listener);
    let ended = ends_so(&rt, rt.alloc(), SCRIPT, port, ALL, PRINTED)?;
    assert_eq!(rt; ended, (Err(DaemonFault::NoConnection), true));
    Ok(())
}

/// How a program ends over a script whose lines behind `listen` begin with these bytes, a byte a read, and then are so again and again.
fn ends_behind<
    R: Threads
        + Wait
        + Clock
        + Files<File = File>
        + Net<Listener = TcpListener, Stream = TcpStream>
        + Sync,
>(
    rt: &R,
    alloc: Global,
    endless: &'static [u8],
    count: u64,
    then: &'static [u8],
) -> Result<(End, bool), Fail> {
    for _ in 0..PORTS {
        let again = Endless::new(endless).take(count);
        let input = b"mount empty 7 1000\nlisten\n"
            .as_slice()
            .chain(again)
            .chain(then);
        let port = free_port(rt)?;
        let text = b"at 7 1 empty\n@audit ok\n";
        let ended = ends_so(rt, alloc, input, port, ALL, text)?;
        if ended.0 != Err(DaemonFault::NoConnection) {
            return Ok(ended);
        }
    }
    Err("no port is free".into())
}

#[test]
fn no_number_of_reads_ends_the_lines(rt: HostRuntime) -> Result<(), Fail> {
    let ended = ends_behind(&rt, rt.alloc(), b"#\n\n", 1_200_000, b"position\n")?;
    assert_eq!(rt; ended, (bad(800_003), true));
    Ok(())
}

#[test]
fn no_number_of_reads_ends_a_comment(rt: HostRuntime) -> Result<(), Fail> {
    let ended = ends_behind(&rt, rt.alloc(), b"#", 1_200_000, b"")?;
    assert_eq!(rt; ended, (Ok(()), true));
    Ok(())
}

/// Connects once the port is taken, and asks. Says whether the replies are right, and whether nobody listens on another address of this machine.
fn ask_once<R: Net<Stream = TcpStream> + Clock>(
    rt: &R,
    alloc: Global,
    port: u16,
    frames: &Frames,
) -> bool {
    let Some(stream) = connect(rt, port) else {
        return false;
    };
    let other = TcpStream::connect(rt, (Ipv4Addr::new(127, 0, 0, 2), port));
    other.is_err() && ask_both(alloc, &stream, frames).is_some()
}

#[test]
fn a_program_serves_its_port(rt: HostRuntime) -> Result<(), Fail> {
    let frames = make_frames(rt.alloc(), SEQUENCE)?;
    let port = free_port(&rt)?;
    let alloc = rt.alloc();
    let place = Place::Port(port);
    let mut output = Vec::new(alloc);
    let (end, right) = thread::join(
        &rt,
        || serve_program(&rt, alloc, SCRIPT, &mut Counted::new(&mut output), place, 1),
        || ask_once(&rt, alloc, port, &frames),
    );
    assert_eq!(rt; end, Ok(()));
    assert!(rt; right);
    let text = text_of(alloc, b"at 7 1 empty\nat 7 2 empty\n@audit ok\n", port)?;
    assert_eq!(rt; output, text);
    Ok(())
}
