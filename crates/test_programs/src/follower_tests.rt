//! `follow` over devices: each status that can be brought about, and what is printed with it; and how each fault of a program is printed.

use crate::daemon_tests::{first_wide, split_words};
use eden_connect::ConnectFault;
use eden_demo::DemoFault;
use eden_logs::AuditFault;
use eden_programs::{Screen, end_connect, end_daemon, end_demo, follow};
use eden_serve::DaemonFault;
use eden_stream::RunFault;
use std::alloc::Global;
use std::net::{Net, TcpStream};
use std::sync::Wait;
use std::test::Fail;
use std::thread::Threads;
use std::time::Clock;
use test_devices::Sink;

/// No place.
const ALL: usize = usize::MAX;

/// The words of a call, the place at which the output is full, and what the program comes to: its status, its output, and what it tells of a
/// fault, or how that begins where `clap` says it.
type Row = (&'static str, usize, u8, &'static str, &'static str);

const ROWS: &[Row] = &[
    // follow_demo
    ("follow demo", ALL, 0, "audit ok\nfollowers agree\n", ""),
    ("follow demo", 4, 3, "audi", "follow: Write\n"),
    ("follow --version", ALL, 0, "follow 0.1.0\n", ""),
    ("follow -V", ALL, 0, "follow 0.1.0\n", ""),
    ("follow --version", 0, 3, "", "follow: Write\n"),
    ("follow", ALL, 2, "", "error: "),
    ("follow deom", ALL, 2, "", "error: "),
    ("follow demo x", ALL, 2, "", "error: "),
    ("follow --help", ALL, 2, "", "Keeps mirrors of a mount"),
    ("follow connect", ALL, 2, "", "error: "),
    (
        "follow connect --mirror 1 --life 1 --rounds 1",
        ALL,
        2,
        "",
        "error: the following required arguments were not provided:\n  <--port <P>|--socket <PATH>>\n",
    ),
    (
        "follow connect --socket s --port 1 --mirror 1 --life 1 --rounds 1",
        ALL,
        2,
        "",
        "error: the argument '--socket <PATH>' cannot be used with '--port <P>'\n",
    ),
    (
        "follow connect --socket a\nb --mirror 1 --life 1 --rounds 1",
        ALL,
        2,
        "",
        "error: invalid value for --socket: the path holds a NUL byte or a line feed\n",
    ),
    (
        "follow connect --port 1 --mirror 1 --life 1 --rounds 1001",
        ALL,
        2,
        "",
        "error: ",
    ),
    (
        "follow connect --port 1 --mirror 1 --life 1 --rounds 1 a [b]",
        ALL,
        2,
        "",
        "follow: BadPattern 1: `[b]`: a pattern is empty, has an empty component, a `[` or `{` without a `\\`, or a `\\` before nothing or `/`\n",
    ),
    (
        "follow connect --port 1 --mirror 1 --life 1 --rounds 1 --except a --except [b] a",
        ALL,
        2,
        "",
        "follow: BadPattern 1: `[b]`: a pattern is empty, has an empty component, a `[` or `{` without a `\\`, or a `\\` before nothing or `/`\n",
    ),
    (
        "follow connect --help",
        ALL,
        2,
        "",
        "Keeps a mirror of a mount",
    ),
    // (nobody listens there, or nobody that speaks frames)
    (
        "follow connect --port 1 --mirror 1 --life 1 --rounds 1",
        ALL,
        3,
        "",
        "follow: NoConnection: nothing serves a mount at port 1 of 127.0.0.1\n",
    ),
    (
        "follow connect --socket none --mirror 1 --life 1 --rounds 1",
        ALL,
        3,
        "",
        "follow: NoConnection: nothing serves a mount at socket none\n",
    ),
];

/// Runs `follow` with these words and an output that is full at a place. Returns its status, its output, and what it prints of a fault.
fn ran<R: Threads + Wait + Clock + Net<Stream = TcpStream> + Sync>(
    rt: &R,
    alloc: Global,
    words: &str,
    full_at: usize,
) -> Result<(u8, Vec<u8>, Vec<u8>), Fail> {
    let list = split_words(alloc, words)?;
    let mut output = Sink::new(alloc);
    output.full_at = full_at;
    let mut errors = Sink::new(alloc);
    let status = follow(
        rt,
        alloc,
        list.as_slice(),
        &mut output,
        &mut errors,
        Screen::None,
    );
    Ok((status, output.bytes, errors.bytes))
}

/// Whether the program comes to what its row says.
fn is_as_told<R: Threads + Wait + Clock + Net<Stream = TcpStream> + Sync>(
    rt: &R,
    alloc: Global,
    row: &Row,
) -> Result<bool, Fail> {
    let (words, full_at, status, text, told) = *row;
    let (ended, output, errors) = ran(rt, alloc, words, full_at)?;
    let is_told = if status == 2 {
        errors.starts_with(told.as_bytes())
    } else {
        errors.as_slice() == told.as_bytes()
    };
    Ok(ended == status && output.as_slice() == text.as_bytes() && is_told)
}

/// Calls that ask for help.
const HELPS: &[&str] = &[
    "follow --help",
    "follow demo --help",
    "follow connect --help",
];

#[test]
fn helps(rt: HostRuntime) -> Result<(), Fail> {
    for words in HELPS {
        let (status, _, told) = ran(&rt, rt.alloc(), words, ALL)?;
        assert_eq!(rt; status, 2, "{words}");
        assert!(rt; !told.is_empty(), "{words}");
        assert_eq!(rt; first_wide(told.as_slice()), None, "{words}");
    }
    Ok(())
}

#[test]
fn statuses(rt: HostRuntime) -> Result<(), Fail> {
    for row in ROWS {
        let words = row.0;
        assert!(rt; is_as_told(&rt, rt.alloc(), row)?, "{words}");
    }
    Ok(())
}

/// A fault of `edend`, why it came, the status, and what standard error says.
type DaemonRow = (DaemonFault, Option<&'static str>, u8, &'static str);

const DAEMON: &[DaemonRow] = &[
    (
        DaemonFault::Script(RunFault::BadLine(3)),
        None,
        1,
        "line 3: BadLine\n",
    ),
    (
        DaemonFault::Script(RunFault::BadLine(3)),
        Some("so"),
        1,
        "line 3: BadLine: so\n",
    ),
    (
        DaemonFault::Script(RunFault::Read),
        None,
        3,
        "edend: Read\n",
    ),
    (
        DaemonFault::Script(RunFault::Read),
        Some("so"),
        3,
        "edend: Read: so\n",
    ),
    (
        DaemonFault::Script(RunFault::Write),
        None,
        3,
        "edend: Write\n",
    ),
    (
        DaemonFault::Script(RunFault::TurnsSpent),
        None,
        3,
        "edend: TurnsSpent\n",
    ),
    (
        DaemonFault::Script(RunFault::NoMemory),
        None,
        3,
        "edend: NoMemory\n",
    ),
    (DaemonFault::NoConnection, None, 3, "edend: NoConnection\n"),
    (DaemonFault::Audit(AuditFault::WrongReply), None, 4, ""),
];

const CONNECT: &[(ConnectFault, Option<&'static str>, u8, &str)] = &[
    (ConnectFault::Unplaced, None, 1, ""),
    (ConnectFault::Write, None, 3, "follow: Write\n"),
    (
        ConnectFault::NoConnection,
        Some("so"),
        3,
        "follow: NoConnection: so\n",
    ),
    (ConnectFault::NoMemory, None, 3, "follow: NoMemory\n"),
];

const DEMO: &[(DemoFault, u8, &str)] = &[
    (DemoFault::Write, 3, "follow: Write\n"),
    (DemoFault::NoMemory, 3, "follow: NoMemory\n"),
    (DemoFault::NoConnection, 3, "follow: NoConnection\n"),
    (DemoFault::Refused(AuditFault::WrongReply), 4, ""),
    (DemoFault::Differ, 4, ""),
];

/// Returns why a fault came, as the programs are given it.
fn why_of(alloc: Global, why: Option<&str>) -> Result<Option<String>, Fail> {
    match why {
        Some(why) => Ok(Some(String::from_str(alloc, why)?)),
        None => Ok(None),
    }
}

#[test]
fn faults_of_edend(rt: HostRuntime) -> Result<(), Fail> {
    for (fault, why, status, said) in DAEMON {
        let mut errors = Sink::new(rt.alloc());
        let why = why_of(rt.alloc(), *why)?;
        assert_eq!(rt; end_daemon(&mut errors, *fault, why), *status);
        assert!(rt; errors.bytes.as_slice() == said.as_bytes(), "{fault:?}");
    }
    Ok(())
}

#[test]
fn faults_of_follow(rt: HostRuntime) -> Result<(), Fail> {
    for (fault, why, status, said) in CONNECT {
        let mut errors = Sink::new(rt.alloc());
        let why = why_of(rt.alloc(), *why)?;
        assert_eq!(rt; end_connect(&mut errors, *fault, why), *status);
        assert!(rt; errors.bytes.as_slice() == said.as_bytes(), "{fault:?}");
    }
    for (fault, status, said) in DEMO {
        let mut errors = Sink::new(rt.alloc());
        assert_eq!(rt; end_demo(&mut errors, *fault), *status);
        assert!(rt; errors.bytes.as_slice() == said.as_bytes(), "{fault:?}");
    }
    Ok(())
}
