//! How a daemon that stays ends, and what it prints.

use crate::client::free_port;
use crate::staying::stay;
use eden_serve::DaemonFault;
use eden_stream::{Counted, RunFault};
use std::alloc::Global;
use std::fs::{File, Files};
use std::net::{Ipv4Addr, Net, TcpListener, TcpStream};
use std::sync::Wait;
use std::test::Fail;
use std::thread::Threads;
use std::time::Clock;
use test_devices::{Sink, Source};

/// Returns how the program ends on this input, with this many threads.
fn outcome<
    R: Threads
        + Wait
        + Clock
        + Files<File = File>
        + Net<Listener = TcpListener, Stream = TcpStream>
        + Sync,
>(
    rt: &R,
    alloc: Global,
    source: Source<'_>,
    sink: &mut Sink,
    port: u16,
    threads: u64,
) -> Result<(), DaemonFault> {
    stay(
        rt,
        alloc,
        source,
        &mut Counted::new(sink),
        port,
        threads,
        false,
    )
}

/// A script, how it ends, and whether it gets to `listen`.
const CASES: &[(&str, Result<(), DaemonFault>, bool)] = &[
    ("", Err(DaemonFault::Script(RunFault::BadLine(1))), false),
    (
        "listen\n",
        Err(DaemonFault::Script(RunFault::BadLine(1))),
        false,
    ),
    (
        "\n# no mount\n",
        Err(DaemonFault::Script(RunFault::BadLine(3))),
        false,
    ),
    ("\nmount empty 7 1000\nlisten\n", Ok(()), true),
    (
        "\nmount empty 7 1000\nlisten\nwrite a plain x\nremove b\n\nflush",
        Ok(()),
        true,
    ),
    (
        "\nmount empty 7 1000\nlisten\nflush\nposition\nflush\n",
        Err(DaemonFault::Script(RunFault::BadLine(5))),
        true,
    ),
    (
        "\nmount empty 7 1000\nlisten\nlisten\n",
        Err(DaemonFault::Script(RunFault::BadLine(4))),
        true,
    ),
];

#[test]
fn scripts_end(rt: HostRuntime) -> Result<(), Fail> {
    let alloc = rt.alloc();
    for (script, wanted, listens) in CASES {
        let port = free_port(&rt)?;
        let mut sink = Sink::new(alloc);
        let source = Source::new(script.as_bytes());
        let ended = outcome(&rt, alloc, source, &mut sink, port, 3);
        assert!(rt; ended == *wanted, "{script}");
        let told = if *listens {
            format!(in alloc; "at 7 1 empty\nlistening {port}\n")?
        } else {
            String::new(alloc)
        };
        assert_eq!(rt; sink.bytes.as_slice(), told.as_bytes());
    }
    Ok(())
}

#[test]
fn devices_fail(rt: HostRuntime) -> Result<(), Fail> {
    let alloc = rt.alloc();
    let script = b"mount empty 7 1000\nlisten\nflush\n".as_slice();
    let port = free_port(&rt)?;
    // The input fails before `listen`, and after it.
    for fails_at in [10, script.len()] {
        let mut source = Source::new(script);
        source.fails_at = fails_at;
        source.cut = fails_at;
        let ended = outcome(&rt, alloc, source, &mut Sink::new(alloc), port, 1);
        assert_eq!(rt; ended, Err(DaemonFault::Script(RunFault::Read)));
    }
    // The output refuses what the script prints, and then the line of the port.
    for full_at in [0, 13] {
        let mut sink = Sink::new(alloc);
        sink.full_at = full_at;
        let ended = outcome(&rt, alloc, Source::new(script), &mut sink, port, 1);
        assert_eq!(rt; ended, Err(DaemonFault::Script(RunFault::Write)));
    }
    // There are no threads; then the port is another one's.
    let mut sink = Sink::new(alloc);
    let ended = outcome(&rt, alloc, Source::new(script), &mut sink, port, 0);
    assert_eq!(rt; ended, Err(DaemonFault::NoConnection));
    let _other = TcpListener::bind(&rt, (Ipv4Addr::LOCALHOST, port))?;
    let ended = outcome(&rt, alloc, Source::new(script), &mut sink, port, 1);
    assert_eq!(rt; ended, Err(DaemonFault::NoConnection));
    Ok(())
}
