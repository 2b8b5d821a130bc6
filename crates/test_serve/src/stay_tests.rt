//! A daemon that stays: many connections, at once and one after another, and peers that don't do
//! what they should.

use crate::asking::{LINES, big_script, poll_frame};
use crate::checking::poll_often;
use crate::client::free_port;
use crate::feed::Feed;
use crate::hostile::{hostile_texts, send_all};
use crate::staying::stay;
use eden_serve::DaemonFault;
use eden_stream::Counted;
use std::alloc::Global;
use std::fs::{File, Files};
use std::net::{Net, TcpListener, TcpStream};
use std::process::Abort;
use std::sync::Wait;
use std::sync::atomic::{AtomicBool, Ordering};
use std::test::Fail;
use std::thread;
use std::thread::Threads;
use std::time::{Clock, Duration, Instant};

/// Runs a script and then lines that write `w`, with this many threads, until the flag is set.
fn stay_until<
    R: Threads
        + Wait
        + Clock
        + Files<File = File>
        + Net<Listener = TcpListener, Stream = TcpStream>
        + Sync,
>(
    rt: &R,
    alloc: Global,
    script: &[u8],
    ended: &AtomicBool,
    port: u16,
    threads: u64,
) -> Result<(), DaemonFault> {
    let feed = Feed::new(rt, script, LINES, b"".as_slice(), ended);
    let mut writer = Counted::new(Vec::new(alloc));
    stay(rt, alloc, feed, &mut writer, port, threads, false)
}

/// Eight clients ask so often each. Says whether all replies are right.
fn eight_clients<R: Threads + Net<Listener = TcpListener, Stream = TcpStream> + Clock + Sync>(
    rt: &R,
    alloc: Global,
    port: u16,
    frame: &[u8],
    times: u32,
) -> bool {
    match thread::map_indices(rt, alloc, 8, &|_| poll_often(rt, alloc, port, frame, times)) {
        Ok(right) => right.as_slice().iter().all(|right| *right),
        Err(_) => false,
    }
}

/// The script, what hostile peers send, and what each of eight clients asks how often, each time on
/// another connection.
#[derive(Drop)]
struct Plan {
    script: Vec<u8>,
    hostile: Vec<Vec<u8>>,
    frame: Vec<u8>,
    times: u32,
}

impl Plan {
    /// Makes a plan for these peers, in which each client asks this often.
    fn new(alloc: Global, hostile: Vec<Vec<u8>>, times: u32) -> Result<Plan, Fail> {
        Ok(Plan {
            script: big_script(alloc)?,
            hostile,
            frame: poll_frame(alloc)?,
            times,
        })
    }
}

/// What is left once the input of lines has ended: connections that are open, whether all replies
/// were right, and when it has ended.
#[derive(Drop)]
struct Left {
    streams: Vec<TcpStream>,
    right: bool,
    since: Instant,
}

/// Eight clients ask beside hostile peers, and then the input of lines ends.
fn ask_beside<R: Threads + Net<Listener = TcpListener, Stream = TcpStream> + Clock + Sync>(
    rt: &R,
    alloc: Global,
    port: u16,
    plan: &Plan,
    ended: &AtomicBool,
) -> Option<Left> {
    let streams = send_all(rt, alloc, port, plan.hostile.as_slice());
    let right = eight_clients(rt, alloc, port, plan.frame.as_slice(), plan.times);
    let since = Instant::now(rt);
    ended.store(true, Ordering::SeqCst);
    Some(Left {
        streams: streams?,
        right,
        since: since.ok()?,
    })
}

/// Asserts that all replies were right, and that the daemon has ended soon after its lines, though
/// the peers stay connected.
fn ends_soon<R: Clock + Abort>(rt: &R, left: Option<Left>) -> Result<(), Fail> {
    let Left {
        streams: _streams,
        right,
        since,
    } = left.ok_or("a peer could not connect")?;
    assert!(rt; right);
    assert!(rt; since.elapsed(rt)? < Duration::from_secs(5));
    Ok(())
}

#[test]
fn two_thousand_connections(rt: HostRuntime) -> Result<(), Fail> {
    let alloc = rt.alloc();
    let plan = Plan::new(alloc, Vec::new(alloc), 250)?;
    let (port, ended) = (free_port(&rt)?, AtomicBool::new(false));
    let (outcome, left) = thread::join(
        &rt,
        || stay_until(&rt, alloc, plan.script.as_slice(), &ended, port, 8),
        || ask_beside(&rt, alloc, port, &plan, &ended),
    );
    assert_eq!(rt; outcome, Ok(()));
    ends_soon(&rt, left)
}

#[test]
fn hostile_peers(rt: HostRuntime) -> Result<(), Fail> {
    let alloc = rt.alloc();
    let plan = Plan::new(alloc, hostile_texts(alloc)?, 20)?;
    let (port, ended) = (free_port(&rt)?, AtomicBool::new(false));
    let (outcome, left) = thread::join(
        &rt,
        || stay_until(&rt, alloc, plan.script.as_slice(), &ended, port, 8),
        || ask_beside(&rt, alloc, port, &plan, &ended),
    );
    assert_eq!(rt; outcome, Ok(()));
    ends_soon(&rt, left)
}
