//! Many mirrors at once, while lines change what they follow.

use crate::asking::QUERY;
use crate::client::{ask, connect, listen, port_of};
use crate::feed::Feed;
use crate::served::serve_feed;
use crate::serving::SCRIPT;
use eden_connect::{Quiet, connect_program};
use eden_globs::Filter;
use eden_ids::Path;
use eden_messages::{Reply, Request};
use eden_sockets::Place;
use eden_wire::encode_request;
use std::alloc::Global;
use std::net::{Net, TcpListener, TcpStream};
use std::sync::atomic::{AtomicBool, Ordering};
use std::test::Fail;
use std::thread;
use std::thread::Threads;
use std::time::{Clock, Duration};

/// What the lines after `listen` change again and again, and what they do last.
const LINES: &[u8] =
    b"write w plain x\nwrite d/e exec 22\nrename d/e d/f\nremove d/f\nwrite w plain yy\n";

const LAST: &[u8] = b"write last link z\n";

/// What a mirror tells of all files once that is done, behind the line of its place.
const FILES: &[u8] = b"files 3\nlink 1 last\nplain 5 notes\nplain 2 w\n";

/// How many rounds a mirror makes while the lines go on.
const ROUNDS: u32 = 5;

/// How often somebody asks whether the lines have ended, a millisecond later each time.
const TRIES: u32 = 10_000;

/// What a mirror of this number tells after so many rounds, where it is placed.
fn follow<R: Net<Stream = TcpStream>>(
    rt: &R,
    alloc: Global,
    port: u16,
    mirror: u64,
    rounds: u32,
) -> Option<Vec<u8>> {
    let filter = Filter::all(alloc);
    let mut output = Vec::new(alloc);
    let ended = connect_program(
        rt,
        alloc,
        &mut output,
        Place::Port(port),
        mirror,
        1,
        rounds,
        &filter,
        &mut Quiet,
    );
    ended.ok()?;
    Some(output)
}

/// What the mirrors of these numbers tell after so many rounds each, each in a thread of its own, where all are placed.
fn follow_all<R: Threads + Sync, F: Fn((u64, u32)) -> Option<Vec<u8>> + Sync>(
    rt: &R,
    alloc: Global,
    mirrors: Vec<(u64, u32)>,
    follow: &F,
) -> Option<Vec<Vec<u8>>>
    requires { F.IsAlwaysCallable follow.now }
{
    let told = thread::map_vec(rt, mirrors, follow).ok()?;
    let mut texts = Vec::new(alloc);
    for text in told {
        texts.push(text?).ok()?;
    }
    Some(texts)
}

/// So many mirrors, numbered from one on, with the rounds that each is to make.
fn mirrors(alloc: Global, from: u64, count: u64, rounds: u32) -> Option<Vec<(u64, u32)>> {
    let mut mirrors = Vec::new(alloc);
    for number in from..from.saturating_add(count) {
        mirrors.push((number, rounds)).ok()?;
    }
    Some(mirrors)
}

/// The frame that asks for a file.
fn file_frame(alloc: Global, file: &[u8]) -> Option<Vec<u8>> {
    let path = Path::parse(alloc, file).ok()?;
    encode_request(alloc, &Request::Fetch { query: QUERY, path }).ok()
}

/// Waits until a file is there. It takes one connection.
fn await_file<R: Net<Stream = TcpStream> + Clock>(
    rt: &R,
    alloc: Global,
    port: u16,
    file: &[u8],
) -> Option<()> {
    let frame = file_frame(alloc, file)?;
    let stream = connect(rt, port)?;
    for _ in 0..TRIES {
        if let Reply::ContentIs {
            content: Some(_),
            ..
        } = ask(alloc, &stream, frame.as_slice())?
        {
            return Some(());
        }
        thread::sleep(rt, Duration::from_millis(1));
    }
    None
}

/// Whether all tell the same place, and the files that there are in the end.
fn are_right(texts: &[Vec<u8>]) -> bool {
    let Some(first) = texts.first() else {
        return false;
    };
    first.starts_with(b"placed 7 ".as_slice())
        && first.ends_with(FILES)
        && texts.iter().all(|text| text.as_slice() == first.as_slice())
}

/// Has so many mirrors follow while the lines go on, then ends the lines, and has so many others follow to where the mount is. Tells whether
/// all were placed, and the others hold what the mount holds. The lines have begun before the first mirror does: fast ones would otherwise
/// end them before one is read.
fn run_mirrors<
    R: Threads + Net<Stream = TcpStream> + Clock + Sync,
    F: Fn((u64, u32)) -> Option<Vec<u8>> + Sync,
>(rt: &R, alloc: Global, port: u16, count: u64, ended: &AtomicBool, follow: &F) -> Option<bool>
    requires { F.IsAlwaysCallable follow.now }
{
    await_file(rt, alloc, port, b"w".as_slice())?;
    let followed = follow_all(rt, alloc, mirrors(alloc, 1, count, ROUNDS)?, follow);
    ended.store(true, Ordering::SeqCst);
    await_file(rt, alloc, port, b"last".as_slice())?;
    let texts = follow_all(rt, alloc, mirrors(alloc, 101, count, 1)?, follow)?;
    Some(followed.is_some() && are_right(texts.as_slice()))
}

#[test]
fn mirrors_at_once(rt: HostRuntime) -> Result<(), Fail> {
    let alloc = rt.alloc();
    for count in [1, 8, 64] {
        let listener = listen(&rt)?;
        let port = port_of(&listener);
        let ended = AtomicBool::new(false);
        let (served, kept) = thread::join(
            &rt,
            || {
                let feed = Feed::new(&rt, SCRIPT, LINES, LAST, &ended);
                serve_feed(&rt, alloc, feed, listener, 2 * count + 2).is_some()
            },
            || {
                let follow = |(mirror, rounds)| follow(&rt, alloc, port, mirror, rounds);
                let kept = run_mirrors(&rt, alloc, port, count, &ended, &follow);
                ended.store(true, Ordering::SeqCst);
                kept
            },
        );
        assert!(rt; served && kept == Some(true), "{count}");
    }
    Ok(())
}
