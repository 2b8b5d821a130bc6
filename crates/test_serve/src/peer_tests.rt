//! Peers that do not do what they should, and one that is served beside them.

use crate::asking::{BIG_SEQUENCE, big_script};
use crate::checking::{Frames, ask_both, make_frames};
use crate::client::{connect, listen, port_of, read_reply};
use crate::hostile::{hostile_texts, send_all};
use crate::serving::serve;
use std::alloc::Global;
use std::io::Write;
use std::net::{Net, Shutdown, TcpListener, TcpStream};
use std::sync::Wait;
use std::sync::atomic::{AtomicBool, Ordering};
use std::test::Fail;
use std::thread;
use std::thread::Threads;
use std::time::Clock;

/// What is printed by the script that writes two files.
const PRINTED: &[u8] = b"at 7 1 empty\nat 7 2 empty\nat 7 3 empty\n";

/// Sends a frame a byte at a time, and says whether a reply comes to it.
fn ask_slowly(alloc: Global, mut stream: &TcpStream, frame: &[u8]) -> Option<bool> {
    for byte in frame {
        stream.write_all(&[*byte]).ok()?;
    }
    Some(read_reply(alloc, stream).is_some())
}

/// Asks beside peers whose connections are open meanwhile, and then beside one that ends inside a frame. Says whether each reply is right.
fn ask_beside<R: Net<Stream = TcpStream> + Clock>(
    rt: &R,
    alloc: Global,
    port: u16,
    frames: &Frames,
    texts: &[Vec<u8>],
) -> Option<bool> {
    let good = connect(rt, port)?;
    let streams = send_all(rt, alloc, port, texts)?;
    let first = ask_both(alloc, &good, frames)?;
    let slow = connect(rt, port)?;
    let slowly = ask_slowly(alloc, &slow, &frames.poll)?;
    for stream in streams.as_slice() {
        // The peer may have closed it.
        let _ = stream.shutdown(Shutdown::Both);
    }
    let second = ask_both(alloc, &good, frames)?;
    Some(slowly && first <= second)
}

/// Asks so, and then the writer is to end.
fn run_peers<R: Net<Stream = TcpStream> + Clock>(
    rt: &R,
    alloc: Global,
    port: u16,
    frames: &Frames,
    texts: &[Vec<u8>],
    ended: &AtomicBool,
) -> bool {
    let right = ask_beside(rt, alloc, port, frames, texts);
    ended.store(true, Ordering::SeqCst);
    right == Some(true)
}

/// Whether a client is served beside peers that send these texts.
fn is_served_beside<
    R: Threads + Wait + Clock + Net<Listener = TcpListener, Stream = TcpStream> + Sync,
>(rt: &R, alloc: Global, frames: &Frames, texts: &[Vec<u8>]) -> Result<bool, Fail> {
    let listener = listen(rt)?;
    let port = port_of(&listener);
    let script = big_script(alloc)?;
    let script = script.as_slice();
    let ended = AtomicBool::new(false);
    let (served, right) = thread::join(
        rt,
        || serve(rt, alloc, script, PRINTED, &ended, listener, 7),
        || run_peers(rt, alloc, port, frames, texts, &ended),
    );
    Ok(served && right)
}

#[test]
fn hostile_peers(rt: HostRuntime) -> Result<(), Fail> {
    let frames = make_frames(rt.alloc(), BIG_SEQUENCE)?;
    let texts = hostile_texts(rt.alloc())?;
    assert!(rt; is_served_beside(&rt, rt.alloc(), &frames, texts.as_slice())?);
    Ok(())
}
