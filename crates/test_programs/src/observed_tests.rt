//! What `edend serve` prints of frames and lines that are refused while it serves.

use crate::daemon_tests::{ALL, OneFile, split_words, words_at};
use eden_programs::edend;
use std::alloc::Global;
use std::fs::{File, Files};
use std::io::{Read, Write};
use std::net::{Net, Shutdown, TcpListener, TcpStream};
use std::sync::Wait;
use std::sync::atomic::{AtomicBool, Ordering};
use std::test::Fail;
use std::thread;
use std::thread::Threads;
use std::time::Clock;
use test_serve::{Feed, connect, free_port};

/// The words of a call, its script, what a client sends, the status, and what standard error gets.
type Row = (&'static str, &'static [u8], &'static [u8], u8, &'static str);

const MOUNTED: &[u8] = b"mount empty 7 1000\nlisten\n";

/// Changes that are refused after `listen`.
const REFUSED: &[u8] = b"mount empty 7 1000\nlisten\nremove d/zz\nwrite a plain x\n#\nremount 7\n";

/// No line `position` is read after `listen`.
const UNREADABLE: &[u8] = b"mount empty 7 1000\nlisten\nflush\nposition\nflush\n";

/// The length of a frame that is too large.
const TOO_LARGE: &[u8] = &[255; 4];

/// A frame of version 2, with a tag that no request has.
const BAD_TAG: &[u8] = &[0, 0, 0, 2, 2, 99];

/// Half of a frame.
const CUT_SHORT: &[u8] = &[0, 0, 0, 63, 2, 2];

const ROWS: &[Row] = &[
    (
        "edend serve --port PORT --connections 1",
        MOUNTED,
        b"",
        0,
        "",
    ),
    (
        "edend serve --port PORT --connections 1",
        MOUNTED,
        TOO_LARGE,
        0,
        "",
    ),
    (
        "edend serve --port PORT --connections 1 --verbose",
        MOUNTED,
        BAD_TAG,
        0,
        "edend: a connection has ended: frame 1: BadTag\n\
edend: refused changes: 0; connections that ended at an invalid frame: 1, since their peer was too slow: 0, since no place was free: 0; times that all places were taken: 0\n\
edend: the script has ended after line 2\n",
    ),
    (
        "edend serve --port PORT --connections 1 --verbose",
        REFUSED,
        b"",
        0,
        "edend: `remove d/zz` was refused: NoEntry\n\
edend: `remount` was refused: GenerationNotNew\n\
edend: refused changes: 2; connections that ended at an invalid frame: 0, since their peer was too slow: 0, since no place was free: 0; times that all places were taken: 0\n\
edend: the script has ended after line 6\n",
    ),
    (
        "edend serve --port PORT --connections 1",
        UNREADABLE,
        b"",
        1,
        "line 4: BadLine: after `listen` only write, remove, rename, renamedir, checkout, reset, flush and remount are read\n",
    ),
    (
        "edend serve --port PORT --connections 1 --verbose",
        UNREADABLE,
        b"",
        1,
        "edend: line 4 can't be read, so no line changes the mount any more\n\
line 4: BadLine: after `listen` only write, remove, rename, renamedir, checkout, reset, flush and remount are read\n",
    ),
    (
        "edend serve --port PORT --connections 1 --stay",
        MOUNTED,
        TOO_LARGE,
        0,
        "",
    ),
    (
        "edend serve --port PORT --connections 2 --stay --verbose",
        MOUNTED,
        b"",
        0,
        "edend: the script has ended after line 2\n",
    ),
    (
        "edend serve --port PORT --connections 1 --stay --verbose",
        MOUNTED,
        CUT_SHORT,
        0,
        "edend: all places are taken; the next connection waits\n\
edend: a connection has ended: frame 1: CutShort\n\
edend: refused changes: 0; connections that ended at an invalid frame: 1, since their peer was too slow: 0, since no place was free: 0; times that all places were taken: 1\n\
edend: the script has ended after line 2\n",
    ),
];

/// Connects, sends these bytes, and waits until the daemon has ended the connection.
fn send<R: Net<Stream = TcpStream> + Clock>(
    rt: &R,
    alloc: Global,
    port: u16,
    bytes: &[u8],
) -> bool {
    let Some(mut stream) = connect(rt, port) else {
        return false;
    };
    let mut rest = Vec::new(alloc);
    let is_sent = stream.write_all(bytes).is_ok() && stream.shutdown(Shutdown::Write).is_ok();
    is_sent && stream.read_to_end(&mut rest).is_ok() && rest.is_empty()
}

/// Runs a daemon whose script goes on until the flag is set. Returns its status and its output.
pub(crate) fn serve<
    R: Threads
        + Wait
        + Clock
        + Files<File = File>
        + Net<Listener = TcpListener, Stream = TcpStream>
        + Sync,
>(
    rt: &R,
    alloc: Global,
    words: &[String],
    script: &[u8],
    ended: &AtomicBool,
    errors: &mut Vec<u8>,
) -> (u8, Vec<u8>) {
    let file = OneFile {
        bytes: b"",
        fails_at: ALL,
    };
    let feed = Feed::new(rt, script, b"", b"", ended);
    let mut output = Vec::new(alloc);
    let status = edend(rt, alloc, &file, words, feed, &mut output, errors);
    (status, output)
}

/// Sends these bytes as a client, and then sets the flag. Returns whether nothing was answered.
fn send_alone<R: Net<Stream = TcpStream> + Clock>(
    rt: &R,
    alloc: Global,
    port: u16,
    bytes: &[u8],
    ended: &AtomicBool,
) -> bool {
    let is_sent = send(rt, alloc, port, bytes);
    ended.store(true, Ordering::SeqCst);
    is_sent
}

#[test]
fn refused_while_it_serves(rt: HostRuntime) -> Result<(), Fail> {
    let alloc = rt.alloc();
    for row in ROWS {
        let (line, script, bytes, status, told) = *row;
        let (port, ended) = (free_port(&rt)?, AtomicBool::new(false));
        let words = split_words(alloc, words_at(alloc, line, port)?.as_str())?;
        let mut errors = Vec::new(alloc);
        let ((observed, _), is_sent) = thread::join(
            &rt,
            || serve(&rt, alloc, words.as_slice(), script, &ended, &mut errors),
            || send_alone(&rt, alloc, port, bytes, &ended),
        );
        let is_told = errors.as_slice() == told.as_bytes();
        assert!(rt; is_sent && observed == status && is_told, "{line}: {told}");
    }
    Ok(())
}
