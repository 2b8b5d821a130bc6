//! Connections to a daemon that stays, which change its mount, or may not.

use crate::asking::{QUERY, change_frame, poll_for};
use crate::client::{ask, ask_change, connect, free_port};
use crate::feed::Feed;
use crate::staying::stay;
use eden_globs::Filter;
use eden_history::{ChangeFault, Mark, Position};
use eden_ids::Id;
use eden_messages::Reply;
use eden_serve::DaemonFault;
use eden_stream::Counted;
use eden_wire::Done;
use std::alloc::Global;
use std::fs::{File, Files};
use std::net::{Net, TcpListener, TcpStream};
use std::sync::Wait;
use std::sync::atomic::{AtomicBool, Ordering};
use std::test::Fail;
use std::thread;
use std::thread::Threads;
use std::time::Clock;

/// A script after which nothing comes until its input ends.
const SCRIPT: &[u8] = b"mount empty 7 1000\nlisten\n";

/// The id that Git gives to the commit of `OBJECTS`.
const COMMIT: Id = Id(
    *b"\xf3\x1a\x9a\x6c\x44\x0b\xa3\x05\x9e\xa0\xec\x91\x1d\xfe\xcc\x32\x1c\xf8\xb4\x03",
);

/// How a change ends: the number after it, or why it is not made.
#[derive(Clone, Copy)]
enum Ended {
    /// It is made over the empty commit.
    At(u64),
    /// It has checked out `COMMIT`, with which `a` conflicts.
    Checked(u64),
    /// It is refused.
    Refused(ChangeFault),
    /// The connection may not change the mount.
    NotWritable,
}

/// Which connection asks for a change, its bytes after the query, and how it ends.
type Row = (usize, &'static [u8], Ended);

/// A file, a tree with it as `a`, and a commit of the tree, as Git has them.
const OBJECTS: &[u8] = b"\x08\0\0\0\x03\
\x01\0\0\0\x03hi\n\
\x02\0\0\0\x1d100644 a\0\
\x45\xb9\x83\xbe\x36\xb7\x3c\x07\x88\xdc\x9c\xbc\xb7\x6c\xbb\x80\xfc\x7b\xb0\x57\
\x03\0\0\0\x76tree c49897f29f9819a0ab6850d7e22443508a1a29d5\n\
author A <a@b> 1700000000 +0000\ncommitter A <a@b> 1700000000 +0000\n\none\n";

const CHECKOUT: &[u8] = b"\x04\
\xf3\x1a\x9a\x6c\x44\x0b\xa3\x05\x9e\xa0\xec\x91\x1d\xfe\xcc\x32\x1c\xf8\xb4\x03\x01";

const WRITE: &[u8] = b"\x01\0\x05notes\x01\0\0\0\x05to do";

/// What connections ask for, and what a poll since the mount names then.
struct Case {
    writable: bool,
    rows: &'static [Row],
    marks: &'static [(Mark, &'static [u8])],
    position: Position,
}

const CASES: &[Case] = &[
    Case {
        writable: true,
        rows: &[
            (0, WRITE, Ended::At(2)),
            (1, b"\x01\0\x01a\x02\0\0\0\x011", Ended::At(3)),
            (0, b"\x02\0\x05notes\0\x01n", Ended::At(4)),
            (
                1,
                b"\x01\0\x05notes\0",
                Ended::Refused(ChangeFault::NoEntry),
            ),
            (1, OBJECTS, Ended::At(4)),
            (0, CHECKOUT, Ended::Checked(5)),
        ],
        marks: &[
            (Mark::Created, b"a"),
            (Mark::Created, b"n"),
            (Mark::Changed, b"notes"),
        ],
        position: Position {
            generation: 7,
            sequence: 5,
            root: COMMIT,
        },
    },
    Case {
        writable: false,
        rows: &[
            (0, WRITE, Ended::NotWritable),
            (1, WRITE, Ended::NotWritable),
        ],
        marks: &[],
        position: Position {
            generation: 7,
            sequence: 1,
            root: Id::ZERO,
        },
    },
];

/// Returns whether a change has ended so.
fn has_ended(done: &Done, ended: Ended) -> bool {
    match (done, ended) {
        (Done::At(position), Ended::At(sequence)) => {
            position.sequence == sequence && position.root == Id::ZERO
        }
        (
            Done::Checked {
                position,
                conflicts,
            },
            Ended::Checked(sequence),
        ) => {
            let is_there = position.sequence == sequence && position.root == COMMIT;
            is_there && matches!(conflicts.as_slice(), [path] if path.as_bytes() == b"a".as_slice())
        }
        (Done::Refused(fault), Ended::Refused(wanted)) => *fault == wanted,
        (Done::NotWritable, Ended::NotWritable) => true,
        _ => false,
    }
}

/// Returns whether a poll names these paths with these marks, at this position.
fn names(reply: &Reply, case: &Case) -> bool {
    let Reply::ChangesAre {
        query,
        target,
        marked,
        prefixes,
    } = reply
    else {
        return false;
    };
    let is_whole = *query == QUERY && *target == case.position && prefixes.as_slice().is_empty();
    let marked = marked.as_slice();
    let mut pairs = marked.iter().zip(case.marks);
    is_whole
        && marked.len() == case.marks.len()
        && pairs.all(|(marked, (mark, path))| {
            marked.mark == *mark && marked.path.as_bytes() == *path
        })
}

/// Asks for the changes of a case, each on its connection, and polls on each connection then.
fn are_answered(alloc: Global, streams: &[TcpStream], case: &Case) -> Result<bool, Fail> {
    for (number, change, ended) in case.rows {
        let frame = change_frame(alloc, change)?;
        let stream = streams.get(*number).ok_or("there is no such connection")?;
        match ask_change(alloc, stream, frame.as_slice()) {
            Some(done) if has_ended(&done, *ended) => {}
            _ => return Ok(false),
        }
    }
    let poll = poll_for(alloc, Filter::all(alloc))?;
    for stream in streams {
        match ask(alloc, stream, poll.as_slice()) {
            Some(reply) if names(&reply, case) => {}
            _ => return Ok(false),
        }
    }
    Ok(true)
}

/// Asks for a change again and again, until no answer comes any more. Returns whether none does.
fn stops_answering(alloc: Global, stream: &TcpStream) -> Result<bool, Fail> {
    let frame = change_frame(alloc, WRITE)?;
    for _ in 0..1_000_000 {
        if ask_change(alloc, stream, frame.as_slice()).is_none() {
            return Ok(true);
        }
    }
    Ok(false)
}

/// Plays a case on two connections that are open at once, and then ends the input of lines.
fn play<R: Net<Stream = TcpStream> + Clock>(
    rt: &R,
    alloc: Global,
    port: u16,
    case: &Case,
    ended: &AtomicBool,
) -> Result<bool, Fail> {
    let streams = (connect(rt, port), connect(rt, port));
    let (Some(first), Some(second)) = streams else {
        ended.store(true, Ordering::SeqCst);
        return Ok(false);
    };
    let streams = [first, second];
    let right = are_answered(alloc, &streams, case);
    ended.store(true, Ordering::SeqCst);
    Ok(right? && stops_answering(alloc, &streams[0])?)
}

/// Runs the script of a case until the flag is set.
fn serve<
    R: Threads
        + Wait
        + Clock
        + Files<File = File>
        + Net<Listener = TcpListener, Stream = TcpStream>
        + Sync,
>(rt: &R, alloc: Global, port: u16, writable: bool, ended: &AtomicBool) -> Result<(), DaemonFault> {
    let feed = Feed::new(rt, SCRIPT, b"", b"", ended);
    let mut writer = Counted::new(Vec::new(alloc));
    stay(rt, alloc, feed, &mut writer, port, 2, writable)
}

// The daemon ends though a connection goes on to change the mount.
#[test]
fn connections_change_the_mount(rt: HostRuntime) -> Result<(), Fail> {
    let alloc = rt.alloc();
    for case in CASES {
        let (port, ended) = (free_port(&rt)?, AtomicBool::new(false));
        let (outcome, right) = thread::join(
            &rt,
            || serve(&rt, alloc, port, case.writable, &ended),
            || play(&rt, alloc, port, case, &ended),
        );
        assert_eq!(rt; outcome, Ok(()));
        assert!(rt; right?);
    }
    Ok(())
}
