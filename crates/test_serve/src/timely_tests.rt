//! Peers that are too slow.

use eden_serve::Timely;
use std::io::{Error, ErrorKind, Read, Write};
use std::sync::atomic::{AtomicBool, Ordering};
use std::test::Fail;
use std::time::{Clock, Duration};
use std::{io, thread};

/// How long a peer may take, in milliseconds.
const LIMIT: u64 = 40;

/// How many calls are made at most.
const MOST: u64 = 100;

/// What a device does at a call.
#[derive(Clone, Copy)]
enum Turn {
    /// It gives these bytes, or takes as many.
    Passes(&'static [u8]),
    /// It would have to wait longer.
    Waits,
    /// It would have to wait longer, and this call took some milliseconds.
    Rests(u64),
}

/// A device that does one thing after another, and then is at its end.
#[derive(Drop)]
struct Slow<'a, R: Clock> {
    rt: &'a R,
    turns: &'a [Turn],
}

impl<'a, R: Clock> Slow<'a, R> {
    fn next(&mut self) -> io::Result<&'static [u8]> {
        let Some((first, rest)) = self.turns.split_first() else {
            return Ok(b"");
        };
        self.turns = rest;
        match first {
            Turn::Passes(bytes) => Ok(bytes),
            Turn::Waits => Err(Error::from(ErrorKind::WouldBlock)),
            Turn::Rests(time) => {
                thread::sleep(self.rt, Duration::from_millis(*time));
                Err(Error::from(ErrorKind::WouldBlock))
            }
        }
    }
}

impl<'a, R: Clock> Read for Slow<'a, R> {
    fn read(&mut self, buf: &mut [u8]) -> io::Result<usize> {
        let bytes = self.next()?;
        let count = bytes.len().min(buf.len());
        for (to, from) in buf.iter_mut().zip(bytes) {
            *to = *from;
        }
        Ok(count)
    }
}

impl<'a, R: Clock> Write for Slow<'a, R> {
    fn write(&mut self, buf: &[u8]) -> io::Result<usize> {
        Ok(self.next()?.len().min(buf.len()))
    }

    fn flush(&mut self) -> io::Result<()> {
        Ok(())
    }
}

/// How calls of a device end: at how many, and whether as one that is given up.
type Ended = (u64, bool);

/// Reads until the device is at its end, or is given up.
fn end_of_reads<R: Clock>(rt: &R, turns: &[Turn]) -> Ended {
    let (slow, limit) = (Slow { rt, turns }, Duration::from_millis(LIMIT));
    let late = AtomicBool::new(false);
    let mut device = Timely::new(rt, slow, limit, &late);
    for count in 0..MOST {
        match device.read(&mut [0; 16]) {
            Ok(0) => return (count, false),
            Err(error) if error.kind() == ErrorKind::ConnectionAborted => {
                return (count, late.load(Ordering::SeqCst));
            }
            _ => {}
        }
    }
    (MOST, false)
}

/// Writes until the device takes nothing, or is given up.
fn end_of_writes<R: Clock>(rt: &R, turns: &[Turn]) -> Ended {
    let (slow, limit) = (Slow { rt, turns }, Duration::from_millis(LIMIT));
    let late = AtomicBool::new(false);
    let mut device = Timely::new(rt, slow, limit, &late);
    for count in 0..MOST {
        match device.write(&[0; 16]) {
            Ok(0) => return (count, false),
            Err(error) if error.kind() == ErrorKind::ConnectionAborted => {
                return (count, late.load(Ordering::SeqCst));
            }
            _ => {}
        }
    }
    (MOST, false)
}

/// A frame of three bytes.
const FRAME: &[u8] = b"\0\0\0\x03abc";

/// What a device that is read does, and how that ends.
const READS: &[(&[Turn], Ended)] = &[
    // Nothing has begun, or all that has begun has come.
    (
        &[Turn::Rests(60), Turn::Rests(60), Turn::Passes(FRAME)],
        (3, false),
    ),
    (
        &[
            Turn::Passes(FRAME),
            Turn::Rests(60),
            Turn::Rests(60),
            Turn::Passes(FRAME),
        ],
        (4, false),
    ),
    (
        &[Turn::Passes(b"\0\0\0\0"), Turn::Rests(60), Turn::Rests(60)],
        (3, false),
    ),
    (
        &[
            Turn::Passes(b"\0\0"),
            Turn::Waits,
            Turn::Passes(b"\0\x03abc"),
            Turn::Rests(60),
        ],
        (4, false),
    ),
    // A length or a body that does not come.
    (
        &[Turn::Passes(b"\0"), Turn::Waits, Turn::Rests(60)],
        (2, true),
    ),
    (
        &[Turn::Passes(b"\0\0\0\x03ab"), Turn::Waits, Turn::Rests(60)],
        (2, true),
    ),
    (
        &[
            Turn::Passes(FRAME),
            Turn::Passes(b"\0\0\0\x03"),
            Turn::Rests(60),
        ],
        (2, true),
    ),
    (
        &[Turn::Passes(b"\0\0\0\x03abc\0\0\0\x01"), Turn::Rests(60)],
        (1, true),
    ),
    // It comes, but too slowly.
    (
        &[
            Turn::Passes(b"\0"),
            Turn::Rests(25),
            Turn::Passes(b"\0"),
            Turn::Rests(25),
            Turn::Passes(b"\0\x03abc"),
        ],
        (3, true),
    ),
];

/// What a device that is written to does, and how that ends.
const WRITES: &[(&[Turn], Ended)] = &[
    (
        &[Turn::Passes(FRAME), Turn::Waits, Turn::Passes(FRAME)],
        (3, false),
    ),
    (&[Turn::Waits, Turn::Rests(60)], (1, true)),
    // Each time some bytes are taken it waits anew.
    (
        &[
            Turn::Waits,
            Turn::Rests(25),
            Turn::Passes(b"a"),
            Turn::Waits,
            Turn::Rests(25),
            Turn::Passes(b"a"),
        ],
        (6, false),
    ),
];

#[test]
fn slow_frames(rt: HostRuntime) -> Result<(), Fail> {
    for (number, (turns, ended)) in READS.iter().enumerate() {
        assert!(rt; end_of_reads(&rt, turns) == *ended, "{number}");
    }
    Ok(())
}

#[test]
fn slow_replies(rt: HostRuntime) -> Result<(), Fail> {
    for (number, (turns, ended)) in WRITES.iter().enumerate() {
        assert!(rt; end_of_writes(&rt, turns) == *ended, "{number}");
    }
    Ok(())
}
