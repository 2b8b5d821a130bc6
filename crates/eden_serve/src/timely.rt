//! Devices that give up on a peer that is too slow.

ghost use Rattle.std.specs.Prelude.{◌≡◌};

use std::io;
use std::io::{Error, ErrorKind, Read, Write};
use std::sync::atomic::{AtomicBool, Ordering};
use std::time::{Clock, Duration, Instant};

/// How far a stream of frames was read.
#[derive(Clone, Copy)]
struct Progress {
    /// How many bytes of the next length were read, 0 to 3.
    count: u8,
    /// These bytes, as a number.
    length: u32,
    /// How many bytes of the body are still to come.
    left: u32,
}

impl Progress {
    /// Returns the beginning of a stream.
    fn new() -> Progress {
        Progress {
            count: 0,
            length: 0,
            left: 0,
        }
    }

    /// Returns whether a frame has begun that has not ended.
    fn is_within(&self) -> bool {
        self.count > 0 || self.left > 0
    }

    /// Notes a byte of a length. Returns whether the frame is whole with it.
    fn pass_length(&mut self, byte: u8) -> bool {
        self.length = self.length.wrapping_mul(256).wrapping_add(u32::from(byte));
        if self.count < 3 {
            self.count = self.count.saturating_add(1);
            return false;
        }
        self.left = self.length;
        (self.count, self.length) = (0, 0);
        self.left == 0
    }

    /// Notes bytes that were read. Returns whether a frame ends in them.
    fn pass(&mut self, bytes: &[u8]) -> bool {
        let mut rest = bytes;
        let mut ends = false;
        // Each turn takes a byte at least.
        for _ in 0..bytes.len() {
            let Some((first, others)) = rest.split_first() else {
                return ends;
            };
            if self.left == 0 {
                ends |= self.pass_length(*first);
                rest = others;
            } else {
                let taken = rest.len().min(self.left as usize);
                self.left = self.left.saturating_sub(taken as u32);
                ends |= self.left == 0;
                rest = &rest[taken..];
            }
        }
        ends
    }
}

/// A device of frames that fails once its peer takes longer than a limit.
///
/// A read fails if the rest of a frame that has begun does not come within the limit. The time
/// between two frames does not count. A write fails if its bytes are not taken within the limit.
/// Both fail as `ConnectionAborted`, and the flag `late` is set then.
///
/// That a call is late is found after the device has returned. So the device must have a patience
/// of its own, which is shorter than the limit. A late read fails even if the device has given
/// bytes, which are lost. A write of which the device took bytes never fails as late.
#[derive(Drop)]
pub struct Timely<'a, D, R: Clock> {
    rt: &'a R,
    device: D,
    limit: Duration,
    late: &'a AtomicBool,
    progress: Progress,
    /// Since when it waits for the peer, if it does.
    since: Option<Instant>,
}

impl<'a, D, R: Clock> Timely<'a, D, R> {
    /// Wraps a device that is at the beginning of a frame.
    pub fn new(rt: &'a R, device: D, limit: Duration, late: &'a AtomicBool) -> Timely<'a, D, R>
        ensures { result.device ≡ device }
    {
        Timely {
            rt,
            device,
            limit,
            late,
            progress: Progress::new(),
            since: None,
        }
    }

    /// Begins to wait for the peer, if it does not yet.
    fn wait(&mut self)
        ensures { self.new.device ≡ self.old.device }
    {
        if self.since.is_none() {
            self.since = Instant::now(self.rt).ok();
        }
    }

    /// Returns whether it waits for longer than the limit. It never does without a clock.
    fn is_late(&self) -> bool {
        let Some(since) = self.since else {
            return false;
        };
        since
            .elapsed(self.rt)
            .is_ok_and(|waited| waited > self.limit)
    }

    /// Returns why a call fails if it is late, and sets the flag.
    fn given_up(&self) -> Error {
        self.late.store(true, Ordering::SeqCst);
        Error::from(ErrorKind::ConnectionAborted)
    }
}

impl<'a, D: Read, R: Clock> Read for Timely<'a, D, R> {
    fn read(&mut self, buf: &mut [u8]) -> io::Result<usize> {
        if self.progress.is_within() {
            self.wait();
        }
        let outcome = self.device.read(buf);
        if let Ok(count) = &outcome {
            if self.progress.pass(buf.get(..*count).unwrap_or_default()) {
                self.since = None;
            }
        }
        if self.is_late() {
            return Err(self.given_up());
        }
        outcome
    }
}

impl<'a, D: Write, R: Clock> Write for Timely<'a, D, R> {
    ghost contents = { λ timely. D.contents timely.device };

    fn write(&mut self, buf: &[u8]) -> io::Result<usize> {
        match self.device.write(buf) {
            Ok(count) => {
                self.since = None;
                Ok(count)
            }
            Err(error) => {
                self.wait();
                if self.is_late() {
                    return Err(self.given_up());
                }
                Err(error)
            }
        }
    }

    fn flush(&mut self) -> io::Result<()> {
        self.device.flush()
    }
}
