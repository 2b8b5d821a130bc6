//! Readers and writers that count their calls, and those of them that failed.
ghost use Rattle.std.specs.Prelude.{◌≡◌, ℕ, Result};
ghost use Rattle.std.specs.Io.{ReadsAtMost, WritesAtMost};
ghost use Rattle.std.specs.Io.KnownBytes.{Keeps, ReadConsumes, WriteAppends};
ghost use Rattle.eden_stream.specs.Counts.{CountsRead, CountsWrite, one_more};

use std::io;
use std::io::{Read, Write};

/// The counts of a device since it was made.
///
/// A count stays at `u64::MAX` once it is there.
pub trait Faults {
    // The calls that failed.
    ghost failed: { Self → ℕ };

    // The calls.
    ghost called: { Self → ℕ };

    /// Returns how many of the calls failed.
    ///
    /// A call failed if it returned an error, or was a write of some bytes that took none.
    fn faults(&self) -> u64
        ensures { result ≡ failed self.now };

    /// Returns how many reads, or writes and flushes, the device was asked for.
    fn calls(&self) -> u64
        ensures { result ≡ called self.now };
}

/// A reader whose every read is counted.
pub trait CountedRead: Read + Faults {
    /// Reads once, and counts the call.
    ///
    /// If it returns an error, a fault is counted too.
    fn read_counted(&mut self, buf: &mut [u8]) -> io::Result<usize>
        ensures bound { ReadsAtMost result buf.new }
        ensures bytes { ReadConsumes (Self.remaining self.old) (Self.remaining self.new) result buf.new }
        ensures calls { Self.called self.new ≡ one_more (Self.called self.old) }
        ensures faults { CountsRead (Self.failed self.old) (Self.failed self.new) result };
}

/// A writer whose every write is counted.
pub trait CountedWrite: Write + Faults {
    /// Writes once, and counts the call.
    ///
    /// If it returns an error or takes none of some bytes, a fault is counted too.
    fn write_counted(&mut self, buf: &[u8]) -> io::Result<usize>
        ensures bound { WritesAtMost result buf.now }
        ensures bytes { WriteAppends (Self.contents self.old) (Self.contents self.new) result buf.now }
        ensures calls { Self.called self.new ≡ one_more (Self.called self.old) }
        ensures faults { CountsWrite (Self.failed self.old) (Self.failed self.new) result buf.now };
}

/// A device with its counts: of a reader or of a writer, whichever `D` is.
#[derive(Drop)]
pub struct Counted<D> {
    device: D,
    failed: u64,
    called: u64,
}

impl<D> Counted<D> {
    /// Returns the device, with both counts at 0.
    pub fn new(device: D) -> Self
        ensures device { result.device ≡ device }
        ensures none_failed { result.failed ≡ 0 }
        ensures none_called { result.called ≡ 0 }
    {
        Counted {
            device,
            failed: 0,
            called: 0,
        }
    }
}

impl<D> Faults for Counted<D> {
    ghost failed = { λ counted. counted.failed };

    ghost called = { λ counted. counted.called };

    fn faults(&self) -> u64 {
        self.failed
    }

    fn calls(&self) -> u64 {
        self.called
    }
}

impl<D: Read> Read for Counted<D> {
    ghost remaining = { λ counted. D.remaining counted.device };

    fn read(&mut self, buf: &mut [u8]) -> io::Result<usize>
        ensures bound { ReadsAtMost result buf.new }
        ensures bytes { ReadConsumes (D.remaining self.old.device) (D.remaining self.new.device) result buf.new }
        ensures calls { self.new.called ≡ one_more self.old.called }
        ensures faults { CountsRead self.old.failed self.new.failed result }
    {
        self.called = self.called.saturating_add(1);
        let outcome = self.device.read(buf);
        if outcome.is_err() {
            self.failed = self.failed.saturating_add(1);
        }
        outcome
    }
}

impl<D: Read> CountedRead for Counted<D> {
    fn read_counted(&mut self, buf: &mut [u8]) -> io::Result<usize> {
        self.read(buf)
    }
}

impl<D: Write> Write for Counted<D> {
    ghost contents = { λ counted. D.contents counted.device };

    fn write(&mut self, buf: &[u8]) -> io::Result<usize>
        ensures bound { WritesAtMost result buf.now }
        ensures bytes { WriteAppends (D.contents self.old.device) (D.contents self.new.device) result buf.now }
        ensures calls { self.new.called ≡ one_more self.old.called }
        ensures faults { CountsWrite self.old.failed self.new.failed result buf.now }
    {
        self.called = self.called.saturating_add(1);
        let outcome = self.device.write(buf);
        let failed = match &outcome {
            Ok(taken) => *taken == 0 && !buf.is_empty(),
            Err(_) => true,
        };
        if failed {
            self.failed = self.failed.saturating_add(1);
        }
        outcome
    }

    fn flush(&mut self) -> io::Result<()>
        ensures bytes { Keeps (D.contents self.old.device) (D.contents self.new.device) }
        ensures calls { self.new.called ≡ one_more self.old.called }
        ensures faults { CountsRead self.old.failed self.new.failed result }
    {
        self.called = self.called.saturating_add(1);
        let outcome = self.device.flush();
        if outcome.is_err() {
            self.failed = self.failed.saturating_add(1);
        }
        outcome
    }
}

impl<D: Write> CountedWrite for Counted<D> {
    fn write_counted(&mut self, buf: &[u8]) -> io::Result<usize> {
        self.write(buf)
    }
}
