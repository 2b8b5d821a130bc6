//! A writer for a stream without answers.
ghost use Rattle.eden_stream.specs.Counts.{one_more, CountsWrite};
ghost use Rattle.std.specs.Prelude.{◌≡◌};
ghost use Rattle.std.specs.Io.{WritesAtMost};
ghost use Rattle.std.specs.Io.KnownBytes.{WriteAppends, Keeps};

use super::counts::{CountedWrite, Faults};
use std::io;
use std::io::Write;

/// A writer that takes all bytes, keeps none of them, and never fails.
#[derive(Drop)]
pub struct Nowhere {
    called: u64,
}

impl Nowhere {
    /// Returns a writer with its count at 0.
    pub fn new() -> Self
        ensures { result.called ≡ 0 }
    {
        Nowhere { called: 0 }
    }
}

impl Faults for Nowhere {
    ghost failed = { λ _. 0 };

    ghost called = { λ nowhere. nowhere.called };

    fn faults(&self) -> u64 {
        0
    }

    fn calls(&self) -> u64 {
        self.called
    }
}

impl Write for Nowhere {
    fn write(&mut self, buf: &[u8]) -> io::Result<usize> {
        Ok(buf.len())
    }

    fn flush(&mut self) -> io::Result<()> {
        Ok(())
    }
}

impl CountedWrite for Nowhere {
    fn write_counted(&mut self, buf: &[u8]) -> io::Result<usize> {
        self.called = self.called.saturating_add(1);
        Ok(buf.len())
    }
}
