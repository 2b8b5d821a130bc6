//! A writer for tests.

use std::alloc::Global;
use std::io;
use std::io::{ErrorKind, Write};

/// A writer that keeps what it takes.
#[derive(Drop)]
pub struct Sink {
    /// What it has taken.
    pub bytes: Vec<u8>,
    /// A write takes at most so many bytes.
    pub most: usize,
    /// No write takes a byte beyond this place.
    pub full_at: usize,
    /// Whether each second write, the first one among them, is an error of kind `Interrupted`.
    pub interrupts: bool,
    interrupted: bool,
}

impl Sink {
    /// A sink that takes all that it is given.
    pub fn new(alloc: Global) -> Sink {
        Sink {
            bytes: Vec::new(alloc),
            most: usize::MAX,
            full_at: usize::MAX,
            interrupts: false,
            interrupted: false,
        }
    }

    /// A sink that takes all that it is given, with interrupts or without.
    pub fn interrupting(alloc: Global, interrupts: bool) -> Sink {
        let mut sink = Sink::new(alloc);
        sink.interrupts = interrupts;
        sink
    }
}

impl Write for Sink {
    fn write(&mut self, buf: &[u8]) -> io::Result<usize> {
        if self.interrupts && !self.interrupted {
            self.interrupted = true;
            return Err(io::Error::from(ErrorKind::Interrupted));
        }
        self.interrupted = false;
        let room = self.full_at.saturating_sub(self.bytes.len());
        let taken = buf.len().min(self.most).min(room);
        self.bytes.extend_from_slice(&buf[..taken])?;
        Ok(taken)
    }

    fn flush(&mut self) -> io::Result<()> {
        Ok(())
    }
}
