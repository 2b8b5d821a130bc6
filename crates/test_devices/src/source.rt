//! Readers for tests.

use std::io;
use std::io::{ErrorKind, Read};

/// A reader of bytes that are given in pieces.
#[derive(Drop)]
pub struct Source<'a> {
    bytes: &'a [u8],
    at: usize,
    /// A read gives at most so many bytes.
    pub most: usize,
    /// A read that begins below this place ends there at the latest.
    pub cut: usize,
    /// Each read from this place on is an error, of kind `BrokenPipe`.
    pub fails_at: usize,
    /// Whether each second read, the first one among them, is an error of kind `Interrupted`.
    pub interrupts: bool,
    interrupted: bool,
}

impl<'a> Source<'a> {
    /// A source that gives what it is asked for, to the end of these bytes.
    pub fn new(bytes: &'a [u8]) -> Source<'a> {
        Source {
            bytes,
            at: 0,
            most: usize::MAX,
            cut: usize::MAX,
            fails_at: usize::MAX,
            interrupts: false,
            interrupted: false,
        }
    }

    /// A source that gives at most so many bytes a read, and not beyond `cut` in one that begins below it, with interrupts or without.
    pub fn in_pieces(bytes: &'a [u8], most: usize, cut: usize, interrupts: bool) -> Source<'a> {
        let mut source = Source::new(bytes);
        source.most = most;
        source.cut = cut;
        source.interrupts = interrupts;
        source
    }

    /// A source that gives the bytes in front of a place, and fails there.
    pub fn failing_at(bytes: &'a [u8], place: usize) -> Source<'a> {
        let mut source = Source::new(bytes);
        source.cut = place;
        source.fails_at = place;
        source
    }
}

impl<'a> Read for Source<'a> {
    fn read(&mut self, buf: &mut [u8]) -> io::Result<usize> {
        if self.interrupts && !self.interrupted {
            self.interrupted = true;
            return Err(io::Error::from(ErrorKind::Interrupted));
        }
        self.interrupted = false;
        if self.at >= self.fails_at {
            return Err(io::Error::from(ErrorKind::BrokenPipe));
        }
        if self.at >= self.bytes.len() {
            return Ok(0);
        }
        let mut end = self.bytes.len().min(self.at.saturating_add(self.most));
        if self.at < self.cut {
            end = end.min(self.cut);
        }
        let left = &self.bytes[self.at..end.max(self.at)];
        let taken = left.len().min(buf.len());
        buf[..taken].copy_from_slice(&left[..taken]);
        self.at += taken;
        Ok(taken)
    }
}

/// A reader that gives the same bytes again and again, one a read, and never ends. Of no bytes it ends at once.
#[derive(Drop)]
pub struct Endless<'a> {
    bytes: &'a [u8],
    at: usize,
}

impl<'a> Endless<'a> {
    /// A source that begins with the first of these bytes.
    pub fn new(bytes: &'a [u8]) -> Endless<'a> {
        Endless { bytes, at: 0 }
    }
}

impl<'a> Read for Endless<'a> {
    fn read(&mut self, buf: &mut [u8]) -> io::Result<usize> {
        if self.at >= self.bytes.len() {
            self.at = 0;
        }
        if self.at >= self.bytes.len() || buf.is_empty() {
            return Ok(0);
        }
        buf[0] = self.bytes[self.at];
        self.at += 1;
        Ok(1)
    }
}
