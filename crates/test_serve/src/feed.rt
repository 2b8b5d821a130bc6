//! An input that goes on.

use std::io::Read;
use std::sync::atomic::{AtomicBool, Ordering};
use std::time::{Clock, Duration};
use std::{io, thread};

/// How many milliseconds pass before the lines come again.
const PAUSE: u64 = 2;

/// A script; behind it lines that come again and again, five hundred times a second, until a flag is set; and then the last lines.
#[derive(Drop)]
pub struct Feed<'a, R: Clock> {
    rt: &'a R,
    /// What comes next.
    held: &'a [u8],
    lines: &'a [u8],
    last: Option<&'a [u8]>,
    ended: &'a AtomicBool,
}

impl<'a, R: Clock> Feed<'a, R> {
    /// This script, behind it these lines until the flag is set, and then the last ones.
    pub fn new(
        rt: &'a R,
        script: &'a [u8],
        lines: &'a [u8],
        last: &'a [u8],
        ended: &'a AtomicBool,
    ) -> Self {
        Feed {
            rt,
            held: script,
            lines,
            last: Some(last),
            ended,
        }
    }

    /// What comes next, where nothing is held: none where all has come.
    fn next(&mut self) -> Option<&'a [u8]> {
        if self.ended.load(Ordering::SeqCst) {
            return self.last.take();
        }
        thread::sleep(self.rt, Duration::from_millis(PAUSE));
        Some(self.lines)
    }
}

impl<R: Clock> Read for Feed<'_, R> {
    fn read(&mut self, buf: &mut [u8]) -> io::Result<usize> {
        for _ in 0..u64::MAX {
            if !self.held.is_empty() {
                break;
            }
            match self.next() {
                Some(lines) => self.held = lines,
                None => return Ok(0),
            }
        }
        let taken = self.held.len().min(buf.len());
        buf[..taken].copy_from_slice(&self.held[..taken]);
        self.held = &self.held[taken..];
        Ok(taken)
    }
}
