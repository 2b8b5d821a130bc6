//! The input of a script, which remembers its last lines, so that a fault in one can be explained.

use crate::daemon_words::Setting;
use crate::reason::{Excerpt, reason_of};
use bstr::ByteSlice;
use std::alloc::{AllocError, Global};
use std::io;
use std::io::Read;

/// The most bytes that a line may have, its end not counted.
const LINE_LIMIT: usize = 65_536;

/// What is remembered of the lines that were read.
#[derive(Drop)]
struct Passed {
    alloc: Global,
    /// How many they are.
    count: u64,
    /// The number of the first that is `listen`.
    listen: Option<u64>,
    /// The number and the label of the last that mounts a commit.
    mount: Option<(u64, Vec<u8>)>,
}

/// Returns a line without the carriage return at its end.
fn without_return(line: &[u8]) -> &[u8] {
    line.strip_suffix(b"\r".as_slice()).unwrap_or(line)
}

impl Passed {
    /// Notes a line, which comes without its line feed.
    fn pass(&mut self, line: &[u8]) {
        self.count = self.count.saturating_add(1);
        let line = without_return(line);
        if self.listen.is_some() {
            return;
        }
        if line == b"listen".as_slice() {
            self.listen = Some(self.count);
        } else if let Some(words) = line.strip_prefix(b"mount ".as_slice()) {
            let label = words.split(|b| *b == b' ').next().unwrap_or(words);
            let label = &label[..label.len().min(LINE_LIMIT)];
            self.mount = label
                .to_vec(self.alloc)
                .ok()
                .map(|label| (self.count, label));
        }
    }

    /// Returns why `listen` can't be read.
    fn explain_listen(&self, setting: Setting) -> Result<String, AllocError> {
        let alloc = self.alloc;
        let Setting::Serve { has_objects } = setting else {
            return format!(in alloc; "only `edend serve` reads `listen`");
        };
        if let Some(first) = self.listen {
            return format!(in alloc; "line {first} is the one `listen` that a script has");
        }
        let Some((number, label)) = &self.mount else {
            return format!(in alloc;
                "nothing is mounted; a line `mount L GENERATION LIMIT` comes before `listen`"
            );
        };
        let label = Excerpt(label.as_slice());
        if has_objects {
            format!(in alloc;
                "nothing is mounted; line {number} was refused, as no commit is called {label}"
            )
        } else {
            format!(in alloc;
                "nothing is mounted; line {number} was refused, as no commit is called {label}: is --objects missing?"
            )
        }
    }

    /// Returns why a line that comes after these can't be read.
    fn explain(&self, line: &[u8], setting: Setting) -> Result<String, AllocError> {
        let alloc = self.alloc;
        if line.len() > LINE_LIMIT {
            return format!(in alloc; "the line has more than 65,536 bytes");
        }
        if line.ends_with(b"\r".as_slice()) {
            return format!(in alloc; "the line ends with a carriage return and no line feed");
        }
        if line == b"listen".as_slice() {
            return self.explain_listen(setting);
        }
        match reason_of(alloc, line)? {
            Some(reason) => format!(in alloc; "{reason}"),
            None => {
                format!(in alloc;
                    "after `listen` only write, remove, rename, renamedir, checkout, reset, flush and remount are read"
                )
            }
        }
    }

    /// Returns why the script may not end after these lines.
    fn explain_end(&self) -> Result<String, AllocError> {
        let alloc = self.alloc;
        if self.count == 0 {
            return format!(in alloc;
                "the script is empty; `edend serve` wants a mount and a line `listen`"
            );
        }
        format!(in alloc; "the script has ended without a line `listen`")
    }
}

/// The input of a script, and its last lines.
#[derive(Drop)]
pub(crate) struct Script<I> {
    device: I,
    passed: Passed,
    /// The lines that were not whole before the last read; of one that is too long no more than its
    /// front is kept.
    recent: Vec<u8>,
    /// Whether there was memory for them.
    is_known: bool,
    /// The last error that the device gave.
    pub(crate) failed: Option<io::Error>,
}

impl<I> Script<I> {
    /// Makes a script of which nothing is read.
    pub(crate) fn new(alloc: Global, device: I) -> Script<I> {
        Script {
            device,
            passed: Passed {
                alloc,
                count: 0,
                listen: None,
                mount: None,
            },
            recent: Vec::new(alloc),
            is_known: true,
            failed: None,
        }
    }

    /// Remembers bytes that were read. The whole lines before them were run, so they are passed
    /// over.
    fn remember(&mut self, bytes: &[u8]) {
        if let Some(end) = self.recent.as_slice().rfind_byte(b'\n') {
            for line in self.recent[..end].split(|b| *b == b'\n') {
                self.passed.pass(line);
            }
            self.recent.drain(..end + 1);
        }
        self.recent.truncate(LINE_LIMIT + 2);
        self.is_known &= self.recent.extend_from_slice(bytes).is_ok();
    }

    /// Passes over all lines, and returns how many there are, and whether the last has its end.
    pub(crate) fn finish(&mut self) -> (u64, bool) {
        let is_whole = self.recent.is_empty() || self.recent.ends_with(b"\n".as_slice());
        for line in self.recent.as_slice().lines_with_terminator() {
            self.passed.pass(line);
        }
        self.recent.clear();
        (self.passed.count, is_whole)
    }

    /// Returns why the line of this number can't be read, or why the script may not end before it.
    /// `None` if that isn't known.
    pub(crate) fn explain(&mut self, number: u64, setting: Setting) -> Option<String> {
        if !self.is_known {
            return None;
        }
        for line in self.recent.as_slice().lines_with_terminator() {
            if self.passed.count.saturating_add(1) == number {
                let line = match line.strip_suffix(b"\n".as_slice()) {
                    Some(line) => without_return(line),
                    None => line,
                };
                return self.passed.explain(line, setting).ok();
            }
            self.passed
                .pass(line.strip_suffix(b"\n".as_slice()).unwrap_or(line));
        }
        self.passed.explain_end().ok()
    }
}

impl<I: Read> Read for Script<I> {
    fn read(&mut self, buf: &mut [u8]) -> io::Result<usize> {
        match self.device.read(buf) {
            Ok(taken) => {
                if taken > 0 {
                    self.remember(&buf[..taken]);
                }
                Ok(taken)
            }
            Err(error) => {
                self.failed = Some(error);
                Err(error)
            }
        }
    }
}
