//! The bytes that were read and not answered yet.
ghost use Rattle.std.specs.Prelude.{◌≡◌, ◌≢◌, ℕ, ◌+◌, ◌∷◌, ◌++◌, ◌<◌, ◌≤◌, List, [], MatchOption, OnErr, OnOk, drop, length, slice_index, take};
ghost use Rattle.eden_stream.specs.Lines.{HasNoBreak};
ghost use Rattle.eden_stream.specs.internal.LineSteps.{BreaksAt};

use bstr::ByteSlice;
use std::alloc::{AllocError, Global};
use std::marker::Model;

/// Returns where the first line of some bytes ends, if it does.
fn first_break(bytes: &[u8]) -> Option<usize>
    ensures { MatchOption result (HasNoBreak bytes.now) (BreaksAt bytes.now) }
{
    bytes.find_byte(b'\n')
}

/// The bytes that were read and not answered yet, in order.
///
/// The answered ones stay in front until the next bytes come, and no byte is
/// looked at twice for the end of a line.
#[derive(Drop)]
pub struct Buffer {
    bytes: Vec<u8>,

    // Where the bytes begin that are not answered yet.
    start: usize,

    // From `start` up to here no line ends.
    searched: usize,
}

impl Model for Buffer {
    ghost Value = { List ℕ };

    ghost view = { λ held. drop held.start held.bytes.items };

    ghost invariant = { λ held. (held.start ≤ held.searched) × (held.searched ≤ length held.bytes.items)
        × ((k : ℕ) → held.start ≤ k → k < held.searched → slice_index held.bytes.items k ≢ 10) };
}

impl Buffer {
    /// Returns no bytes, which takes no memory.
    pub(crate) fn new(alloc: Global) -> Self
        ensures { result ≡ [] }
    {
        Buffer {
            bytes: Vec::new(alloc),
            start: 0,
            searched: 0,
        }
    }

    /// Returns the bytes.
    pub fn as_slice(&self) -> &[u8]
        ensures { result.now ≡ self.now }
    {
        &self.bytes[self.start..]
    }

    /// Returns how long the first line is, if its end is there.
    pub(crate) fn find_break(&mut self) -> Option<usize>
        ensures same { self.new ≡ self.old }
        ensures found { MatchOption result (HasNoBreak self.old) (BreaksAt self.old) }
    {
        match first_break(&self.bytes[self.searched..]) {
            Some(place) => {
                self.searched += place;
                Some(self.searched - self.start)
            }
            None => {
                self.searched = self.bytes.len();
                None
            }
        }
    }

    /// Lets the first `count` bytes go.
    pub(crate) fn drop_first(&mut self, count: usize)
        requires { count ≤ length self.old }
        ensures { self.new ≡ drop count self.old }
    {
        self.start += count;
        self.searched = self.start;
    }

    /// Keeps the first byte alone.
    pub(crate) fn keep_first(&mut self)
        requires some { 0 < length self.old }
        requires unended { HasNoBreak self.old }
        ensures { self.new ≡ take 1 self.old }
    {
        self.bytes.truncate(self.start + 1);
        self.searched = self.start + 1;
    }

    /// Makes the bytes the first ones in memory.
    fn drop_answered(&mut self)
        ensures { self.new ≡ self.old }
    {
        self.bytes.rotate_left(self.start);
        self.bytes.truncate(self.bytes.len() - self.start);
        self.searched -= self.start;
        self.start = 0;
    }

    /// Puts what was read after the bytes.
    pub(crate) fn append(&mut self, got: &[u8]) -> Result<(), AllocError>
        ensures ok { OnOk result (self.new ≡ self.old ++ got.now) }
        ensures err { OnErr result (self.new ≡ self.old) }
    {
        if self.start > 0 {
            self.drop_answered();
        }
        self.bytes.extend_from_slice(got)
    }
}
