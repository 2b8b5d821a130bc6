//! The requests that may be on their way at once.

ghost use Rattle.std.specs.Prelude.{◌≡◌, ◌+◌, ◌≤◌, [], ◌∷◌, ◌++◌, nat_le, sum, drop, OnOk, OnErr};

use eden_ids::NoMemory;
use std::alloc::Global;
use std::collections::VecDeque;
use std::marker::Model;

/// The most bytes of unanswered requests.
///
/// A socket takes that many even if its peer reads none. So a write of them returns while the peer
/// waits for its replies to be read.
const LIMIT: u32 = 32_768;

/// The sizes in bytes of the frames that were sent and are not answered, oldest first.
#[derive(Drop)]
pub(crate) struct Window {
    sizes: VecDeque<u32>,
    /// The sum of the sizes.
    bytes: u32,
}

impl Model for Window {
    ghost use Rattle.std.specs.Prelude.{◌≡◌, ◌≤◌, ℕ, List, sum};

    ghost Value = { List ℕ };

    ghost view = { λ w. w.sizes.items };

    ghost invariant = { λ w. (w.bytes ≡ sum w.sizes.items) × (w.bytes ≤ 32768) };
}

impl Window {
    /// Returns a window in which all is answered.
    pub(crate) fn new(alloc: Global) -> Window
        ensures { result ≡ [] }
    {
        Window {
            sizes: VecDeque::new(alloc),
            bytes: 0,
        }
    }

    /// Returns whether half of the bytes are answered, so that more is worth a write.
    pub(crate) fn is_half_free(&self) -> bool
        ensures { result ≡ nat_le (sum self.now) 16384 }
    {
        self.bytes <= LIMIT / 2
    }

    /// Returns whether one more frame may be sent.
    pub(crate) fn fits(&self, size: u32) -> bool
        requires { size ≤ 32768 }
        ensures { result ≡ nat_le (sum self.now + size) 32768 }
    {
        self.bytes + size <= LIMIT
    }

    /// Adds a frame that is sent.
    pub(crate) fn add(&mut self, size: u32) -> Result<(), NoMemory>
        requires { sum self.old + size ≤ 32768 }
        ensures ok { OnOk result (self.new ≡ self.old ++ size ∷ []) }
        ensures err { OnErr result (self.new ≡ self.old) }
    {
        self.sizes.push_back(size)?;
        self.bytes += size;
        Ok(())
    }

    /// Removes the oldest frame, which is answered.
    pub(crate) fn remove_first(&mut self)
        ensures { self.new ≡ drop 1 self.old }
    {
        if let Some(size) = self.sizes.pop_front() {
            self.bytes -= size;
        }
    }
}
