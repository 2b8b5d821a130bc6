//! The path of a walk, in a buffer of fixed size.

ghost use Rattle.std.specs.Prelude.{◌≡◌, ◌+◌, ◌≤◌, ◌++◌, ◌∷◌, [], length, take};

use arrayvec::ArrayVec;
use eden_ids::Path;
use std::marker::Model;

/// The bytes of a path, a slash, and another path.
const ROOM: usize = 2_049;

/// The bytes before each name of the directory that is read.
///
/// They are the directory's path and a slash, or nothing at the root.
#[derive(Drop)]
pub(crate) struct Trail {
    bytes: ArrayVec<u8, ROOM>,
}

impl Model for Trail {
    ghost use Rattle.std.specs.Prelude.{ℕ, List};

    ghost Value = { List ℕ };

    ghost view = { λ t. t.bytes.items };
}

impl Trail {
    /// Returns the trail at the root.
    pub(crate) fn new() -> Trail
        ensures { result ≡ [] }
    {
        Trail {
            bytes: ArrayVec::new(),
        }
    }

    /// Returns the trail at a directory.
    pub(crate) fn below(directory: &Path) -> Trail
        ensures trail { result ≡ directory.now ++ 47 ∷ [] }
        ensures short { length result ≤ 1025 }
    {
        let mut trail = Trail::new();
        trail.add(directory.as_bytes());
        trail.add(b"/".as_slice());
        trail
    }

    /// Adds bytes, and returns the length to which `leave` goes back.
    pub(crate) fn add(&mut self, bytes: &[u8]) -> usize
        requires { length self.old + length bytes.now ≤ 2049 }
        ensures added { self.new ≡ self.old ++ bytes.now }
        ensures length { result ≡ length self.old }
    {
        let length = self.bytes.len();
        // There is room.
        let _fits = self.bytes.try_extend_from_slice(bytes);
        length
    }

    /// Returns the bytes.
    pub(crate) fn as_bytes(&self) -> &[u8]
        ensures { result.now ≡ self.now }
    {
        self.bytes.as_slice()
    }

    /// Goes back to the length that `add` returned.
    pub(crate) fn leave(&mut self, length: usize)
        ensures { self.new ≡ take length self.old }
    {
        self.bytes.truncate(length);
    }
}
