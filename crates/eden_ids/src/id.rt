//! An object's id.

ghost use Rattle.std.specs.Prelude.{◌≡◌, ◌<◌};
ghost use Rattle.eden_ids.specs.Columns.{word};

/// The name of an object: twenty bytes.
///
/// In Git it is the SHA-1 of the object's type and payload. Ids are compared byte by
/// byte. No function of `Id` allocates.
#[derive(Clone, Copy, Debug, PartialEq, Eq, PartialOrd, Ord, Hash)]
pub struct Id(pub [u8; 20]);

impl Id {
    /// The id of the empty commit, which holds no file. No object has this id.
    pub const ZERO: Id = Id([0; 20]);

    /// Returns one of the five words of an id, counted from 0.
    ///
    /// A word is four bytes, highest byte first. `place` must be below 5.
    pub fn word(&self, place: usize) -> u32
        requires { place < 5 }
        ensures { result ≡ word place self.now }
    {
        let at = 4 * place;
        u32::from_be_bytes([self.0[at], self.0[at + 1], self.0[at + 2], self.0[at + 3]])
    }
}
