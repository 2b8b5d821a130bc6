//! What a search or a list passes over.

use crate::size::Size;

/// What a search or a list of files passes over: some paths, and some whole directories.
///
/// No method allocates.
pub trait Passes {
    ghost use Rattle.std.specs.Prelude.{◌≡◌, ◌++◌, ℕ, Bool, List, true};
    ghost use Rattle.eden_objects.specs.Passing.{IsWithin};

    /// Which paths are passed over.
    ghost passes: { Self → List ℕ → Bool };

    /// Returns true if a file at a path is passed over.
    fn passes_file(&self, path: &[u8]) -> bool
        ensures { result ≡ passes self.now path.now };

    /// Returns true only if a whole directory is passed over.
    ///
    /// All files of a directory of this size must be. Such a directory need not be read.
    /// `front` is what precedes each of its names: its path and a slash, or nothing at
    /// the root. If the answer is false, some or all of the files may still be passed
    /// over, and each is asked for.
    fn passes_below(&self, front: &[u8], size: Size) -> bool
        ensures { result ≡ true → (rest : List ℕ) → IsWithin size rest → passes self.now (front.now ++ rest) ≡ true };
}

/// Passes nothing over.
#[derive(Clone, Copy)]
pub struct Nothing;

impl Passes for Nothing {
    ghost use Rattle.std.specs.Prelude.{false};

    ghost passes = { λ nothing path. false };

    fn passes_file(&self, _path: &[u8]) -> bool {
        false
    }

    fn passes_below(&self, _front: &[u8], _size: Size) -> bool {
        false
    }
}
