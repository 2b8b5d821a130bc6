//! What a search or a list of one directory's files passes over.

ghost use Rattle.std.specs.Prelude.{◌≡◌};
ghost use Rattle.std.specs.FinMap as fin;
ghost use Rattle.eden_renames.specs.Renames.{is_governed, nearest};
ghost use Rattle.eden_renames.specs.internal.Regions.{is_past};

use crate::renames::Renames;
use eden_ids::is_path;
use eden_objects::{Passes, Size};

/// Returns true if the nearest entry above a path is deeper.
///
/// That is, its directory is longer than `long` bytes. If this holds for a directory's
/// front, it holds for all paths below the directory.
fn is_past(renames: &Renames, path: &[u8], long: usize) -> bool
    ensures { result ≡ is_past long (nearest (fin.entries renames.now) path.now) }
{
    match renames.nearest(path) {
        Some((at, _)) => at > long,
        None => false,
    }
}

/// What is not seen by one directory itself.
///
/// It is what the caller passes over, and what is seen by another directory.
#[derive(Drop)]
pub(crate) struct Region<'r, S: Passes> {
    pub(crate) renames: &'r Renames,
    /// The length of the directory's path in bytes.
    pub(crate) long: usize,
    pub(crate) passed: &'r S,
}

impl<'r, S: Passes> Passes for Region<'r, S> {
    ghost use Rattle.eden_renames.specs.internal.Regions.{is_apart};

    ghost passes = { λ region path. is_apart region.renames.now region.long (S.passes region.passed.now) path };

    fn passes_file(&self, path: &[u8]) -> bool {
        self.passed.passes_file(path) || is_past(self.renames, path, self.long)
    }

    fn passes_below(&self, front: &[u8], size: Size) -> bool {
        self.passed.passes_below(front, size) || is_past(self.renames, front, self.long)
    }
}

/// Returns true if a directory above a path has an entry.
///
/// If this holds for a directory's front, it holds for all paths below the directory.
fn is_governed(renames: &Renames, path: &[u8]) -> bool
    ensures { result ≡ is_governed renames.now path.now }
{
    renames.nearest(path).is_some()
}

/// What is not seen at its own path: everything below a directory that has an entry.
#[derive(Drop)]
pub(crate) struct Governed<'r> {
    pub(crate) renames: &'r Renames,
}

impl<'r> Passes for Governed<'r> {
    ghost use Rattle.eden_renames.specs.Renames.{is_governed};

    ghost passes = { λ governed path. is_governed governed.renames.now path };

    fn passes_file(&self, path: &[u8]) -> bool {
        is_governed(self.renames, path)
    }

    fn passes_below(&self, front: &[u8], _size: Size) -> bool {
        is_governed(self.renames, front)
    }
}

/// What is not a valid path.
#[derive(Clone, Copy)]
pub(crate) struct Pathless;

impl Passes for Pathless {
    ghost use Rattle.eden_renames.specs.internal.Listed.{is_pathless};

    ghost passes = { λ pathless path. is_pathless path };

    fn passes_file(&self, path: &[u8]) -> bool {
        !is_path(path)
    }

    fn passes_below(&self, _front: &[u8], _size: Size) -> bool {
        false
    }
}
