//! The dirty files of a working copy, as a tree of files.

ghost use Rattle.std.specs.Prelude.{◌≡◌};
ghost use Rattle.eden_ids.specs.FileMaps.{paths};
ghost use Rattle.eden_history.specs.DirtyFiles.{dirty_files};

use crate::listed::is_listed;
use bytes::Bytes;
use eden_ids::{FileTree, Kind, Path, has_path_below};

/// The files of a working copy at the dirty paths: those that differ from the commit
/// below it.
#[derive(Drop)]
pub struct Dirty<'a, W: FileTree, R: FileTree> {
    /// The files of the working copy.
    pub work: &'a W,
    /// The files of the commit below it.
    pub root: &'a R,
    /// The paths of the dirty files, in byte order.
    pub listed: &'a [Path],
    ghost each: { listed.now ≡ paths (dirty_files (W.files work.now) (R.files root.now)) },
}

impl<'a, W: FileTree, R: FileTree> FileTree for Dirty<'a, W, R> {
    ghost use Rattle.eden_history.specs.DirtyFiles.{dirty_files};

    ghost files = { λ d. dirty_files (W.files d.work.now) (R.files d.root.now) };

    fn file(&self, path: &[u8]) -> Option<(Kind, &Bytes)> {
        if is_listed(self.listed, path) {
            self.work.file(path)
        } else {
            None
        }
    }

    fn has_file_below(&self, path: &Path) -> bool {
        has_path_below(self.listed, path.as_bytes())
    }
}
