//! The number of files below a path, or in a tree.
ghost use Rattle.std.specs.Prelude.{◌≡◌, filter, length, nat_le};
ghost use Rattle.eden_ids.specs.FileMaps.{paths};
ghost use Rattle.eden_ids.specs.Paths.{lies_below};
ghost use Rattle.eden_objects.specs.Closed.{HasTree};
ghost use Rattle.eden_objects.specs.Counts.{capped};
ghost use Rattle.eden_objects.specs.internal.Kept.{files_of_tree};
ghost use Rattle.eden_objects.specs.internal.Below.{rows_below};
ghost use Rattle.eden_objects.specs.Files.{commit_files};

use crate::store::Store;
use eden_ids::{Id, Naming};

impl<N: Naming + Drop> Store<N> {
    /// Returns true if a commit has `count` files below a path.
    ///
    /// It may have more. If the id is not that of a commit, there are no files. It
    /// searches the directories on the way to the path, and reads none below it. Does not
    /// allocate.
    pub fn has_below(&self, commit: Id, top: &[u8], count: usize) -> bool
        ensures { result ≡ nat_le count (length (filter (λ p. lies_below p top.now) (paths (commit_files self.now commit)))) }
    {
        self.commit_files(commit).has_below(top, count)
    }

    /// Returns the number of files below a path of a tree.
    ///
    /// It is at most `usize::MAX`.
    pub(crate) fn files_below(&self, tree: Id, top: &[u8]) -> usize
        requires { HasTree self.now tree }
        ensures { result ≡ capped (length (rows_below self.now tree top.now)) }
    {
        match self.directory_below(tree, top) {
            Some(dir) => self.count_of_tree(dir),
            None => 0,
        }
    }

    /// Returns the number of files below a tree, at most `usize::MAX`.
    pub(crate) fn count_of_tree(&self, tree: Id) -> usize
        requires { HasTree self.now tree }
        ensures { result ≡ files_of_tree self.now tree }
    {
        let (_, outline) = self.read_tree(tree);
        outline.files
    }
}
