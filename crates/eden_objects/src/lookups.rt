//! Look-up of a blob by its id, and of a file of a commit by its path.
ghost use Rattle.std.specs.Prelude.{◌≡◌, option_copied, is_some};
ghost use Rattle.std.specs.Result.{result_ok};
ghost use Rattle.eden_ids.specs.FileMaps.{file_at, lent};
ghost use Rattle.eden_objects.specs.Objects.{blob_of, find, payload_of};
ghost use Rattle.eden_objects.specs.Files.{commit_files};
ghost use Rattle.eden_objects.specs.Commits.{commit_rows, find_row, row_in, tree_rows};
ghost use Rattle.eden_objects.specs.Closed.{HasTree, IsHeld};
ghost use Rattle.eden_git.specs.Trees.{entries_of};
ghost use Rattle.eden_git.specs.declared.object_type.ObjectType.{ObjectType};
ghost use Rattle.eden_objects.specs.internal.Roots.{IsTreeOf, rows_of_tree};
ghost use Rattle.eden_git.specs.Directories.{dir_named, file_named};

use crate::fault::NoCommit;
use crate::store::Store;
use bytes::Bytes;
use eden_git::cut;
use eden_ids::{Id, Kind, Naming, Path};

impl<N: Naming + Drop> Store<N> {
    /// Returns true if the id is that of a commit. Does not allocate.
    ///
    /// The empty commit always exists.
    pub fn has_commit(&self, id: Id) -> bool
        ensures { result ≡ is_some (commit_rows self.now id) }
    {
        self.root_tree(id).is_ok()
    }

    /// Returns the payload of the blob with an id. Does not allocate.
    ///
    /// It is the bytes of a file, or the target of a link. It is `None` if the id is not
    /// that of a blob.
    pub fn blob(&self, id: Id) -> Option<&[u8]>
        ensures { option_copied result ≡ blob_of self.now id }
    {
        match self.object(id) {
            Some(object) => object.blob(),
            None => None,
        }
    }

    /// Returns the kind and the blob of a commit's file.
    ///
    /// It is `None` if there is no file at the path. It searches one directory for each
    /// component of the path, in a time that grows with the logarithm of the number of
    /// its entries. Does not allocate.
    ///
    /// # Errors
    ///
    /// - `NoCommit` if the id is not that of a commit.
    pub fn lookup(&self, commit: Id, path: &Path) -> Result<Option<(Kind, Id)>, NoCommit>
        ensures { result_ok result ≡ row_in path.now (commit_rows self.now commit) }
    {
        match self.root_tree(commit) {
            Ok(Some(tree)) => Ok(self.find_below(tree, path.as_bytes())),
            Ok(None) => Ok(None),
            Err(NoCommit) => Err(NoCommit),
        }
    }

    /// Returns the kind and the bytes of a commit's file.
    ///
    /// It is `None` if there is no file at the path, or the id is not that of a commit. It
    /// searches one directory for each component of the path. Does not allocate.
    pub fn file(&self, commit: Id, path: &[u8]) -> Option<(Kind, &Bytes)>
        ensures { lent result ≡ file_at (commit_files self.now commit) path.now }
    {
        self.commit_files(commit).file(path)
    }

    /// Returns the payload of a blob that is in the store.
    pub(crate) fn blob_payload(&self, id: Id) -> &Bytes
        requires { IsHeld self.now ObjectType.Blob id }
        ensures { result.now ≡ payload_of (find id self.now) }
    {
        match self.object(id) {
            Some(object) => &object.payload,
            // The blob is there.
            None => unreachable!(),
        }
    }

    /// Returns the file with a name in a tree, by a search.
    #[tactic(auto, using(crate::proofs::WalkSteps::order_here))]
    fn file_in(&self, tree: Id, name: &[u8]) -> Option<(Kind, Id)>
        requires { HasTree self.now tree }
        ensures { result ≡ file_named name.now (entries_of (payload_of (find tree self.now))) }
    {
        self.closed_law();
        let (rows, _) = self.read_tree(tree);
        rows.file(name)
    }

    /// Returns the tree of a directory, by a search for its name.
    #[tactic(auto, using(crate::proofs::WalkSteps::order_here))]
    pub(crate) fn directory_in(&self, tree: Id, name: &[u8]) -> Option<Id>
        requires { HasTree self.now tree }
        ensures { result ≡ dir_named name.now (entries_of (payload_of (find tree self.now))) }
    {
        self.closed_law();
        let (rows, _) = self.read_tree(tree);
        rows.directory(name)
    }

    /// Returns the tree of a commit; the empty commit has none.
    #[tactic(auto, using(crate::proofs::TreeOf::seen_rows, crate::proofs::TreeOf::seen_tree))]
    pub(crate) fn root_tree(&self, commit: Id) -> Result<Option<Id>, NoCommit>
        ensures rows { commit_rows self.now commit ≡ rows_of_tree self.now result }
        ensures held { IsTreeOf self.now result }
    {
        self.closed_law();
        if commit == Id::ZERO {
            return Ok(None);
        }
        match self.tree_of(commit) {
            Some(tree) => Ok(Some(tree)),
            None => Err(NoCommit),
        }
    }

    /// Returns the file of a tree at a path.
    #[tactic(auto, using(crate::proofs::WalkSteps::rest_shorter))]
    pub(crate) fn find_below(&self, tree: Id, path: &[u8]) -> Option<(Kind, Id)>
        requires { HasTree self.now tree }
        ensures { result ≡ find_row path.now (tree_rows self.now tree) }
    {
        self.closed_law();
        let mut tree = tree;
        let mut rest = path;
        'walk: loop {
            match cut(rest, b'/') {
                None => return self.file_in(tree, rest),
                Some((name, after)) => match self.directory_in(tree, name) {
                    None => return None,
                    Some(child) => {
                        tree = child;
                        rest = after;
                    }
                },
            }
        }
    }
}
