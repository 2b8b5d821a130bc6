//! A working copy, and why a change of it is refused.

ghost use Rattle.std.specs.Prelude.{◌≡◌, None, Some, IfOk, IfErr, ◌<◌};
ghost use Rattle.eden_ids.specs.FileMaps.{file_at, lent};
ghost use Rattle.eden_objects.specs.Commits.{commit_map};
ghost use Rattle.eden_history.specs.Renames.{place_fault, absent_fault, rename_fault, write_fault};
ghost use Rattle.eden_workcopy.specs.Meanings.{means, FitsIn};

use bytes::Bytes;
use eden_history::{ChangeFault, absent_fault, place_fault, rename_fault, write_fault};
use eden_ids::{Content, Id, Kind, Naming, NoMemory, Path, Sequence};
use eden_objects::{NoCommit, Store};
use eden_overlay::Overlay;
use eden_renames::Renames;
use std::alloc::Global;

/// The files of a commit, and over them those that were written, removed or renamed since.
///
/// It holds files only together with a store that has its root's commit. A call that takes a store
/// needs that there root and changes make a file map. They do in the store over which the working
/// copy was made and changed, and in each store that has all objects of that one.
#[derive(Drop)]
pub struct WorkCopy {
    pub(crate) root: Id,
    pub(crate) renames: Renames,
    pub(crate) overlay: Overlay,
}

impl WorkCopy {
    /// Returns a working copy that holds the files of a commit.
    ///
    /// `NoCommit` if the id is not that of a commit in the store. Does not allocate.
    #[tactic(auto, using(crate::proofs::Works::new_files, crate::proofs::Works::new_fits, eden_history::proofs::Committed::commit_unmapped))]
    pub fn new<N: Naming + Drop>(
        alloc: Global,
        store: &Store<N>,
        root: Id,
    ) -> Result<WorkCopy, NoCommit>
        ensures root { IfOk result (λ work. work.root ≡ root) }
        ensures files { IfOk result (λ work. commit_map store.now root ≡ Some (means store.now work)) }
        ensures fits { IfOk result (λ work. FitsIn store.now work) }
        ensures refuses { IfErr result (λ _. commit_map store.now root ≡ None) }
    {
        store.closed_law();
        if store.has_commit(root) {
            Ok(WorkCopy {
                root,
                renames: Renames::new(alloc),
                overlay: Overlay::new(alloc),
            })
        } else {
            Err(NoCommit)
        }
    }

    /// Returns the commit over which the changes were made.
    pub fn root(&self) -> Id
        ensures { result ≡ self.now.root }
    {
        self.root
    }

    /// Returns which directories of the commit were renamed, and where they are seen.
    pub fn renames(&self) -> &Renames
        ensures { result.now ≡ self.now.renames }
    {
        &self.renames
    }

    /// Returns what was written, removed or renamed: the overlay.
    pub fn overlay(&self) -> &Overlay
        ensures { result.now ≡ self.now.overlay }
    {
        &self.overlay
    }

    /// Returns the kind and the bytes of the file at a path.
    ///
    /// `None` if there is no file, for whatever reason: `read` says why. Does not allocate.
    pub fn file<'a, N: Naming + Drop>(
        &'a self,
        store: &'a Store<N>,
        path: &[u8],
    ) -> Option<(Kind, &'a Bytes)>
        ensures { lent result ≡ file_at (means store.now self.now) path.now }
    {
        self.over(store).file(path)
    }

    /// Returns why no file can be at a path: a file is above it, or files are below it.
    ///
    /// Does not allocate.
    pub fn place_fault<N: Naming + Drop>(
        &self,
        store: &Store<N>,
        path: &Path,
    ) -> Option<ChangeFault>
        ensures { result ≡ place_fault (means store.now self.now) path.now }
    {
        place_fault(&self.over(store), path)
    }

    /// Returns why no file at a path can be read, removed or renamed. Does not allocate.
    pub fn absent_fault<N: Naming + Drop>(
        &self,
        store: &Store<N>,
        path: &Path,
    ) -> Option<ChangeFault>
        ensures { result ≡ absent_fault (means store.now self.now) path.now }
    {
        absent_fault(&self.over(store), path)
    }

    /// Returns why these bytes can't be written at a path. Does not allocate.
    pub fn write_fault<N: Naming + Drop>(
        &self,
        store: &Store<N>,
        path: &Path,
        bytes: &[u8],
    ) -> Option<ChangeFault>
        ensures { result ≡ write_fault (means store.now self.now) path.now bytes.now }
    {
        write_fault(&self.over(store), path, bytes)
    }

    /// Returns why a file can't be renamed. Does not allocate.
    ///
    /// What refuses the old path comes first. If both paths are the same, the new one is not asked.
    pub fn rename_fault<N: Naming + Drop>(
        &self,
        store: &Store<N>,
        old: &Path,
        new: &Path,
    ) -> Option<ChangeFault>
        ensures { result ≡ rename_fault (means store.now self.now) old.now new.now }
    {
        rename_fault(&self.over(store), old, new)
    }
}
