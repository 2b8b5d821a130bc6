//! The paths at which a working copy differs from its root.

ghost use Rattle.std.specs.Prelude.{◌≡◌, ◌++◌, ◌∷◌, [], if◌then◌else◌, not, IfOk, OnOk};
ghost use Rattle.eden_ids.specs.FileMaps.{differ, file_at, listing, same_file};
ghost use Rattle.eden_objects.specs.Files.{commit_files};
ghost use Rattle.eden_overlay.specs.Layers.{over};
ghost use Rattle.eden_workcopy.specs.Meanings.{means, FitsIn};

use crate::flat::flat_or;
use crate::work::WorkCopy;
use crate::working::lent;
use eden_ids::{Content, FileTree, Naming, NoMemory, Path, is_same_file};
use eden_objects::Store;
use eden_overlay::Overlay;

/// Adds a copy of a path, if it is wanted.
pub(crate) fn add_if(paths: &mut Vec<Path>, path: &Path, wanted: bool) -> Result<(), NoMemory>
    ensures { OnOk result (paths.new.items ≡ paths.old.items ++ (if wanted then path.now ∷ [] else [])) }
{
    if !wanted {
        return Ok(());
    }
    let path = path.copy()?;
    paths.push(path)?;
    Ok(())
}

/// Returns whether an entry says something else than the tree below.
fn is_dirty<T: FileTree>(root: &T, entry: &(Path, Option<Content>)) -> bool
    ensures { result ≡ not (same_file entry.now.1 (file_at (T.files root.now) entry.now.0)) }
{
    !is_same_file(lent(&entry.1), root.file(entry.0.as_bytes()))
}

/// Returns the paths at which an overlay shows another file than the tree below it.
#[tactic(auto, using(eden_overlay::proofs::Touched::kept_more, eden_overlay::proofs::Touched::dirty_listed))]
pub(crate) fn dirty_paths<T: FileTree>(overlay: &Overlay, root: &T) -> Result<Vec<Path>, NoMemory>
    ensures { IfOk result (λ paths. paths.items ≡ listing (differ (over (T.files root.now) overlay.now) (T.files root.now))) }
{
    let mut dirty = Vec::new(overlay.allocator());
    for entry in overlay.entries() {
        add_if(&mut dirty, &entry.0, is_dirty(root, entry))?;
    }
    Ok(dirty)
}

impl WorkCopy {
    /// Returns the paths at which it differs from its root's commit, in byte order.
    ///
    /// There the two hold different files, or only one of them holds a file. `NoMemory` if an
    /// allocation fails. It looks at the touched paths, and at the files that renamed directories
    /// have or had.
    pub fn dirty<N: Naming + Drop>(&self, store: &Store<N>) -> Result<Vec<Path>, NoMemory>
        requires { FitsIn store.now self.now }
        ensures { IfOk result (λ paths. paths.items ≡ listing (differ (means store.now self.now) (commit_files store.now self.now.root))) }
    {
        let flat = self.flat(store)?;
        dirty_paths(
            flat_or(&flat, &self.overlay),
            &store.commit_files(self.root),
        )
    }
}
