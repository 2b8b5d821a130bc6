//! The files below a directory, each moved by itself to the same place below another.

ghost use Rattle.std.specs.Prelude.{◌≡◌, ◌≢◌, true, false, None, Some, IfOk, IfErr, OnOk};
ghost use Rattle.std.specs.List.{list_any, AllByRecursion};
ghost use Rattle.std.specs.FinMap as fin;
ghost use Rattle.eden_ids.specs.FileMaps.{file_at, paths};
ghost use Rattle.eden_ids.specs.Paths.{lies_below};
ghost use Rattle.eden_objects.specs.Files.{commit_files};
ghost use Rattle.eden_overlay.specs.Carried.{breaks};
ghost use Rattle.eden_history.specs.Changes.{below};
ghost use Rattle.eden_workcopy.specs.internal.Carrying.{each_carried, way_fault};
ghost use Rattle.eden_overlay.specs.Layers.{over};
ghost use Rattle.eden_workcopy.specs.Meanings.{means, FitsIn};

use crate::work::WorkCopy;
use eden_history::{ChangeFault, free_fault};
use eden_ids::{Content, FileTree, Naming, NoMemory, Path, has_file};
use eden_objects::Store;
use eden_overlay::{CarryFault, Overlay, carried_path};

/// Returns why a directory can't be at a new path, whichever files it has.
pub(crate) fn way_fault<T: FileTree>(files: &T, old: &Path, new: &Path) -> Option<ChangeFault>
    ensures { result ≡ way_fault (T.files files.now) old.now new.now }
{
    if new.is_below(old) {
        Some(ChangeFault::IntoItself)
    } else {
        free_fault(files, new)
    }
}

/// Lets no file be seen at a path of which the overlay says nothing.
fn hide<B: FileTree>(base: &B, overlay: &mut Overlay, path: Path) -> Result<(), NoMemory>
    requires { fin.get overlay.old path ≡ None }
    ensures { OnOk result (over (B.files base.now) overlay.new ≡ fin.remove (over (B.files base.now) overlay.old) path) }
{
    if has_file(base, path.as_bytes()) {
        overlay.set(path, None)?;
    }
    Ok(())
}

/// Removes the file that is seen at a path, and returns it.
///
/// What the overlay said is moved; the bytes of a file below it are shared.
fn take<B: FileTree>(
    base: &B,
    overlay: &mut Overlay,
    path: Path,
) -> Result<Option<Content>, NoMemory>
    ensures file { IfOk result (λ file. file ≡ file_at (over (B.files base.now) overlay.old) path) }
    ensures files { OnOk result (over (B.files base.now) overlay.new ≡ fin.remove (over (B.files base.now) overlay.old) path) }
{
    let file = match overlay.forget(path.as_bytes()) {
        Some(file) => file,
        None => Content::of_lent(base.file(path.as_bytes()))?,
    };
    hide(base, overlay, path)?;
    Ok(file)
}

/// Moves the file at each of some paths below the old path.
fn carry_each<B: FileTree>(
    base: &B,
    overlay: &mut Overlay,
    moved: Vec<Path>,
    old: &Path,
    new: &Path,
) -> Result<(), CarryFault>
    requires { AllByRecursion (λ path. lies_below path old.now ≡ true) moved.items }
    ensures files { OnOk result (over (B.files base.now) overlay.new
        ≡ each_carried old.now new.now (over (B.files base.now) overlay.old) moved.items) }
    ensures accepts { OnOk result (list_any (breaks old.now new.now) moved.items ≡ false) }
    ensures refuses { IfErr result (λ fault. fault ≢ CarryFault.NoMemory → list_any (breaks old.now new.now) moved.items ≡ true) }
{
    for path in moved {
        let place = carried_path(overlay.allocator(), &path, old, new)?;
        let file = take(base, overlay, path)?;
        overlay.set(place, file)?;
    }
    Ok(())
}

impl WorkCopy {
    /// Returns an overlay over the commit alone that shows the files after a directory's rename.
    ///
    /// `PathTooLong` if a file would be at what is not a path, and `NoMemory` if an allocation
    /// fails.
    pub(crate) fn carried<N: Naming + Drop>(
        &self,
        store: &Store<N>,
        old: &Path,
        new: &Path,
    ) -> Result<Overlay, CarryFault>
        requires { FitsIn store.now self.now }
        ensures files { IfOk result (λ overlay. over (commit_files store.now self.now.root) overlay
            ≡ each_carried old.now new.now (means store.now self.now) (below old.now (paths (means store.now self.now)))) }
        ensures accepts { IfOk result (λ _. list_any (breaks old.now new.now) (below old.now (paths (means store.now self.now))) ≡ false) }
        ensures refuses { IfErr result (λ fault. fault ≢ CarryFault.NoMemory
            → list_any (breaks old.now new.now) (below old.now (paths (means store.now self.now))) ≡ true) }
    {
        let moved = self.list_below(store, old)?;
        let mut overlay = self.flat_copy(store)?;
        let base = store.commit_files(self.root);
        carry_each(&base, &mut overlay, moved, old, new)?;
        Ok(overlay)
    }
}
