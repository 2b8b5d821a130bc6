//! Renamed directories and an overlay, made one overlay over the commit alone.

ghost use Rattle.std.specs.Prelude.{◌≡◌, IfOk};
ghost use Rattle.eden_objects.specs.Files.{commit_files};
ghost use Rattle.eden_renames.specs.Renames.{at_paths, seen_through};
ghost use Rattle.eden_workcopy.specs.internal.Agreements.{flat_or};
ghost use Rattle.eden_overlay.specs.Layers.{over};
ghost use Rattle.eden_workcopy.specs.Meanings.{means, FitsIn};

use crate::reroot::keep_listed;
use crate::work::WorkCopy;
use eden_ids::{Id, Naming, NoMemory};
use eden_objects::Store;
use eden_overlay::Overlay;
use eden_renames::{Renamed, Renames};

/// Returns the overlay that was made, or else the one that is there.
pub(crate) fn flat_or<'a>(flat: &'a Option<Overlay>, overlay: &'a Overlay) -> &'a Overlay
    ensures { result.now ≡ flat_or flat.now overlay.now }
{
    match flat {
        Some(flat) => flat,
        None => overlay,
    }
}

/// Returns an overlay over a commit alone that shows the same files at valid paths.
///
/// `None` if no directory was renamed: then the overlay itself is that. The work grows with the
/// files that renamed directories have or had.
pub(crate) fn flat_over<N: Naming + Drop>(
    store: &Store<N>,
    root: Id,
    renames: &Renames,
    overlay: &Overlay,
) -> Result<Option<Overlay>, NoMemory>
    ensures { IfOk result (λ flat. over (commit_files store.now root) (flat_or flat overlay.now)
        ≡ over (at_paths (seen_through (commit_files store.now root) renames.now)) overlay.now) }
{
    let commit = store.commit_files(root);
    commit.texts_law();
    if renames.is_empty() {
        return Ok(None);
    }
    let paths = renames.unsettled(&commit)?;
    let mut flat = overlay.copy()?;
    let base = Renamed::of(commit, renames);
    keep_listed(&base, overlay, &mut flat, &paths)?;
    Ok(Some(flat))
}

impl WorkCopy {
    /// Returns an overlay over the commit alone that shows the same files.
    ///
    /// `None` if no directory was renamed: then its own overlay is that. The work grows with the
    /// files that renamed directories have or had.
    pub(crate) fn flat<N: Naming + Drop>(
        &self,
        store: &Store<N>,
    ) -> Result<Option<Overlay>, NoMemory>
        requires { FitsIn store.now self.now }
        ensures { IfOk result (λ flat. over (commit_files store.now self.now.root) (flat_or flat self.now.overlay) ≡ means store.now self.now) }
    {
        flat_over(store, self.root, &self.renames, &self.overlay)
    }

    /// Returns the same as an owned overlay.
    pub(crate) fn flat_copy<N: Naming + Drop>(&self, store: &Store<N>) -> Result<Overlay, NoMemory>
        requires { FitsIn store.now self.now }
        ensures { IfOk result (λ overlay. over (commit_files store.now self.now.root) overlay ≡ means store.now self.now) }
    {
        match self.flat(store)? {
            Some(flat) => Ok(flat),
            None => Ok(self.overlay.copy()?),
        }
    }
}
