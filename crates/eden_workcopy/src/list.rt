//! The paths of the files of a working copy.

ghost use Rattle.std.specs.Prelude.{◌≡◌, IfOk};
ghost use Rattle.eden_ids.specs.FileMaps.{paths};
ghost use Rattle.eden_history.specs.Changes.{below};
ghost use Rattle.eden_overlay.specs.Listings.{admitted};
ghost use Rattle.eden_workcopy.specs.Meanings.{means, FitsIn};

use crate::work::WorkCopy;
use eden_globs::Filter;
use eden_ids::{Naming, NoMemory, Path};
use eden_objects::Store;

impl WorkCopy {
    /// Returns the paths of the files that a filter admits, in byte order.
    ///
    /// `NoMemory` if an allocation fails. It lists the commit's files once, as renamed directories
    /// show them, and weaves the changed paths in.
    pub fn list<N: Naming + Drop>(
        &self,
        store: &Store<N>,
        wanted: &Filter,
    ) -> Result<Vec<Path>, NoMemory>
        requires { FitsIn store.now self.now }
        ensures { IfOk result (λ paths. paths.items ≡ admitted wanted.now (means store.now self.now)) }
    {
        let alloc = self.overlay.allocator();
        let listed = self.base(store).list(alloc, wanted)?;
        self.overlay.list_over(listed, wanted)
    }

    /// Returns the paths of the files below a directory, in byte order.
    ///
    /// `NoMemory` if an allocation fails. Of the commit it reads the directories on the way there
    /// and those below the path.
    pub fn list_below<N: Naming + Drop>(
        &self,
        store: &Store<N>,
        top: &Path,
    ) -> Result<Vec<Path>, NoMemory>
        requires { FitsIn store.now self.now }
        ensures { IfOk result (λ listed. listed.items ≡ below top.now (paths (means store.now self.now))) }
    {
        let alloc = self.overlay.allocator();
        let wanted = Filter::all(alloc);
        let listed = self.base(store).list_below(alloc, top, &wanted)?;
        self.overlay.list_below_over(listed, top, &wanted)
    }
}
