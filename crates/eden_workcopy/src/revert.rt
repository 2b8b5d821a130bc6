//! The changes at a path, taken back.

ghost use Rattle.std.specs.Prelude.{◌≡◌, ◌≢◌, false, None, Some, is_some, IfOk, IfErr, OnOk, OnErr};
ghost use Rattle.eden_ids.specs.FileMaps.{file_at, put_option};
ghost use Rattle.eden_renames.specs.Renames.{is_governed};
ghost use Rattle.eden_objects.specs.Files.{commit_files};
ghost use Rattle.eden_workcopy.specs.Meanings.{means, FitsIn};
ghost use Rattle.eden_workcopy.specs.Reverts.{revert_fault};

use crate::work::WorkCopy;
use eden_history::ChangeFault;
use eden_ids::{Content, Naming, Path, has_file};
use eden_objects::Store;

impl WorkCopy {
    /// Returns why the file of the root's commit can't be at a path.
    fn revert_fault<N: Naming + Drop>(&self, store: &Store<N>, path: &Path) -> Option<ChangeFault>
        ensures { result ≡ revert_fault (means store.now self.now) (commit_files store.now self.now.root) path.now }
    {
        let root = store.commit_files(self.root);
        if has_file(&root, path.as_bytes()) {
            self.place_fault(store, path)
        } else {
            None
        }
    }

    /// Puts at a path what the root's commit has there, as an entry of the overlay.
    fn restore<N: Naming + Drop>(
        &mut self,
        store: &Store<N>,
        path: &Path,
    ) -> Result<(), ChangeFault>
        ensures root { self.new.root ≡ self.old.root }
        ensures renames { self.new.renames ≡ self.old.renames }
        ensures files { OnOk result (means store.now self.new
            ≡ put_option (means store.now self.old) path.now (file_at (commit_files store.now self.old.root) path.now)) }
        ensures refuses { IfErr result (λ fault. fault ≡ ChangeFault.NoMemory) }
        ensures same { OnErr result (self.new ≡ self.old) }
    {
        let root = store.commit_files(self.root);
        let file = Content::of_lent(root.file(path.as_bytes()))?;
        self.put(path.copy()?, file)?;
        Ok(())
    }

    /// Takes every change at a path back: it holds what the root's commit has there, a file or
    /// none.
    ///
    /// If the commit has a file there and the path has no room for it: `NotADirectory` or
    /// `IsADirectory`, in this order. After a refusal nothing has changed. It takes no memory,
    /// except below a renamed directory's old or new path: there `NoMemory` if an allocation fails.
    pub fn revert<N: Naming + Drop>(
        &mut self,
        store: &Store<N>,
        path: &Path,
    ) -> Result<(), ChangeFault>
        requires { FitsIn store.now self.old }
        ensures root { self.new.root ≡ self.old.root }
        ensures fits { FitsIn store.now self.new }
        ensures accepts { IfOk result (λ _. revert_fault (means store.now self.old) (commit_files store.now self.old.root) path.now ≡ None) }
        ensures files { OnOk result (means store.now self.new
            ≡ put_option (means store.now self.old) path.now (file_at (commit_files store.now self.old.root) path.now)) }
        ensures refuses { IfErr result (λ fault. fault ≢ ChangeFault.NoMemory
            → revert_fault (means store.now self.old) (commit_files store.now self.old.root) path.now ≡ Some fault) }
        ensures memory { is_governed self.old.renames path.now ≡ false → IfErr result (λ fault. fault ≢ ChangeFault.NoMemory) }
        ensures same { OnErr result (self.new ≡ self.old) }
    {
        if let Some(fault) = self.revert_fault(store, path) {
            return Err(fault);
        }
        store.closed_law();
        if self.renames.nearest(path.as_bytes()).is_some() {
            self.restore(store, path)?;
            return Ok(());
        }
        self.overlay.forget(path.as_bytes());
        Ok(())
    }
}
