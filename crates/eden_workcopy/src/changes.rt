//! Changes that are refused if the working copy has no room for them.

ghost use Rattle.std.specs.Prelude.{◌≡◌, ◌≢◌, None, Some, IfOk, IfErr, OnOk, OnErr};
ghost use Rattle.std.specs.FinMap as fin;
ghost use Rattle.eden_ids.specs.FileMaps.{file_at};
ghost use Rattle.eden_history.specs.Renames.{absent_fault, rename_fault, renamed, write_fault};
ghost use Rattle.eden_history.specs.DirRenames.{dir_renamed, rename_dir_fault};
ghost use Rattle.eden_workcopy.specs.Meanings.{means, FitsIn};

use crate::carrying::way_fault;
use crate::work::WorkCopy;
use eden_history::{ChangeFault, rename_fault, source_fault};
use eden_ids::{Content, Kind, Naming, NoMemory, Path, path_law};
use eden_objects::Store;

impl WorkCopy {
    /// Returns the kind and the bytes of the file at a path.
    ///
    /// Refused, in this order, as `NotADirectory`, `IsADirectory` or `NoEntry`. Does not allocate.
    pub fn read<'a, N: Naming + Drop>(
        &'a self,
        store: &'a Store<N>,
        path: &Path,
    ) -> Result<(Kind, &'a [u8]), ChangeFault>
        requires { FitsIn store.now self.now }
        ensures accepts { IfOk result (λ _. absent_fault (means store.now self.now) path.now ≡ None) }
        ensures reads { IfOk result (λ seen. file_at (means store.now self.now) path.now ≡ Some (record { kind = seen.0; bytes = seen.1.now })) }
        ensures refuses { IfErr result (λ fault. absent_fault (means store.now self.now) path.now ≡ Some fault) }
    {
        self.over(store).read(path)
    }

    /// Puts a file at a path, replacing any there.
    ///
    /// Refused, in this order, as `NotADirectory`, `IsADirectory` or `TooLarge`. `NoMemory` if an
    /// allocation fails. After a refusal nothing has changed.
    pub fn write<N: Naming + Drop>(
        &mut self,
        store: &Store<N>,
        path: &Path,
        kind: Kind,
        bytes: &[u8],
    ) -> Result<(), ChangeFault>
        requires { FitsIn store.now self.old }
        ensures root { self.new.root ≡ self.old.root }
        ensures fits { FitsIn store.now self.new }
        ensures accepts { IfOk result (λ _. write_fault (means store.now self.old) path.now bytes.now ≡ None) }
        ensures files { OnOk result (means store.now self.new
            ≡ fin.insert (means store.now self.old) path.now (record { kind = kind; bytes = bytes.now })) }
        ensures refuses { IfErr result (λ fault. fault ≢ ChangeFault.NoMemory
            → write_fault (means store.now self.old) path.now bytes.now ≡ Some fault) }
        ensures same { OnErr result (self.new ≡ self.old) }
    {
        if let Some(fault) = self.write_fault(store, path, bytes) {
            return Err(fault);
        }
        let copy = Content::from_bytes(self.overlay.allocator(), kind, bytes)?;
        self.put_file(path, kind, &copy.bytes)?;
        Ok(())
    }

    /// Removes the file at a path.
    ///
    /// Refused, in this order, as `NotADirectory`, `IsADirectory` or `NoEntry`. `NoMemory` if an
    /// allocation fails. After a refusal nothing has changed.
    pub fn remove<N: Naming + Drop>(
        &mut self,
        store: &Store<N>,
        path: &Path,
    ) -> Result<(), ChangeFault>
        requires { FitsIn store.now self.old }
        ensures root { self.new.root ≡ self.old.root }
        ensures fits { FitsIn store.now self.new }
        ensures accepts { IfOk result (λ _. absent_fault (means store.now self.old) path.now ≡ None) }
        ensures files { OnOk result (means store.now self.new ≡ fin.remove (means store.now self.old) path.now) }
        ensures refuses { IfErr result (λ fault. fault ≢ ChangeFault.NoMemory
            → absent_fault (means store.now self.old) path.now ≡ Some fault) }
        ensures same { OnErr result (self.new ≡ self.old) }
    {
        if let Some(fault) = self.absent_fault(store, path) {
            return Err(fault);
        }
        self.take_file(path)?;
        Ok(())
    }

    /// Moves the file at a path to another, replacing any there.
    ///
    /// Refused, in this order: for the old path as `NotADirectory`, `IsADirectory` or `NoEntry`;
    /// for the new one, if it is another, as `NotADirectory` or `IsADirectory`. `NoMemory` if an
    /// allocation fails. After a refusal nothing has changed. A rename of a file to itself changes
    /// nothing.
    pub fn rename<N: Naming + Drop>(
        &mut self,
        store: &Store<N>,
        old: &Path,
        new: &Path,
    ) -> Result<(), ChangeFault>
        requires { FitsIn store.now self.old }
        ensures root { self.new.root ≡ self.old.root }
        ensures fits { FitsIn store.now self.new }
        ensures accepts { IfOk result (λ _. rename_fault (means store.now self.old) old.now new.now ≡ None) }
        ensures files { OnOk result (means store.now self.new ≡ renamed (means store.now self.old) old.now new.now) }
        ensures refuses { IfErr result (λ fault. fault ≢ ChangeFault.NoMemory
            → rename_fault (means store.now self.old) old.now new.now ≡ Some fault) }
        ensures same { OnErr result (self.new ≡ self.old) }
    {
        let files = self.over(store);
        if let Some(fault) = rename_fault(&files, old, new) {
            return Err(fault);
        }
        if old == new {
            return Ok(());
        }
        let Some(content) = files.file_copy(old)? else {
            return Ok(());
        };
        self.shift_file(old, new, content)?;
        Ok(())
    }

    /// Moves each file below one path to the same place below another.
    ///
    /// Refused, in this order: as `NotADirectory` if a file is at the old path or above it; as
    /// `NoEntry` if no file is below it. If the new path is another: as `IntoItself` if it is below
    /// the old one; as `NotADirectory` if a file is at the new path or above it; as `IsADirectory`
    /// if a file is below it; as `PathTooLong` if a file would be at what is not a path. `NoMemory`
    /// if an allocation fails. After a refusal nothing has changed. A rename of a directory to
    /// itself changes nothing.
    pub fn rename_dir<N: Naming + Drop>(
        &mut self,
        store: &Store<N>,
        old: &Path,
        new: &Path,
    ) -> Result<(), ChangeFault>
        requires { FitsIn store.now self.old }
        ensures root { self.new.root ≡ self.old.root }
        ensures fits { FitsIn store.now self.new }
        ensures accepts { IfOk result (λ _. rename_dir_fault (means store.now self.old) old.now new.now ≡ None) }
        ensures files { OnOk result (means store.now self.new ≡ dir_renamed (means store.now self.old) old.now new.now) }
        ensures refuses { IfErr result (λ fault. fault ≢ ChangeFault.NoMemory
            → rename_dir_fault (means store.now self.old) old.now new.now ≡ Some fault) }
        ensures same { OnErr result (self.new ≡ self.old) }
    {
        path_law(new);
        let files = self.over(store);
        if let Some(fault) = source_fault(&files, old) {
            return Err(fault);
        }
        if old == new {
            return Ok(());
        }
        if let Some(fault) = way_fault(&files, old, new) {
            return Err(fault);
        }
        let commit = store.commit_files(self.root);
        self.carry_dir(store, &commit, old, new)?;
        Ok(())
    }

    /// Returns a working copy that is equal to this one. `NoMemory` if an allocation fails.
    pub fn copy(&self) -> Result<WorkCopy, NoMemory>
        ensures { IfOk result (λ work. work ≡ self.now) }
    {
        let overlay = self.overlay.copy()?;
        let renames = self.renames.copy()?;
        Ok(WorkCopy {
            root: self.root,
            renames,
            overlay,
        })
    }
}
