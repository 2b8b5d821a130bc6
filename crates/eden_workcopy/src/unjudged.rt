//! Changes that refuse nothing: the caller has asked before.

ghost use Rattle.std.specs.Prelude.{◌≡◌, None, Some, List, OnOk, OnErr};
ghost use Rattle.std.specs.FinMap as fin;
ghost use Rattle.eden_ids.specs.FileMaps.{file_at};
ghost use Rattle.eden_objects.specs.Objects.{Held};
ghost use Rattle.eden_history.specs.Renames.{rename_fault, renamed, write_fault};
ghost use Rattle.eden_workcopy.specs.Meanings.{means, FitsIn};

use crate::work::WorkCopy;
use bytes::Bytes;
use eden_ids::{Content, Kind, Naming, NoMemory, Path, bytes_law, path_law};
use eden_objects::Store;

impl WorkCopy {
    /// Puts a file at a path, replacing any there, and does not check that it can be there.
    ///
    /// The bytes are shared. If `write_fault` reports nothing, root and changes still make a file map. `NoMemory` if an
    /// allocation fails; then nothing changes.
    pub fn put_file(&mut self, path: &Path, kind: Kind, bytes: &Bytes) -> Result<(), NoMemory>
        ensures root { self.new.root ≡ self.old.root }
        ensures files { OnOk result ((held : List Held)
            → means held self.new ≡ fin.insert (means held self.old) path.now (record { kind = kind; bytes = bytes.now })) }
        ensures fits { OnOk result ((held : List Held) → FitsIn held self.old
            → write_fault (means held self.old) path.now bytes.now ≡ None → FitsIn held self.new) }
        ensures same { OnErr result (self.new ≡ self.old) }
    {
        path_law(path);
        bytes_law(bytes.as_slice());
        let bytes = bytes.clone()?;
        let key = path.copy()?;
        self.overlay.set(key, Some(Content { kind, bytes }))?;
        Ok(())
    }

    /// Removes the file at a path, if there is one.
    ///
    /// Root and changes still make a file map. `NoMemory` if an allocation fails; then nothing
    /// changes.
    pub fn take_file(&mut self, path: &Path) -> Result<(), NoMemory>
        ensures root { self.new.root ≡ self.old.root }
        ensures files { OnOk result ((held : List Held) → means held self.new ≡ fin.remove (means held self.old) path.now) }
        ensures fits { OnOk result ((held : List Held) → FitsIn held self.old → FitsIn held self.new) }
        ensures same { OnErr result (self.new ≡ self.old) }
    {
        let key = path.copy()?;
        self.overlay.set(key, None)?;
        Ok(())
    }

    /// Moves the file at one path to another, and does not ask whether it can be there.
    ///
    /// It replaces the file there. If the two paths are the same, or there is no file at the first,
    /// nothing changes. If `rename_fault` reports nothing, root and changes still make a file map.
    /// `NoMemory` if an allocation fails; then nothing changes.
    pub fn move_file<N: Naming + Drop>(
        &mut self,
        store: &Store<N>,
        old: &Path,
        new: &Path,
    ) -> Result<(), NoMemory>
        ensures root { self.new.root ≡ self.old.root }
        ensures files { OnOk result (means store.now self.new ≡ renamed (means store.now self.old) old.now new.now) }
        ensures fits { OnOk result (FitsIn store.now self.old
            → rename_fault (means store.now self.old) old.now new.now ≡ None → FitsIn store.now self.new) }
        ensures same { OnErr result (self.new ≡ self.old) }
    {
        if old == new {
            return Ok(());
        }
        let Some(content) = self.over(store).file_copy(old)? else {
            return Ok(());
        };
        self.shift_file(old, new, content)?;
        Ok(())
    }

    /// Moves a file as `move_file` does, if `content` is the file at the first path.
    pub fn shift_file(&mut self, old: &Path, new: &Path, content: Content) -> Result<(), NoMemory>
        ensures root { self.new.root ≡ self.old.root }
        ensures files { OnOk result ((held : List Held) → file_at (means held self.old) old.now ≡ Some content
            → means held self.new ≡ renamed (means held self.old) old.now new.now) }
        ensures fits { OnOk result ((held : List Held) → file_at (means held self.old) old.now ≡ Some content → FitsIn held self.old
            → rename_fault (means held self.old) old.now new.now ≡ None → FitsIn held self.new) }
        ensures same { OnErr result (self.new ≡ self.old) }
    {
        if old == new {
            return Ok(());
        }
        path_law(new);
        let from = old.copy()?;
        let to = new.copy()?;
        self.overlay.shift(from, to, content)?;
        Ok(())
    }
}
