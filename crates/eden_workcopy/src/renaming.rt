//! The rename of a directory, once nothing refuses it but perhaps the length of a path.
//!
//! What the overlay says is carried as a whole, and the files below the overlay are seen at the new
//! place.

ghost use Rattle.std.specs.Prelude.{◌≡◌, ◌≢◌, ◌++◌, ◌∷◌, ℕ, List, false, true, None, Some, IsSome, IfErr, OnOk, OnErr, length};
ghost use Rattle.std.specs.FinMap as fin;
ghost use Rattle.std.specs.List.{list_any};
ghost use Rattle.eden_ids.specs.FileMaps.{paths};
ghost use Rattle.eden_ids.specs.Paths.{components, lies_below};
ghost use Rattle.eden_ids.specs.Sameness.{same_bytes};
ghost use Rattle.eden_ids.specs.Texts.{AreTexts};
ghost use Rattle.eden_overlay.specs.Carried.{breaks, carried_files};
ghost use Rattle.eden_history.specs.Changes.{below};
ghost use Rattle.eden_history.specs.DirRenames.{breaks_a_path, dir_renamed, rename_dir_fault, source_fault};
ghost use Rattle.eden_renames.specs.Renames.{is_path, seen_through};
ghost use Rattle.eden_objects.specs.Files.{commit_files};
ghost use Rattle.eden_objects.specs.Passing.{IsWithin};
ghost use Rattle.eden_overlay.specs.Layers.{IsCarried};
ghost use Rattle.eden_workcopy.specs.internal.Carrying.{each_carried, held_over, way_fault};
ghost use Rattle.eden_workcopy.specs.Meanings.{base_of, means, FitsIn};

use crate::work::WorkCopy;
use eden_history::ChangeFault;
use eden_ids::{FileTree, Naming, Path, is_path, path_law};
use eden_objects::{Commit, Passes, Size, Store};
use eden_overlay::CarryFault;
use eden_renames::{Renames, joined};

/// Returns how many components a path has.
fn depth(path: &[u8]) -> usize
    ensures { result ≡ length (components path.now) }
{
    path.split(|byte| *byte == b'/').count()
}

/// Returns whether a directory and each file below it have paths, if these are within a size.
fn has_room(directory: &[u8], size: Size) -> bool
    ensures { result ≡ true → (rest : List ℕ) → IsWithin size rest → is_path (directory.now ++ 47 ∷ rest) ≡ true }
{
    is_path(directory)
        && directory.len().saturating_add(size.reach) < 1_024
        && depth(directory).saturating_add(size.depth) <= 64
}

/// Returns the same of a directory whose path is made of two parts.
fn has_room_behind(front: &[u8], rest: &[u8], size: Size) -> bool
    ensures { result ≡ true → (file : List ℕ) → IsWithin size file → is_path ((front.now ++ rest.now) ++ 47 ∷ file) ≡ true }
{
    match joined(front, rest) {
        Some(directory) => has_room(directory.as_slice(), size),
        None => false,
    }
}

/// Returns whether two parts, one after the other, are a path.
fn is_path_of(front: &[u8], rest: &[u8]) -> bool
    ensures { result ≡ is_path (front.now ++ rest.now) }
{
    match joined(front, rest) {
        Some(path) => is_path(path.as_slice()),
        None => false,
    }
}

/// The files below the old path that have a path below the new one. A search for others passes
/// them.
#[derive(Drop)]
struct Placed<'a> {
    old: &'a Path,
    new: &'a Path,
}

impl Passes for Placed<'_> {
    ghost use Rattle.eden_overlay.specs.Carried.{carried};
    ghost use Rattle.eden_renames.specs.Renames.{is_path};

    ghost passes = { λ placed path. is_path (carried placed.old.now placed.new.now path) };

    fn passes_file(&self, path: &[u8]) -> bool {
        let rest = path.get(self.old.as_bytes().len()..).unwrap_or(&[]);
        is_path_of(self.new.as_bytes(), rest)
    }

    fn passes_below(&self, front: &[u8], size: Size) -> bool {
        let [directory @ .., b'/'] = front else {
            return false;
        };
        match directory.get(self.old.as_bytes().len()..) {
            Some(rest) => has_room_behind(self.new.as_bytes(), rest, size),
            None => false,
        }
    }
}

impl WorkCopy {
    /// Returns whether a file below the old path would have no path below the new one.
    ///
    /// It looks below the overlay. Does not allocate. It reads no directory whose size says that
    /// there is room for its files.
    fn breaks_a_path<N: Naming + Drop>(
        &self,
        commit: &Commit<'_, N>,
        old: &Path,
        new: &Path,
    ) -> bool
        ensures { result ≡ breaks_a_path (seen_through commit.now self.now.renames) old.now new.now }
    {
        let base = self.base_at(commit);
        base.has_below_but(old, &Placed { old, new })
    }

    /// Moves what the overlay says below one path to below another, and what is seen below it too.
    ///
    /// The renamed directories stay as they are if no file below the overlay is at either place.
    fn carry_layers<N: Naming + Drop>(
        &mut self,
        commit: &Commit<'_, N>,
        old: &Path,
        new: &Path,
    ) -> Result<(), CarryFault>
        ensures root { self.new.root ≡ self.old.root }
        ensures beneath { OnOk result (seen_through commit.now self.new.renames ≡ carried_files (seen_through commit.now self.old.renames) old.now new.now) }
        ensures over { OnOk result (IsCarried self.old.overlay old.now new.now self.new.overlay) }
        ensures accepts { OnOk result ((p : List ℕ) → IsSome (fin.get self.old.overlay p) → lies_below p old.now ≡ true → breaks old.now new.now p ≡ false) }
        ensures same { OnErr result (self.new ≡ self.old) }
    {
        commit.texts_law();
        let base = self.base_at(commit);
        if !base.has_file_below(old) && !base.has_file_below(new) {
            self.overlay.carry(old, new)?;
            return Ok(());
        }
        let renaming = self.renames.begin_rename(old, new)?;
        if let Err(fault) = self.overlay.carry(old, new) {
            self.renames = renaming.undone();
            return Err(fault);
        }
        self.renames = renaming.done();
        Ok(())
    }

    /// Moves each file below one path to the same place below another, seen or hidden.
    ///
    /// `PathTooLong` if one would be at what is not a path, and `NoMemory` if an allocation fails.
    /// Both change nothing. Of the commit no directory is read whose size says that there is room
    /// for its files at the new path.
    fn carry_whole<N: Naming + Drop>(
        &mut self,
        commit: &Commit<'_, N>,
        old: &Path,
        new: &Path,
    ) -> Result<(), CarryFault>
        requires { AreTexts (seen_through commit.now self.old.renames) }
        ensures root { self.new.root ≡ self.old.root }
        ensures below { OnOk result (AreTexts (seen_through commit.now self.new.renames)) }
        ensures accepts { OnOk result (breaks_a_path (held_over commit.now self.old) old.now new.now ≡ false) }
        ensures files { OnOk result (held_over commit.now self.new ≡ carried_files (held_over commit.now self.old) old.now new.now) }
        ensures same { OnErr result (self.new ≡ self.old) }
    {
        path_law(new);
        if self.breaks_a_path(commit, old, new) {
            return Err(CarryFault::PathTooLong);
        }
        self.carry_layers(commit, old, new)?;
        Ok(())
    }

    /// Moves each file that is seen below one path, and makes the overlay lie over the commit
    /// alone.
    ///
    /// `PathTooLong` if one would be at what is not a path, and `NoMemory` if an allocation fails.
    /// Both change nothing.
    fn carry_files<N: Naming + Drop>(
        &mut self,
        store: &Store<N>,
        old: &Path,
        new: &Path,
    ) -> Result<(), CarryFault>
        requires { FitsIn store.now self.old }
        ensures root { self.new.root ≡ self.old.root }
        ensures below { OnOk result (AreTexts (base_of store.now self.new)) }
        ensures accepts { OnOk result (list_any (breaks old.now new.now) (below old.now (paths (means store.now self.old))) ≡ false) }
        ensures files { OnOk result (means store.now self.new
            ≡ each_carried old.now new.now (means store.now self.old) (below old.now (paths (means store.now self.old)))) }
        ensures refuses { IfErr result (λ fault. fault ≢ CarryFault.NoMemory
            → list_any (breaks old.now new.now) (below old.now (paths (means store.now self.old))) ≡ true) }
        ensures same { OnErr result (self.new ≡ self.old) }
    {
        store.closed_law();
        self.overlay = self.carried(store, old, new)?;
        self.renames = Renames::new(self.overlay.allocator());
        Ok(())
    }

    /// Moves each file below one path to the same place below another.
    ///
    /// `PathTooLong` if one would be at what is not a path, and `NoMemory` if an allocation fails.
    /// Both change nothing. Nothing else refuses the rename. If only a hidden file would have no
    /// path, each file that is seen is moved by itself. The commit is the root's, found once.
    pub(crate) fn carry_dir<N: Naming + Drop>(
        &mut self,
        store: &Store<N>,
        commit: &Commit<'_, N>,
        old: &Path,
        new: &Path,
    ) -> Result<(), ChangeFault>
        requires fits { FitsIn store.now self.old }
        requires commit { commit.now ≡ commit_files store.now self.old.root }
        requires source { source_fault (means store.now self.old) old.now ≡ None }
        requires distinct { same_bytes old.now new.now ≡ false }
        requires way { way_fault (means store.now self.old) old.now new.now ≡ None }
        ensures root { self.new.root ≡ self.old.root }
        ensures below { OnOk result (AreTexts (base_of store.now self.new)) }
        ensures accepts { OnOk result (rename_dir_fault (means store.now self.old) old.now new.now ≡ None) }
        ensures files { OnOk result (means store.now self.new ≡ dir_renamed (means store.now self.old) old.now new.now) }
        ensures refuses { IfErr result (λ fault. fault ≢ ChangeFault.NoMemory
            → rename_dir_fault (means store.now self.old) old.now new.now ≡ Some fault) }
        ensures same { OnErr result (self.new ≡ self.old) }
    {
        match self.carry_whole(commit, old, new) {
            Ok(()) => Ok(()),
            Err(CarryFault::NoMemory) => Err(ChangeFault::NoMemory),
            Err(CarryFault::PathTooLong) => match self.carry_files(store, old, new) {
                Ok(()) => Ok(()),
                Err(CarryFault::NoMemory) => Err(ChangeFault::NoMemory),
                Err(CarryFault::PathTooLong) => Err(ChangeFault::PathTooLong),
            },
        }
    }
}
