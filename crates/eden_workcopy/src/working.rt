//! A working copy together with its store: a tree of files that is asked.

ghost use Rattle.std.specs.Prelude.{◌≡◌, Some, None, IfOk, IfErr};
ghost use Rattle.eden_ids.specs.FileMaps.{file_at, has_file_below, lent};
ghost use Rattle.eden_history.specs.Renames.{absent_fault};
ghost use Rattle.eden_overlay.specs.Layers.{over};
ghost use Rattle.eden_renames.specs.Renames.{seen_through};
ghost use Rattle.eden_workcopy.specs.Meanings.{base_of, means};

use crate::work::WorkCopy;
use bytes::Bytes;
use eden_history::{ChangeFault, place_fault};
use eden_ids::{Content, FileTree, Kind, Naming, NoMemory, Path};
use eden_objects::{Commit, Passes, Size, Store};
use eden_overlay::Overlay;
use eden_renames::Renamed;
use std::marker::Model;

/// A working copy together with its store: the tree of files that it holds there.
///
/// Its value is that file map. It borrows both, takes no memory, and finds the root's commit once
/// for all questions.
#[derive(Drop)]
pub struct Working<'a, N: Naming + Drop> {
    base: Renamed<'a, N>,
    overlay: &'a Overlay,
}

impl<'a, N: Naming + Drop> Model for Working<'a, N> {
    ghost use Rattle.std.specs.Coded.{coded_list, coded_ℕ};
    ghost use Rattle.std.specs.FinMap as fin;
    ghost use Rattle.eden_ids.specs.contracts.content.Content as content;
    ghost use Rattle.eden_ids.specs.FileMaps.{FileMap};
    ghost use Rattle.eden_overlay.specs.Layers.{over};

    ghost Value = { FileMap };

    ghost coded = { fin.code (coded_list coded_ℕ) content.the_row.coded };

    ghost view = { λ w. over w.base w.overlay.now };
}

/// Returns the kind and the bytes of a file.
pub(crate) fn lent(file: &Option<Content>) -> Option<(Kind, &Bytes)>
    ensures { lent result ≡ file.now }
{
    match file {
        Some(content) => Some((content.kind, &content.bytes)),
        None => None,
    }
}

/// The paths of which an overlay says something. The files below it are not seen there.
#[derive(Drop)]
struct Spoken<'a> {
    overlay: &'a Overlay,
}

impl Passes for Spoken<'_> {
    ghost use Rattle.std.specs.Prelude.{is_some};
    ghost use Rattle.std.specs.FinMap as fin;

    ghost passes = { λ spoken path. is_some (fin.get spoken.overlay.now path) };

    fn passes_file(&self, path: &[u8]) -> bool {
        self.overlay.get(path).is_some()
    }

    fn passes_below(&self, _front: &[u8], _size: Size) -> bool {
        false
    }
}

/// Returns the file that is seen at a path of files with an overlay over them.
#[tactic(auto, using(eden_overlay::proofs::Overs::file_told, eden_overlay::proofs::Overs::file_below))]
fn file_over<'a, N: Naming + Drop>(
    base: &Renamed<'a, N>,
    overlay: &'a Overlay,
    path: &[u8],
) -> Option<(Kind, &'a Bytes)>
    ensures { lent result ≡ file_at (over base.now overlay.now) path.now }
{
    match overlay.get(path) {
        Some(file) => lent(file),
        None => base.file(path),
    }
}

/// Returns whether a file is seen below a path of files with an overlay over them.
///
/// Of the overlay only the entries below the path are looked at. The search ends at the first file
/// that is seen.
fn has_below_over<N: Naming + Drop>(base: &Renamed<'_, N>, overlay: &Overlay, path: &Path) -> bool
    ensures { result ≡ has_file_below (over base.now overlay.now) path.now }
{
    if overlay.has_file_below(path) {
        return true;
    }
    base.has_below_but(path, &Spoken { overlay })
}

impl<'a, N: Naming + Drop> Working<'a, N> {
    /// Returns the files that are seen with an overlay over others.
    pub(crate) fn of(base: Renamed<'a, N>, overlay: &'a Overlay) -> Working<'a, N>
        ensures { result ≡ over base.entry overlay.now }
    {
        Working { base, overlay }
    }

    /// Returns the kind and the bytes of the file at a path, if there is one. Does not allocate.
    pub fn file(&self, path: &[u8]) -> Option<(Kind, &'a Bytes)>
        ensures { lent result ≡ file_at self.now path.now }
    {
        file_over(&self.base, self.overlay, path)
    }

    /// Returns the kind and the bytes of the file at a path.
    ///
    /// Refused, in this order, as `NotADirectory`, `IsADirectory` or `NoEntry`. Does not allocate.
    pub fn read(&self, path: &Path) -> Result<(Kind, &'a [u8]), ChangeFault>
        ensures accepts { IfOk result (λ _. absent_fault self.now path.now ≡ None) }
        ensures reads { IfOk result (λ seen. file_at self.now path.now ≡ Some (record { kind = seen.0; bytes = seen.1.now })) }
        ensures refuses { IfErr result (λ fault. absent_fault self.now path.now ≡ Some fault) }
    {
        if let Some(fault) = place_fault(self, path) {
            return Err(fault);
        }
        match self.file(path.as_bytes()) {
            Some((kind, bytes)) => Ok((kind, bytes.as_slice())),
            None => Err(ChangeFault::NoEntry),
        }
    }

    /// Returns a copy of the file at a path, if there is one, which shares its bytes.
    ///
    /// `NoMemory` if the count of those that share them is full. Does not allocate.
    pub fn file_copy(&self, path: &Path) -> Result<Option<Content>, NoMemory>
        ensures { IfOk result (λ file. file ≡ file_at self.now path.now) }
    {
        Content::of_lent(self.file(path.as_bytes()))
    }
}

impl<'a, N: Naming + Drop> FileTree for Working<'a, N> {
    ghost files = { λ w. w };

    fn file(&self, path: &[u8]) -> Option<(Kind, &Bytes)> {
        Working::file(self, path)
    }

    fn has_file_below(&self, path: &Path) -> bool {
        has_below_over(&self.base, self.overlay, path)
    }
}

impl WorkCopy {
    /// Returns the files below the overlay as a tree, over this commit. Does not allocate.
    ///
    /// The commit is that of the root, if it is to be what the working copy holds.
    pub(crate) fn base_at<'a, N: Naming + Drop>(
        &'a self,
        commit: &'a Commit<'_, N>,
    ) -> Renamed<'a, N>
        ensures { result ≡ seen_through commit.now self.now.renames }
    {
        Renamed::of(commit.again(), &self.renames)
    }

    /// Returns the files below the overlay as a tree. Does not allocate.
    pub(crate) fn base<'a, N: Naming + Drop>(&'a self, store: &'a Store<N>) -> Renamed<'a, N>
        ensures { result ≡ base_of store.now self.now }
    {
        Renamed::of(store.commit_files(self.root), &self.renames)
    }

    /// Returns the files that it holds over a store, as a tree. Does not allocate.
    pub fn over<'a, N: Naming + Drop>(&'a self, store: &'a Store<N>) -> Working<'a, N>
        ensures { result ≡ means store.now self.now }
    {
        Working::of(self.base(store), &self.overlay)
    }
}
