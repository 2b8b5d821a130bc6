//! A change of the root over whole file maps: the files after it, and the paths that it
//! names.

ghost use Rattle.std.specs.Prelude.{◌≡◌, IfOk};
ghost use Rattle.eden_ids.specs.FileMaps.{differ, listing, path_set, paths, union};
ghost use Rattle.eden_objects.specs.Files.{commit_files};
ghost use Rattle.eden_history.specs.Checkouts.{checked_out, conflicts, paths_of_all, unclean};
ghost use Rattle.eden_history.specs.DirtyFiles.{dirty_files};

use crate::commit_files::{files_at, files_of_commit};
use crate::row::Row;
use eden_history::{Mode, Sides};
use eden_ids::{Content, Files, Id, Naming, NoMemory, Path, PathTable, is_same_at, push_where};
use eden_objects::Store;
use std::alloc::Global;

/// Returns the paths of three file maps, in byte order.
#[tactic(auto, using(eden_ids::proofs::Tables::union_three))]
fn paths_of_all(
    alloc: Global,
    work: &Files,
    root: &Files,
    target: &Files,
) -> Result<Vec<Path>, NoMemory>
    ensures { IfOk result (λ list. list.items ≡ listing (path_set (paths_of_all work.now root.now target.now))) }
{
    let mut table = PathTable::new(alloc);
    target.add_paths(&mut table)?;
    root.add_paths(&mut table)?;
    work.add_paths(&mut table)?;
    table.list(alloc)
}

/// Returns the paths at which two file maps differ, in byte order.
pub(crate) fn differing(alloc: Global, one: &Files, other: &Files) -> Result<Vec<Path>, NoMemory>
    ensures { IfOk result (λ list. list.items ≡ listing (differ one.now other.now)) }
{
    let all = paths_of_all(alloc, one, other, other)?;
    let mut list = Vec::new(alloc);
    push_where(&mut list, &all, |path| {
        !is_same_at(one, other, path.as_bytes())
    })?;
    Ok(list)
}

/// Returns the paths of two lists, each once, in byte order.
#[tactic(auto, using(crate::proofs::SideLaws::union_nothing))]
fn joined(alloc: Global, first: &[Path], second: &[Path]) -> Result<Vec<Path>, NoMemory>
    ensures { IfOk result (λ list. list.items ≡ listing (union (path_set first.now) (path_set second.now))) }
{
    let mut table = PathTable::new(alloc);
    table.add_all(second)?;
    table.add_all(first)?;
    table.list(alloc)
}

/// The file maps from which a checkout is decided.
///
/// They are those of the working copy, of the commit below it and of the commit that is
/// checked out. With them are the dirty paths and the files of the working copy at these.
#[derive(Drop)]
pub(crate) struct SideMaps {
    work: Files,
    root: Files,
    target: Files,
    dirty: Files,
    changed: Vec<Path>,
    ghost differs: { paths dirty ≡ paths (dirty_files work root) },
    ghost each: { changed.items ≡ listing (differ work root) },
}

impl SideMaps {
    ghost use Rattle.std.specs.Prelude.{◌≡◌, IfOk};
    ghost use Rattle.eden_ids.specs.FileMaps.{differ, listing, path_set, union};
    ghost use Rattle.eden_objects.specs.Files.{commit_files};
    ghost use Rattle.eden_history.specs.Checkouts.{checked_out, conflicts, unclean};

    /// Returns the file maps for a checkout over a row.
    #[tactic(auto, using(crate::proofs::SideLaws::dirty_tabulated))]
    pub(crate) fn of<N: Naming + Drop>(
        alloc: Global,
        store: &Store<N>,
        row: &Row,
        commit: Id,
    ) -> Result<SideMaps, NoMemory>
        ensures work { IfOk result (λ sides. sides.work ≡ row.now.files) }
        ensures root { IfOk result (λ sides. sides.root ≡ commit_files store.now row.now.root) }
        ensures target { IfOk result (λ sides. sides.target ≡ commit_files store.now commit) }
    {
        let work = row.files().copy()?;
        let root = files_of_commit(alloc, store, row.root())?;
        let target = files_of_commit(alloc, store, commit)?;
        let changed = differing(alloc, &work, &root)?;
        let dirty = files_at(alloc, &work, &changed)?;
        Ok(SideMaps {
            work,
            root,
            target,
            dirty,
            changed,
        })
    }

    /// Returns these maps as `Sides`, which decides what happens to a path.
    fn sides(&self) -> Sides<'_, Files, Files, Files, Files>
        ensures work { result.work.now ≡ self.now.work }
        ensures root { result.root.now ≡ self.now.root }
        ensures target { result.target.now ≡ self.now.target }
    {
        Sides {
            work: &self.work,
            root: &self.root,
            target: &self.target,
            dirty: &self.dirty,
            changed: &self.changed,
        }
    }

    /// Returns the files after a checkout in a mode. The last path is visited first.
    #[tactic(auto, using(crate::proofs::Tabulating::begins, crate::proofs::Tabulating::goes_on, crate::proofs::SideLaws::all_tabulated))]
    pub(crate) fn files_after(&self, alloc: Global, mode: Mode) -> Result<Files, NoMemory>
        ensures { IfOk result (λ files. files ≡ checked_out mode self.now.work self.now.root self.now.target) }
    {
        let sides = self.sides();
        let all = paths_of_all(alloc, &self.work, &self.root, &self.target)?;
        let mut files = Files::new(alloc);
        for place in (0..all.len()).rev() {
            let path = &all[place];
            let file = Content::of_lent(sides.file_after(mode, path))?;
            files.put(path, file)?;
        }
        Ok(files)
    }

    /// Returns the conflicts of a checkout, in byte order.
    pub(crate) fn conflicts(&self, alloc: Global) -> Result<Vec<Path>, NoMemory>
        ensures { IfOk result (λ list. list.items ≡ listing (conflicts self.now.work self.now.root self.now.target)) }
    {
        let sides = self.sides();
        let all = paths_of_all(alloc, &self.work, &self.root, &self.target)?;
        let mut list = Vec::new(alloc);
        push_where(&mut list, &all, |path| sides.is_conflict(path))?;
        Ok(list)
    }

    /// Returns a checkout's unclean paths and the paths that it names.
    ///
    /// The checkout leaves these files. Both lists are in byte order.
    #[tactic(auto, using(crate::proofs::SideLaws::unclean_joined, crate::proofs::SideLaws::named_joined))]
    pub(crate) fn unclean_and_named(
        &self,
        alloc: Global,
        next: &Files,
    ) -> Result<(Vec<Path>, Vec<Path>), NoMemory>
        ensures unclean { IfOk result (λ told. told.0.items ≡ listing (unclean self.now.work self.now.root next.now self.now.target)) }
        ensures names { IfOk result (λ told. told.1.items
            ≡ listing (union (unclean self.now.work self.now.root next.now self.now.target) (differ self.now.root self.now.target))) }
    {
        let after = differing(alloc, next, &self.target)?;
        let unclean = joined(alloc, &self.changed, &after)?;
        let between = differing(alloc, &self.root, &self.target)?;
        let names = joined(alloc, &unclean, &between)?;
        Ok((unclean, names))
    }
}
