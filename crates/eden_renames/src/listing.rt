//! The list of the files that are seen through renamed directories.

ghost use Rattle.std.specs.Prelude.{◌≡◌, ◌++◌, IfOk, OnOk, filter};
ghost use Rattle.std.specs.List.{flat_map};
ghost use Rattle.eden_globs.specs.Filters.{admits};
ghost use Rattle.eden_ids.specs.FileMaps.{paths};
ghost use Rattle.eden_ids.specs.Paths.{lies_below};
ghost use Rattle.eden_renames.specs.Renames.{at_paths, seen_through};
ghost use Rattle.eden_renames.specs.internal.Listed.{list_own};

use crate::passes::{Governed, Pathless, Region};
use crate::renames::Renames;
use crate::sorting::sort_paths;
use eden_globs::Filter;
use eden_ids::{Naming, NoMemory, Path};
use eden_objects::{Commit, Nothing};
use std::alloc::Global;

/// Returns the files that a directory itself shows.
fn list_own<N: Naming + Drop>(
    alloc: Global,
    commit: &Commit<'_, N>,
    renames: &Renames,
    dir: &Path,
    wanted: &Filter,
) -> Result<Vec<Path>, NoMemory>
    ensures { IfOk result (λ list. list.items ≡ list_own commit.now renames.now wanted.now dir.now) }
{
    let Some(source) = renames.shown_at(dir) else {
        return Ok(Vec::new(alloc));
    };
    let region = Region {
        renames,
        long: dir.as_bytes().len(),
        passed: &Pathless,
    };
    commit.list_seen(source.as_slice(), dir, wanted, &region)
}

/// Adds the files that some of the directories show, one directory after the other.
fn add_seen_by<N: Naming + Drop>(
    alloc: Global,
    list: &mut Vec<Path>,
    commit: &Commit<'_, N>,
    renames: &Renames,
    entries: &[(Path, Option<Path>)],
    wanted: &Filter,
) -> Result<(), NoMemory>
    ensures { OnOk result (list.new.items ≡ list.old.items ++ flat_map (λ e. list_own commit.now renames.now wanted.now e.0) entries.now) }
{
    for entry in entries {
        let mut more = list_own(alloc, commit, renames, &entry.0, wanted)?;
        list.append(&mut more)?;
    }
    Ok(())
}

/// Returns the commit's own files, if no directory was renamed.
fn list_unmoved<N: Naming + Drop>(
    commit: &Commit<'_, N>,
    wanted: &Filter,
) -> Result<Vec<Path>, NoMemory>
    ensures { IfOk result (λ list. list.items ≡ filter (admits wanted.now) (paths (at_paths commit.now))) }
{
    commit.texts_law();
    let list = commit.list(wanted, &Nothing)?;
    Ok(list)
}

/// Returns the admitted files that are seen through renamed directories.
///
/// Those that no renamed directory governs are seen at their own paths; each directory
/// with an entry shows what is seen by it.
pub(crate) fn list_all<N: Naming + Drop>(
    alloc: Global,
    commit: &Commit<'_, N>,
    renames: &Renames,
    wanted: &Filter,
) -> Result<Vec<Path>, NoMemory>
    ensures { IfOk result (λ list. list.items ≡ filter (admits wanted.now) (paths (at_paths (seen_through commit.now renames.now)))) }
{
    if renames.is_empty() {
        return list_unmoved(commit, wanted);
    }
    commit.texts_law();
    let mut list = commit.list(wanted, &Governed { renames })?;
    add_seen_by(alloc, &mut list, commit, renames, renames.entries(), wanted)?;
    sort_paths(&mut list)?;
    Ok(list)
}

/// Returns the same for the files below a directory.
///
/// If no directory below it has an entry, what is seen at the directory itself is the
/// whole list, in order.
pub(crate) fn list_below<N: Naming + Drop>(
    alloc: Global,
    commit: &Commit<'_, N>,
    renames: &Renames,
    top: &Path,
    wanted: &Filter,
) -> Result<Vec<Path>, NoMemory>
    ensures { IfOk result (λ list. list.items
        ≡ filter (admits wanted.now) (filter (λ p. lies_below p top.now) (paths (at_paths (seen_through commit.now renames.now))))) }
{
    commit.texts_law();
    let mut list = list_own(alloc, commit, renames, top, wanted)?;
    let further = renames.entries_below(top);
    if further.is_empty() {
        return Ok(list);
    }
    add_seen_by(alloc, &mut list, commit, renames, further, wanted)?;
    sort_paths(&mut list)?;
    Ok(list)
}
