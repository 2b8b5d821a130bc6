//! The paths at which another file may be seen than the commit's own.

ghost use Rattle.std.specs.Prelude.{◌≡◌, ◌||◌, Some, false, true, IfOk, OnOk, filter};
ghost use Rattle.eden_ids.specs.FileMaps.{listing, paths};
ghost use Rattle.eden_ids.specs.Paths.{lies_below};
ghost use Rattle.eden_overlay.specs.Carried.{carried};
ghost use Rattle.eden_renames.specs.Renames.{seen_through, unsettled};
ghost use Rattle.eden_renames.specs.internal.Listed.{IsWith};
ghost use Rattle.eden_renames.specs.internal.Unsettling.{is_shown, is_unsettled_by, own_below, put_if, seen_below};

use crate::renamed::file_through;
use crate::renames::Renames;
use eden_globs::Filter;
use eden_ids::{Naming, NoMemory, Path, PathTable};
use eden_objects::{Commit, Nothing};
use eden_overlay::{CarryFault, carried_path};
use std::alloc::Global;

/// Returns the paths of a commit's files below a directory.
fn files_below<N: Naming + Drop>(
    alloc: Global,
    commit: &Commit<'_, N>,
    top: &Path,
) -> Result<Vec<Path>, NoMemory>
    ensures { IfOk result (λ list. list.items ≡ filter (λ p. lies_below p top.now) (paths commit.now)) }
{
    commit.texts_law();
    let list = commit.list_seen(top.as_bytes(), top, &Filter::all(alloc), &Nothing)?;
    Ok(list)
}

/// Adds the paths of the commit's own files below a directory.
fn add_own<N: Naming + Drop>(
    alloc: Global,
    table: &mut PathTable,
    commit: &Commit<'_, N>,
    dir: &Path,
) -> Result<(), NoMemory>
    ensures { OnOk result (IsWith (own_below commit.now dir.now) table.old table.new) }
{
    let list = files_below(alloc, commit, dir)?;
    for path in &list {
        table.add(path)?;
    }
    Ok(())
}

/// Adds a path below a directory, if a file is seen there.
///
/// It is where a file below the directory's source would be seen.
fn add_if_seen<N: Naming + Drop>(
    table: &mut PathTable,
    commit: &Commit<'_, N>,
    renames: &Renames,
    path: &Path,
    source: &Path,
    dir: &Path,
) -> Result<(), NoMemory>
    requires { lies_below path.now source.now ≡ true }
    ensures { OnOk result (table.new ≡ put_if (is_shown (seen_through commit.now renames.now) (carried source.now dir.now path.now)) table.old (carried source.now dir.now path.now)) }
{
    let place = match carried_path(renames.allocator(), path, source, dir) {
        Ok(place) => place,
        Err(CarryFault::NoMemory) => return Err(NoMemory),
        Err(CarryFault::PathTooLong) => return Ok(()),
    };
    if file_through(commit, renames, place.as_bytes()).is_some() {
        table.add(&place)?;
    }
    Ok(())
}

/// Adds the paths at which a directory shows its source's files.
fn add_seen<N: Naming + Drop>(
    table: &mut PathTable,
    commit: &Commit<'_, N>,
    renames: &Renames,
    source: &Path,
    dir: &Path,
) -> Result<(), NoMemory>
    ensures { OnOk result (IsWith (seen_below commit.now (seen_through commit.now renames.now) (dir.now, Some source.now)) table.old table.new) }
{
    let list = files_below(renames.allocator(), commit, source)?;
    for path in &list {
        add_if_seen(table, commit, renames, path, source, dir)?;
    }
    Ok(())
}

/// Adds the paths that an entry unsettles.
fn add_entry<N: Naming + Drop>(
    table: &mut PathTable,
    commit: &Commit<'_, N>,
    renames: &Renames,
    entry: &(Path, Option<Path>),
) -> Result<(), NoMemory>
    ensures { OnOk result (IsWith (λ path. is_unsettled_by commit.now (seen_through commit.now renames.now) path entry.now) table.old table.new) }
{
    add_own(renames.allocator(), table, commit, &entry.0)?;
    match &entry.1 {
        Some(source) => add_seen(table, commit, renames, source, &entry.0),
        None => Ok(()),
    }
}

impl Renames {
    /// Returns the paths at which another file may be seen.
    ///
    /// That is a file other than the commit's own. They are the paths below a renamed
    /// directory at which the commit has a file or one is seen, in byte order. The time
    /// grows with the number of files below the renamed directories and below what is
    /// seen at them, not with that of other files.
    ///
    /// # Errors
    ///
    /// - `NoMemory` if an allocation fails.
    pub fn unsettled<N: Naming + Drop>(&self, commit: &Commit<'_, N>) -> Result<Vec<Path>, NoMemory>
        ensures { IfOk result (λ list. list.items ≡ listing (unsettled commit.now self.now)) }
    {
        commit.texts_law();
        let mut table = PathTable::new(self.allocator());
        for entry in self.entries() {
            add_entry(&mut table, commit, self, entry)?;
        }
        table.list(self.allocator())
    }
}
