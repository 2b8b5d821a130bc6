//! Which files a list of the paths below a directory removes from a file map.

ghost use Rattle.std.specs.Prelude.{◌≡◌, true, not, filter, IfOk};
ghost use Rattle.std.specs.Ordering.{nat_cmp};
ghost use Rattle.std.specs.Cmp.Lexicographic.{slice_cmp};
ghost use Rattle.std.specs.FinMap.{retain_keys};
ghost use Rattle.std.specs.List.Sorted.{IsStrictlySortedBy};
ghost use Rattle.eden_ids.specs.FileMaps.{paths};
ghost use Rattle.eden_messages.specs.Mirrors.{is_among, listed_files};
ghost use Rattle.eden_mirror.specs.internal.Listed.{is_unlisted};

use crate::awaited::Awaited;
use eden_history::is_listed;
use eden_ids::{Files, NoMemory, Path};
use std::alloc::Global;
use std::marker::Model;

/// Paths that can be searched without visiting them all.
///
/// They are searched by halves if they ascend, as those of every encoded reply do, and
/// else through a table.
#[derive(Drop)]
struct Listed<'a> {
    paths: &'a [Path],
    /// `None` if the paths ascend.
    table: Option<Awaited>,
}

impl<'a> Model for Listed<'a> {
    ghost use Rattle.std.specs.Prelude.{List, ℕ};
    ghost use Rattle.eden_mirror.specs.internal.Listed.{IsFound};

    ghost Value = { List (List ℕ) };

    ghost view = { λ l. l.paths.now };

    ghost invariant = { λ l. IsFound l.paths.now l.table };
}

/// Returns true only if each path sorts before the next.
fn ascend(paths: &[Path]) -> bool
    ensures { result ≡ true → IsStrictlySortedBy (slice_cmp nat_cmp) paths.now }
{
    paths.is_sorted_by(|left, right| left < right)
}

impl<'a> Listed<'a> {
    /// Returns these paths, ready to be searched.
    fn new(alloc: Global, paths: &'a [Path]) -> Result<Listed<'a>, NoMemory>
        ensures { IfOk result (λ listed. listed ≡ paths.now) }
    {
        if ascend(paths) {
            return Ok(Listed { paths, table: None });
        }
        let table = Some(Awaited::of_paths(alloc, paths)?);
        Ok(Listed { paths, table })
    }

    /// Returns true if a path is one of them.
    fn has(&self, path: &Path) -> bool
        ensures { result ≡ is_among path.now self.now }
    {
        match &self.table {
            None => is_listed(self.paths, path.as_bytes()),
            Some(table) => table.has(path),
        }
    }
}

/// Returns the paths of files below a directory that are not listed.
fn unlisted_below(
    alloc: Global,
    files: &Files,
    prefix: &Path,
    listed: &Listed<'_>,
) -> Result<Vec<Path>, NoMemory>
    ensures { IfOk result (λ gone. gone.items ≡ filter (is_unlisted prefix.now listed.now) (paths files.now)) }
{
    let mut gone = Vec::new(alloc);
    for path in files.paths() {
        if path.is_below(prefix) && !listed.has(path) {
            gone.push(path.copy()?)?;
        }
    }
    Ok(gone)
}

/// Returns the paths that a list of a directory removes.
///
/// It visits each path of the map once, and searches the list for each path below the
/// directory.
pub(crate) fn unlisted(
    alloc: Global,
    files: &Files,
    prefix: &Path,
    listed: &[Path],
) -> Result<Vec<Path>, NoMemory>
    ensures { IfOk result (λ gone. retain_keys files.now (λ path. not (is_among path gone.items)) ≡ listed_files files.now prefix.now listed.now) }
{
    let listed = Listed::new(alloc, listed)?;
    unlisted_below(alloc, files, prefix, &listed)
}

/// Removes the files at these paths. Does not allocate.
pub(crate) fn remove_all(files: &mut Files, gone: &[Path])
    ensures { files.new ≡ retain_keys files.old (λ path. not (is_among path gone.now)) }
{
    for path in gone {
        files.remove(path);
    }
}
