//! A commit with renamed directories, asked for its files as they are seen.

ghost use Rattle.std.specs.Prelude.{◌≡◌, ◌&&◌, IfOk, filter, not};
ghost use Rattle.std.specs.List.{list_any};
ghost use Rattle.std.specs.Option.{option_map};
ghost use Rattle.eden_ids.specs.FileMaps.{file_at, lent, paths};
ghost use Rattle.eden_ids.specs.Paths.{lies_below};
ghost use Rattle.eden_globs.specs.Filters.{admits};
ghost use Rattle.eden_objects.specs.Stats.{stat_of};
ghost use Rattle.eden_renames.specs.Renames.{at_paths, seen_through};

use crate::listing::{list_all, list_below};
use crate::renames::Renames;
use crate::searching::has_below_but;
use crate::source::{Source, joined};
use bytes::Bytes;
use eden_globs::Filter;
use eden_ids::{FileTree, Kind, Naming, NoMemory, Path};
use eden_objects::{Commit, Nothing, Passes, Stat};
use std::alloc::Global;
use std::marker::Model;

/// A commit with renamed directories.
///
/// Its value is the file map that is seen. It borrows both, and does not allocate.
#[derive(Drop)]
pub struct Renamed<'a, N: Naming + Drop> {
    commit: Commit<'a, N>,
    renames: &'a Renames,
}

impl<'a, N: Naming + Drop> Model for Renamed<'a, N> {
    ghost use Rattle.std.specs.Coded.{coded_list, coded_ℕ};
    ghost use Rattle.std.specs.FinMap as fin;
    ghost use Rattle.eden_ids.specs.contracts.content.Content as content;
    ghost use Rattle.eden_ids.specs.FileMaps.{FileMap};
    ghost use Rattle.eden_renames.specs.Renames.{seen_through};

    ghost Value = { FileMap };

    ghost coded = { fin.code (coded_list coded_ℕ) content.the_row.coded };

    ghost view = { λ m. seen_through m.commit m.renames.now };
}

/// Returns the file that is seen at a path through renamed directories.
pub(crate) fn file_through<'a, N: Naming + Drop>(
    commit: &Commit<'a, N>,
    renames: &Renames,
    path: &[u8],
) -> Option<(Kind, &'a Bytes)>
    ensures { lent result ≡ file_at (seen_through commit.now renames.now) path.now }
{
    commit.texts_law();
    match renames.source(path) {
        Source::Own => commit.file(path),
        Source::Nothing => None,
        Source::Below(directory, rest) => {
            let source = joined(directory.as_bytes(), rest)?;
            commit.file(source.as_slice())
        }
    }
}

/// Returns the file that is seen at a path, without its bytes.
fn stat_through<N: Naming + Drop>(
    commit: &Commit<'_, N>,
    renames: &Renames,
    path: &[u8],
) -> Option<Stat>
    ensures { result ≡ option_map (stat_of N.id) (file_at (seen_through commit.now renames.now) path.now) }
{
    commit.texts_law();
    match renames.source(path) {
        Source::Own => commit.stat(path),
        Source::Nothing => None,
        Source::Below(directory, rest) => {
            let source = joined(directory.as_bytes(), rest)?;
            commit.stat(source.as_slice())
        }
    }
}

impl<'a, N: Naming + Drop> Renamed<'a, N> {
    /// Returns a commit as it is seen through renamed directories.
    pub fn of(commit: Commit<'a, N>, renames: &'a Renames) -> Renamed<'a, N>
        ensures { result ≡ seen_through commit.entry renames.now }
    {
        Renamed { commit, renames }
    }

    /// Returns the kind and the bytes of the file that is seen.
    ///
    /// Each directory above the path is searched for among the renamed ones, by binary
    /// search; then the commit is asked for one file. Does not allocate.
    pub fn file(&self, path: &[u8]) -> Option<(Kind, &'a Bytes)>
        ensures { lent result ≡ file_at self.now path.now }
    {
        file_through(&self.commit, self.renames, path)
    }

    /// Returns the file that is seen, without its bytes.
    ///
    /// It searches as `file` does, and hashes nothing. Does not allocate.
    pub fn stat(&self, path: &[u8]) -> Option<Stat>
        ensures { result ≡ option_map (stat_of N.id) (file_at self.now path.now) }
    {
        stat_through(&self.commit, self.renames, path)
    }

    /// Returns true if a seen file is not passed over.
    ///
    /// The file must be below the directory. The search is depth first and ends at the
    /// first such file. It reads no directory without files, and none below which
    /// everything is passed over or is seen at another directory. Does not allocate.
    pub fn has_below_but<S: Passes>(&self, top: &Path, passed: &S) -> bool
        ensures { result ≡ list_any (λ p. lies_below p top.now && not (S.passes passed.now p)) (paths self.now) }
    {
        has_below_but(&self.commit, self.renames, top, passed)
    }

    /// Returns the paths at which files are seen and that a filter admits, in byte order.
    ///
    /// Each directory is read once for each place at which it is seen, except those below
    /// which the filter admits nothing (`Filter::admits_below`). If no directory was
    /// renamed, it is the commit's own list. Else the paths are sorted once; none is
    /// copied.
    ///
    /// # Errors
    ///
    /// - `NoMemory` if an allocation fails.
    pub fn list(&self, alloc: Global, wanted: &Filter) -> Result<Vec<Path>, NoMemory>
        ensures { IfOk result (λ list. list.items ≡ filter (admits wanted.now) (paths (at_paths self.now))) }
    {
        list_all(alloc, &self.commit, self.renames, wanted)
    }

    /// Returns the paths of `list` that are below a directory, in byte order.
    ///
    /// Of the commit, only the directories on the way are searched and those seen below
    /// the directory are read. Paths are sorted if another directory below it was renamed;
    /// else they come in order.
    ///
    /// # Errors
    ///
    /// - `NoMemory` if an allocation fails.
    pub fn list_below(
        &self,
        alloc: Global,
        top: &Path,
        wanted: &Filter,
    ) -> Result<Vec<Path>, NoMemory>
        ensures { IfOk result (λ list. list.items
            ≡ filter (admits wanted.now) (filter (λ p. lies_below p top.now) (paths (at_paths self.now)))) }
    {
        list_below(alloc, &self.commit, self.renames, top, wanted)
    }
}

impl<'a, N: Naming + Drop> FileTree for Renamed<'a, N> {
    ghost files = { λ renamed. renamed };

    fn file(&self, path: &[u8]) -> Option<(Kind, &Bytes)> {
        Renamed::file(self, path)
    }

    fn has_file_below(&self, path: &Path) -> bool {
        self.has_below_but(path, &Nothing)
    }
}
