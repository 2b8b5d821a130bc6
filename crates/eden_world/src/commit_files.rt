//! Whole file maps of trees of files.

ghost use Rattle.std.specs.Prelude.{◌≡◌, IfOk, map};
ghost use Rattle.eden_ids.specs.FileMaps.{file_at, paths, tabulate};
ghost use Rattle.eden_objects.specs.Files.{commit_files};

use eden_globs::Filter;
use eden_ids::{Content, FileTree, Files, Id, Kind, Naming, NoMemory, Path};
use eden_objects::{CommitFault, Store};
use std::alloc::Global;

/// Returns a commit's files with path, kind and blob.
///
/// There are none if the id is not that of a commit.
#[tactic(auto, using(crate::proofs::Listed::rows_paths, crate::proofs::Listed::no_rows))]
fn rows_of<N: Naming + Drop>(
    alloc: Global,
    store: &Store<N>,
    commit: Id,
) -> Result<Vec<(Path, Kind, Id)>, NoMemory>
    ensures { IfOk result (λ rows. map (λ row. row.0) rows.items ≡ paths (commit_files store.now commit)) }
{
    let filter = Filter::all(alloc);
    store.closed_law();
    match store.list(commit, &filter) {
        Ok(rows) => Ok(rows),
        Err(CommitFault::NoCommit) => Ok(Vec::new(alloc)),
        Err(CommitFault::NoMemory) => Err(NoMemory),
    }
}

/// Returns the paths of a commit's files, in byte order.
///
/// There are none if the id is not that of a commit.
fn paths_of_commit<N: Naming + Drop>(
    alloc: Global,
    store: &Store<N>,
    commit: Id,
) -> Result<Vec<Path>, NoMemory>
    ensures { IfOk result (λ list. list.items ≡ paths (commit_files store.now commit)) }
{
    let rows = rows_of(alloc, store, commit)?;
    let mut list = Vec::new(alloc);
    for row in rows.iter() {
        list.push(row.0.copy()?)?;
    }
    Ok(list)
}

/// Returns the files of a tree at some paths. The last path is visited first.
#[tactic(auto, using(crate::proofs::Tabulating::begins, crate::proofs::Tabulating::goes_on))]
pub(crate) fn files_at<T: FileTree>(
    alloc: Global,
    tree: &T,
    paths: &[Path],
) -> Result<Files, NoMemory>
    ensures { IfOk result (λ files. files ≡ tabulate paths.now (file_at (T.files tree.now))) }
{
    let mut files = Files::new(alloc);
    for place in (0..paths.len()).rev() {
        let path = &paths[place];
        let file = Content::of_lent(tree.file(path.as_bytes()))?;
        files.put(path, file)?;
    }
    Ok(files)
}

/// Returns all files of a commit.
///
/// There are none if the id is not that of a commit.
#[tactic(auto, using(crate::proofs::Tabulating::tabulated_itself))]
pub(crate) fn files_of_commit<N: Naming + Drop>(
    alloc: Global,
    store: &Store<N>,
    commit: Id,
) -> Result<Files, NoMemory>
    ensures { IfOk result (λ files. files ≡ commit_files store.now commit) }
{
    let paths = paths_of_commit(alloc, store, commit)?;
    files_at(alloc, &store.commit_files(commit), &paths)
}
