//! The paths that a range names, with those below renamed directories.

ghost use Rattle.std.specs.Prelude.{◌≡◌, ◌≢◌, ◌++◌, ℕ, List, true, false, IfOk, IfErr, OnOk, map};
ghost use Rattle.eden_ids.specs.FileMaps.{FileMap, has_file_above};
ghost use Rattle.eden_objects.specs.Commits.{commit_map};
ghost use Rattle.eden_journal.specs.Runs.{after};
ghost use Rattle.eden_workcopy.specs.Meanings.{means, FitsIn};
ghost use Rattle.eden_history.specs.Back.{CanGoBack, places, was_all};
ghost use Rattle.eden_history.specs.Changes.{below_any};
ghost use Rattle.eden_history.specs.Marks.{admitted};
ghost use Rattle.eden_ranges.specs.Expanded.{are_comparable};
ghost use Rattle.eden_names.specs.Naming.{found_below, named_by, remarked};

use crate::back::go_back;
use eden_globs::Filter;
use eden_history::{Marked, Touch};
use eden_ids::{
    Content, FileTree, Files, Kind, Naming, NoMemory, Path, Sequence, has_file, has_file_above,
};
use eden_journal::Recent;
use eden_objects::{CommitFault, Store};
use eden_ranges::{Range, expand_owned};
use eden_workcopy::WorkCopy;
use std::alloc::Global;

/// Returns these paths as a tree, so that it can be asked what is below one of them.
fn tree_of(alloc: Global, prefixes: &[Path]) -> Result<Files, NoMemory>
    ensures { IfOk result (λ tree. (path : List ℕ) → has_file_above tree path ≡ below_any prefixes.now path) }
{
    let mut tree = Files::new(alloc);
    for prefix in prefixes {
        let file = Content::from_bytes(alloc, Kind::Plain, &[])?;
        tree.insert(prefix.copy()?, file)?;
    }
    Ok(tree)
}

/// Adds the paths of the files below these directories.
fn add_below<N: Naming + Drop>(
    store: &Store<N>,
    work: &WorkCopy,
    prefixes: &[Path],
    paths: &mut Vec<Path>,
) -> Result<(), NoMemory>
    requires { FitsIn store.now work.now }
    ensures { OnOk result (paths.new.items ≡ paths.old.items ++ found_below prefixes.now (means store.now work.now)) }
{
    for prefix in prefixes {
        let mut listed = work.list_below(store, prefix)?;
        paths.append(&mut listed)?;
    }
    Ok(())
}

/// Returns the marks of paths below the directories by where files were, and where they are now.
fn remark<B: FileTree, W: FileTree>(
    alloc: Global,
    marked: Vec<Marked>,
    prefixes: &[Path],
    before: &B,
    now: &W,
) -> Result<Vec<Marked>, NoMemory>
    ensures { IfOk result (λ list. list.items ≡ map (remarked prefixes.now (places (B.files before.now)) (places (W.files now.now))) marked.items) }
{
    let tree = tree_of(alloc, prefixes)?;
    let mut list = Vec::with_capacity(alloc, marked.len())?;
    for one in marked {
        let Marked { mut mark, path } = one;
        if has_file_above(&tree, path.as_bytes()) {
            let (before, after) = (
                has_file(before, path.as_bytes()),
                has_file(now, path.as_bytes()),
            );
            mark = Touch { before, after }.mark();
        }
        list.push(Marked { mark, path })?;
    }
    Ok(list)
}

/// Returns the admitted paths of a range by name, with their marks, in byte order.
///
/// They are those of `expand_admitted`, and the paths below the range's directories at
/// which there was a file before the range or is one now. The mark of a path below such a
/// directory says whether there was a file before and is one now.
///
/// `work` is the working copy at the end of the range, and `recent` is what the journal
/// recorded since its beginning.
///
/// # Errors
///
/// As of `expand_admitted`.
pub fn name_paths<N: Naming + Drop>(
    alloc: Global,
    store: &Store<N>,
    range: Range,
    recent: &Recent,
    work: &WorkCopy,
    wanted: &Filter,
) -> Result<Vec<Marked>, CommitFault>
    requires fits { FitsIn store.now work.now }
    requires open_way { CanGoBack (commit_map store.now) (map (λ run. run.what) (after range.from recent.now)) (places (means store.now work.now)) }
    ensures named { IfOk result (λ marked. (before : FileMap)
        × ((path : List ℕ) → places before path
        ≡ was_all (commit_map store.now) (map (λ run. run.what) (after range.from recent.now)) (places (means store.now work.now)) path)
        × (marked.items ≡ admitted wanted.now (named_by store.now range before (means store.now work.now)))) }
    ensures compared { OnOk result (are_comparable (commit_map store.now) range.roots ≡ true) }
    ensures fault { IfErr result (λ fault. fault ≢ CommitFault.NoMemory → are_comparable (commit_map store.now) range.roots ≡ false) }
{
    let before = go_back(alloc, store, work.copy()?, recent, range.from)?;
    let Range {
        from,
        to,
        changes,
        prefixes,
        unclean,
        roots,
    } = range;
    let mut paths = unclean.into_vec();
    add_below(store, work, prefixes.as_slice(), &mut paths)?;
    add_below(store, &before, prefixes.as_slice(), &mut paths)?;
    let range = Range {
        from,
        to,
        changes,
        prefixes: Sequence::new(alloc),
        unclean: Sequence::from_vec(paths),
        roots,
    };
    let marked = expand_owned(alloc, store, range, wanted)?;
    let marked = remark(
        alloc,
        marked,
        prefixes.as_slice(),
        &before.over(store),
        &work.over(store),
    )?;
    Ok(marked)
}
