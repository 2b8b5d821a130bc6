//! The paths at which two commits differ.

ghost use Rattle.std.specs.Prelude.{◌≡◌, ◌≢◌, Some, None, IfOk, IfErr};
ghost use Rattle.eden_objects.specs.Commits.{commit_map, commit_rows};
ghost use Rattle.eden_objects.specs.Objects.{find};
ghost use Rattle.eden_treediff.specs.Merges.{admitted, admitted_differences, differences, merge_rows};
ghost use Rattle.eden_treediff.specs.internal.Walks.{IsSide, IsSideOf, side_rows};

use crate::difference::{Found, walk};
use crate::known_pairs::KnownPairs;
use eden_globs::{Filter, Front};
use eden_ids::{Id, Naming, NoMemory, Path};
use eden_objects::{CommitFault, NoCommit, Store};
use std::alloc::Global;

/// Returns the tree of a commit, or `None` for the empty commit.
#[tactic(auto, using(crate::proofs::Sides::empty_side, crate::proofs::Sides::side_rows_are, eden_objects::proofs::TreeOf::seen_tree, crate::proofs::Sides::no_side))]
fn side_of<N: Naming + Drop>(store: &Store<N>, commit: Id) -> Result<Option<Id>, NoCommit>
    ensures { IsSideOf store.now commit result }
{
    store.closed_law();
    if commit == Id::ZERO {
        return Ok(None);
    }
    match store.tree_of(commit) {
        Some(tree) => Ok(Some(tree)),
        None => Err(NoCommit),
    }
}

/// Returns the admitted paths at which two trees differ.
fn paths_between<N: Naming + Drop>(
    alloc: Global,
    store: &Store<N>,
    first: Option<Id>,
    second: Option<Id>,
    filter: &Filter,
) -> Result<Vec<Path>, NoMemory>
    requires first { IsSide store.now first }
    requires second { IsSide store.now second }
    ensures { IfOk result (λ paths. paths.items ≡ admitted filter.now (merge_rows (side_rows store.now first) (side_rows store.now second))) }
{
    store.closed_law();
    let mut found = Found {
        front: Front::new(alloc),
        paths: Vec::new(alloc),
    };
    let mut settled = KnownPairs::new(alloc);
    walk(
        alloc,
        store,
        first,
        second,
        filter,
        &mut found,
        &mut settled,
    )?;
    Ok(found.paths)
}

/// Returns the admitted paths at which two commits differ.
///
/// They are in byte order. The commits differ at a path if one of them alone has a file
/// there, or if their files have different bytes or kinds. Directories with the same id
/// on both sides are not read, nor are those below which the filter admits nothing
/// (`Filter::admits_below`). No path is made that the filter does not admit. Trees with
/// different ids that hold the same files contribute no path. A pair of trees that was
/// read whole without finding a path is not read again.
///
/// # Errors
///
/// - `NoCommit` if one of the ids is not that of a commit.
/// - `NoMemory` if an allocation fails; it may be returned instead of any other answer.
#[tactic(auto, using(crate::proofs::Sides::no_first, crate::proofs::Sides::no_second))]
pub fn diff_admitted<N: Naming + Drop>(
    alloc: Global,
    store: &Store<N>,
    first: Id,
    second: Id,
    filter: &Filter,
) -> Result<Vec<Path>, CommitFault>
    ensures paths { IfOk result (λ paths. admitted_differences filter.now (commit_map store.now first) (commit_map store.now second) ≡ Some paths.items) }
    ensures fault { IfErr result (λ fault. fault ≢ CommitFault.NoMemory → differences (commit_map store.now first) (commit_map store.now second) ≡ None) }
{
    store.closed_law();
    let tree = side_of(store, first)?;
    let other = side_of(store, second)?;
    Ok(paths_between(alloc, store, tree, other, filter)?)
}

/// Returns the paths at which two commits differ, in byte order.
///
/// They differ at a path if one of them alone has a file there, or if their files have
/// different bytes or kinds. Directories with the same id on both sides are not read.
/// Trees with different ids that hold the same files contribute no path, and no pair of
/// trees is read twice without finding a path.
///
/// # Errors
///
/// - `NoCommit` if one of the ids is not that of a commit.
/// - `NoMemory` if an allocation fails; it may be returned instead of any other answer.
pub fn diff<N: Naming + Drop>(
    alloc: Global,
    store: &Store<N>,
    first: Id,
    second: Id,
) -> Result<Vec<Path>, CommitFault>
    ensures paths { IfOk result (λ paths. differences (commit_map store.now first) (commit_map store.now second) ≡ Some paths.items) }
    ensures fault { IfErr result (λ fault. fault ≢ CommitFault.NoMemory → differences (commit_map store.now first) (commit_map store.now second) ≡ None) }
{
    let all = Filter::all(alloc);
    diff_admitted(alloc, store, first, second, &all)
}
