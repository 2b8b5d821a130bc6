//! The paths that a range names, each with its mark.

ghost use Rattle.std.specs.Prelude.{◌≡◌, ◌≢◌, ◌||◌, ◌++◌, ◌∷◌, [], true, false, map, IfOk, IfErr, OnOk};
ghost use Rattle.eden_ids.specs.FileMaps.{path_set, union};
ghost use Rattle.eden_ids.specs.Sameness.{same_id};
ghost use Rattle.eden_objects.specs.Commits.{commit_map};
ghost use Rattle.eden_history.specs.Named.{commits_differ};
ghost use Rattle.eden_history.specs.Marks.{admitted, mark_said};
ghost use Rattle.eden_history.specs.Said.{by_root, by_touch};
ghost use Rattle.eden_ranges.specs.Expanded.{are_comparable, differing, expanded, is_comparable};
ghost use Rattle.eden_ranges.specs.internal.Mentions.{Ascend};
ghost use Rattle.eden_ranges.specs.internal.Pairs.{AreCovered, has_pair};
ghost use Rattle.eden_ranges.specs.internal.Wanted.{only};

use crate::mentions::Mentions;
use crate::ranges::Range;
use eden_globs::Filter;
use eden_history::{Marked, Touch};
use eden_ids::{Id, IdColumn, Naming, NoMemory, Path};
use eden_journal::FileTouch;
use eden_objects::{CommitFault, Store};
use eden_treediff::diff_admitted;
use indexmap::IndexSet;
use std::alloc::Global;

/// Puts paths in byte order, each once.
fn put_in_order(paths: &mut Vec<Path>) -> Result<(), NoMemory>
    ensures same { OnOk result (path_set paths.new.items ≡ path_set paths.old.items) }
    ensures ascend { OnOk result (Ascend (map by_root paths.new.items)) }
{
    if paths.as_slice().is_sorted_by(|left, right| left < right) {
        return Ok(());
    }
    paths.sort()?;
    paths.dedup();
    Ok(())
}

/// Makes room for more paths.
///
/// If it has to grow, duplicate paths are removed first. So the room is at most a few
/// times the number of different paths, no matter how many roots name them.
fn make_room(paths: &mut Vec<Path>, more: usize) -> Result<(), NoMemory>
    ensures { OnOk result (path_set paths.new.items ≡ path_set paths.old.items) }
{
    if more <= paths.capacity().saturating_sub(paths.len()) {
        return Ok(());
    }
    put_in_order(paths)?;
    Ok(paths.reserve(more.max(paths.len()))?)
}

/// Notes a pair of roots, and returns true if it is new.
///
/// The order of the two does not matter.
fn note_pair(pairs: &mut IndexSet<(Id, Id)>, left: Id, reached: Id) -> Result<bool, NoMemory>
    ensures again { IfOk result (λ first. first ≡ false → ((has_pair pairs.old.keys left reached || has_pair pairs.old.keys reached left) ≡ true) × (pairs.new.keys ≡ pairs.old.keys)) }
    ensures first { IfOk result (λ first. first ≡ true → pairs.new.keys ≡ pairs.old.keys ++ (left, reached) ∷ []) }
{
    if pairs.contains(&(reached, left)) {
        return Ok(false);
    }
    Ok(pairs.insert((left, reached))?)
}

/// Adds the admitted paths at which two roots differ.
fn add_differing<N: Naming + Drop>(
    alloc: Global,
    store: &Store<N>,
    paths: &mut Vec<Path>,
    left: Id,
    reached: Id,
    wanted: &Filter,
) -> Result<(), CommitFault>
    requires { same_id left reached ≡ false }
    ensures paths { OnOk result (path_set paths.new.items ≡ union (only wanted.now (commits_differ (commit_map store.now) left reached)) (path_set paths.old.items)) }
    ensures compared { OnOk result (is_comparable (commit_map store.now) left reached ≡ true) }
    ensures fault { IfErr result (λ fault. fault ≢ CommitFault.NoMemory → is_comparable (commit_map store.now) left reached ≡ false) }
{
    let mut more = diff_admitted(alloc, store, left, reached, wanted)?;
    make_room(paths, more.len())?;
    Ok(paths.append(&mut more)?)
}

/// Adds the admitted paths at which two roots differ.
///
/// Equal roots are not looked up, and a pair that was compared before, in either order,
/// is not compared again.
fn add_once<N: Naming + Drop>(
    alloc: Global,
    store: &Store<N>,
    paths: &mut Vec<Path>,
    compared: &mut IndexSet<(Id, Id)>,
    left: Id,
    reached: Id,
    wanted: &Filter,
) -> Result<(), CommitFault>
    ensures covered { AreCovered wanted.now (commit_map store.now) compared.old.keys (path_set paths.old.items)
        → OnOk result (AreCovered wanted.now (commit_map store.now) compared.new.keys (path_set paths.new.items)) }
    ensures paths { AreCovered wanted.now (commit_map store.now) compared.old.keys (path_set paths.old.items)
        → OnOk result (path_set paths.new.items ≡ union (only wanted.now (commits_differ (commit_map store.now) left reached)) (path_set paths.old.items)) }
    ensures compared { AreCovered wanted.now (commit_map store.now) compared.old.keys (path_set paths.old.items)
        → OnOk result (is_comparable (commit_map store.now) left reached ≡ true) }
    ensures fault { IfErr result (λ fault. fault ≢ CommitFault.NoMemory → is_comparable (commit_map store.now) left reached ≡ false) }
{
    if left == reached {
        return Ok(());
    }
    if !note_pair(compared, left, reached)? {
        return Ok(());
    }
    add_differing(alloc, store, paths, left, reached, wanted)
}

/// Returns the admitted paths at which neighbouring roots differ.
///
/// They ascend, each once. Each pair is compared once, no matter how often the two are
/// neighbours.
pub(crate) fn differing_paths<N: Naming + Drop>(
    alloc: Global,
    store: &Store<N>,
    roots: &IdColumn,
    wanted: &Filter,
) -> Result<Vec<Path>, CommitFault>
    ensures paths { IfOk result (λ paths. path_set paths.items ≡ only wanted.now (differing (commit_map store.now) roots.now)) }
    ensures ascend { IfOk result (λ paths. Ascend (map by_root paths.items)) }
    ensures compared { OnOk result (are_comparable (commit_map store.now) roots.now ≡ true) }
    ensures fault { IfErr result (λ fault. fault ≢ CommitFault.NoMemory → are_comparable (commit_map store.now) roots.now ≡ false) }
{
    let mut paths = Vec::new(alloc);
    let mut pairs = IndexSet::new(alloc);
    let mut place = roots.len();
    if place == 0 {
        return Ok(paths);
    }
    place -= 1;
    while place > 0 {
        place -= 1;
        let Some(left) = roots.get(place) else {
            break;
        };
        let Some(reached) = roots.get(place + 1) else {
            break;
        };
        add_once(alloc, store, &mut paths, &mut pairs, left, reached, wanted)?;
    }
    put_in_order(&mut paths)?;
    Ok(paths)
}

/// Returns the admitted paths of a range, with their marks.
///
/// They are in byte order. A range names the paths at which files changed, the unclean
/// ones, and those at which neighbouring roots differ. Equal neighbours are not looked
/// up. Each pair of roots is compared once, no matter how often the range passes between
/// them. No directory is read below which the filter admits nothing
/// (`Filter::admits_below`), and no path is made that it does not admit.
///
/// # Errors
///
/// - `NoCommit` if two neighbouring roots are different and one of them is not a commit
///   of the store.
/// - `NoMemory` if an allocation fails; it may be returned instead of any other answer.
pub fn expand_admitted<N: Naming + Drop>(
    alloc: Global,
    store: &Store<N>,
    range: &Range,
    wanted: &Filter,
) -> Result<Vec<Marked>, CommitFault>
    ensures marked { IfOk result (λ marked. marked.items ≡ admitted wanted.now (expanded store.now range.now)) }
    ensures compared { OnOk result (are_comparable (commit_map store.now) range.now.roots ≡ true) }
    ensures fault { IfErr result (λ fault. fault ≢ CommitFault.NoMemory → are_comparable (commit_map store.now) range.now.roots ≡ false) }
{
    let differing = differing_paths(alloc, store, &range.roots, wanted)?;
    let mut mentions = Mentions::new(alloc);
    mentions.add_wanted_touches(range.changes.as_slice(), wanted)?;
    mentions.add_wanted_roots(range.unclean.as_slice(), wanted)?;
    Ok(mentions.into_marked(alloc, differing)?)
}

/// Returns a change of a file as a marked path.
fn marked_touch(touch: FileTouch) -> Marked
    ensures { result ≡ mark_said (by_touch touch) }
{
    let FileTouch {
        path,
        before,
        after,
    } = touch;
    Marked {
        mark: Touch { before, after }.mark(),
        path,
    }
}

/// Returns true only if the paths ascend, each once.
fn ascend(touches: &[FileTouch]) -> bool
    ensures { result ≡ true → Ascend (map by_touch touches.now) }
{
    touches.is_sorted_by(|left, right| left.path < right.path)
}

/// Returns the marked path of each change whose path the filter admits.
///
/// The paths are moved, not copied.
fn mark_each(
    alloc: Global,
    touches: Vec<FileTouch>,
    wanted: &Filter,
) -> Result<Vec<Marked>, NoMemory>
    ensures { IfOk result (λ marked. marked.items ≡ admitted wanted.now (map mark_said (map by_touch touches.items))) }
{
    let mut marked = Vec::with_capacity(alloc, touches.len())?;
    for touch in touches {
        if wanted.admits(&touch.path) {
            marked.push(marked_touch(touch))?;
        }
    }
    Ok(marked)
}

/// Does what `expand_admitted` does, for a range that is no longer needed.
///
/// If the range has changes of files alone, in the order of their paths, the paths are
/// moved and none is copied.
///
/// # Errors
///
/// As of `expand_admitted`.
pub fn expand_owned<N: Naming + Drop>(
    alloc: Global,
    store: &Store<N>,
    range: Range,
    wanted: &Filter,
) -> Result<Vec<Marked>, CommitFault>
    ensures marked { IfOk result (λ marked. marked.items ≡ admitted wanted.now (expanded store.now range)) }
    ensures compared { OnOk result (are_comparable (commit_map store.now) range.roots ≡ true) }
    ensures fault { IfErr result (λ fault. fault ≢ CommitFault.NoMemory → are_comparable (commit_map store.now) range.roots ≡ false) }
{
    if range.unclean.is_empty() && range.roots.len() <= 1 && ascend(range.changes.as_slice()) {
        return Ok(mark_each(alloc, range.changes.into_vec(), wanted)?);
    }
    expand_admitted(alloc, store, &range, wanted)
}

/// Returns the paths of a range, with their marks, in byte order.
///
/// They are the paths at which files changed, the unclean ones, and those at which
/// neighbouring roots differ. Equal neighbours are not looked up, and each pair of roots
/// is compared once, no matter how often the range passes between them.
///
/// # Errors
///
/// - `NoCommit` if two neighbouring roots are different and one of them is not a commit
///   of the store.
/// - `NoMemory` if an allocation fails; it may be returned instead of any other answer.
pub fn expand<N: Naming + Drop>(
    alloc: Global,
    store: &Store<N>,
    range: &Range,
) -> Result<Vec<Marked>, CommitFault>
    ensures marked { IfOk result (λ marked. marked.items ≡ expanded store.now range.now) }
    ensures compared { OnOk result (are_comparable (commit_map store.now) range.now.roots ≡ true) }
    ensures fault { IfErr result (λ fault. fault ≢ CommitFault.NoMemory → are_comparable (commit_map store.now) range.now.roots ≡ false) }
{
    let all = Filter::all(alloc);
    expand_admitted(alloc, store, range, &all)
}
