//! The plan of a checkout.

ghost use Rattle.std.specs.Prelude.{◌≡◌, ◌≢◌, [], None, IsSome, if◌then◌else◌, IfOk, IfErr};
ghost use Rattle.eden_ids.specs.FileMaps.{IsFileMap, differ, listing, path_set, paths, union};
ghost use Rattle.eden_ids.specs.Texts.{AreTexts};
ghost use Rattle.eden_objects.specs.Commits.{commit_map};
ghost use Rattle.eden_objects.specs.Files.{commit_files};
ghost use Rattle.eden_workcopy.specs.Meanings.{FitsIn, means};
ghost use Rattle.eden_history.specs.Checkouts.{checked_out, conflicts, is_conflict, is_dry, unclean};
ghost use Rattle.eden_checkout.specs.Plans.{root_files};

use crate::apply::checked_out;
use eden_history::{Dirty, Mode, Sides};
use eden_ids::{FileTree, Id, Naming, NoMemory, Path, PathTable, Sequence, has_file, push_where};
use eden_objects::{CommitFault, Store};
use eden_treediff::diff;
use eden_workcopy::WorkCopy;
use std::alloc::Global;

/// The result of a checkout, and the paths that it concerns.
#[derive(Drop)]
pub struct Planned {
    /// The working copy after the checkout.
    pub next: WorkCopy,
    /// The unclean paths, in byte order.
    ///
    /// They differed from the old commit before the checkout or differ from the new one
    /// after it.
    pub unclean: Sequence<Path>,
    /// The conflicts of the checkout, in byte order.
    pub conflicts: Sequence<Path>,
}

/// Returns the paths at which two commits differ, in byte order.
fn paths_between<N: Naming + Drop>(
    alloc: Global,
    store: &Store<N>,
    root: Id,
    target: Id,
) -> Result<Vec<Path>, NoMemory>
    requires root { IsSome (commit_map store.now root) }
    requires target { IsSome (commit_map store.now target) }
    ensures { IfOk result (λ paths. paths.items ≡ listing (differ (commit_files store.now root) (commit_files store.now target))) }
{
    match diff(alloc, store, root, target) {
        Ok(paths) => Ok(paths),
        // Both are commits.
        Err(CommitFault::NoCommit) => unreachable!(),
        Err(CommitFault::NoMemory) => Err(NoMemory),
    }
}

/// Returns the working copy with which a checkout begins.
///
/// It holds the commit's files or, if the checkout is only tried, is equal to the given
/// one.
#[tactic(auto, using(crate::proofs::Planning::root_moved))]
fn start_of<N: Naming + Drop>(
    alloc: Global,
    store: &Store<N>,
    work: &WorkCopy,
    commit: Id,
    mode: Mode,
) -> Result<WorkCopy, CommitFault>
    requires { FitsIn store.now work.now }
    ensures accepts { IfOk result (λ _. IsSome (commit_map store.now commit)) }
    ensures root { IfOk result (λ start. start.root ≡ (if is_dry mode then work.now.root else commit)) }
    ensures moved { IfOk result (λ start. mode ≢ Mode.Dry → means store.now start ≡ commit_files store.now commit) }
    ensures dry { IfOk result (λ start. mode ≡ Mode.Dry → start ≡ work.now) }
    ensures fits { IfOk result (λ start. FitsIn store.now start) }
    ensures refuses { IfErr result (λ fault. fault ≢ CommitFault.NoMemory → commit_map store.now commit ≡ None) }
{
    let start = WorkCopy::new(alloc, store, commit)?;
    match mode {
        Mode::Dry => {
            let same = work.copy()?;
            Ok(same)
        }
        _ => Ok(start),
    }
}

/// The working copy after a checkout, and the conflicts.
#[derive(Drop)]
struct Decided {
    next: WorkCopy,
    conflicts: Vec<Path>,
}

/// Decides what happens to each path of a working copy.
///
/// Each path at which the commits differ is searched for among the dirty ones. The trees
/// are asked only for a path that is dirty or clashes with a dirty one.
#[tactic(auto, using(crate::proofs::Planning::conflicts_listed))]
fn decide<N: Naming + Drop, W: FileTree, R: FileTree, T: FileTree, D: FileTree>(
    store: &Store<N>,
    start: WorkCopy,
    mode: Mode,
    sides: &Sides<'_, W, R, T, D>,
    differing: &[Path],
) -> Result<Decided, NoMemory>
    requires files { IsFileMap (W.files sides.now.work.now) }
    requires texts { AreTexts (W.files sides.now.work.now) }
    requires differing { differing.now ≡ listing (differ (R.files sides.now.root.now) (T.files sides.now.target.now)) }
    requires start { mode ≢ Mode.Dry → means store.now start ≡ T.files sides.now.target.now }
    requires fits { FitsIn store.now start }
    ensures root { IfOk result (λ decided. decided.next.root ≡ start.root) }
    ensures files { IfOk result (λ decided. mode ≢ Mode.Dry → means store.now decided.next
        ≡ checked_out mode (W.files sides.now.work.now) (R.files sides.now.root.now) (T.files sides.now.target.now)) }
    ensures dry { IfOk result (λ decided. mode ≡ Mode.Dry → decided.next ≡ start) }
    ensures fits { IfOk result (λ decided. FitsIn store.now decided.next) }
    ensures conflicts { IfOk result (λ decided. decided.conflicts.items
        ≡ listing (conflicts (W.files sides.now.work.now) (R.files sides.now.root.now) (T.files sides.now.target.now))) }
{
    let mut conflicts = Vec::new(store.allocator());
    push_where(&mut conflicts, differing, |path| sides.is_conflict(path))?;
    match mode {
        Mode::Dry => Ok(Decided {
            next: start,
            conflicts,
        }),
        _ => {
            let next = checked_out(store, start, sides, mode, &conflicts)?;
            Ok(Decided { next, conflicts })
        }
    }
}

/// Returns the unclean paths, in byte order.
///
/// `next` is the working copy after the checkout.
fn unclean_paths<N: Naming + Drop>(
    alloc: Global,
    store: &Store<N>,
    changed: &[Path],
    next: &WorkCopy,
    mode: Mode,
) -> Result<Vec<Path>, NoMemory>
    requires fits { FitsIn store.now next.now }
    ensures { IfOk result (λ paths. paths.items ≡ (if is_dry mode then [] else
        listing (union (path_set changed.now) (differ (means store.now next.now) (root_files store.now next.now))))) }
{
    match mode {
        Mode::Dry => Ok(Vec::new(alloc)),
        _ => {
            let mut table = PathTable::new(alloc);
            table.add_all(&next.dirty(store)?)?;
            table.add_all(changed)?;
            let unclean = table.list(alloc)?;
            Ok(unclean)
        }
    }
}

/// Returns what a checkout would do to a working copy.
///
/// A path is clean if the working copy holds what its root's commit does, and else dirty.
/// In every mode there are two kinds of conflict:
///
/// - a dirty path at which the commit's file differs from both the root's and the working
///   copy's;
/// - a clean path of the commit that clashes with a dirty path that has a file.
///
/// In `Normal` a dirty path stays, a conflicting clean path has no file, and any other
/// clean path gets the commit's file. In `Force` a path of the root or of the commit gets
/// the commit's file. Any other stays unless it clashes with a path of the commit. In
/// `Dry` the next working copy is equal to this one, and no path is unclean.
///
/// The store must have the working copy's root, and there root and changes must make a
/// file map. The time grows with the paths that were changed and those at which the two
/// commits differ, not with the size of the commits.
///
/// # Errors
///
/// - `NoCommit` if the id is not that of a commit.
/// - `NoMemory` if an allocation fails; it may be returned instead of any other answer.
#[tactic(auto, using(eden_history::proofs::DirtyFiles::dirty_listed, crate::proofs::Planning::root_moved))]
pub fn plan<N: Naming + Drop>(
    alloc: Global,
    store: &Store<N>,
    work: &WorkCopy,
    commit: Id,
    mode: Mode,
) -> Result<Planned, CommitFault>
    requires { FitsIn store.now work.now }
    ensures accepts { IfOk result (λ _. IsSome (commit_map store.now commit)) }
    ensures root { IfOk result (λ planned. planned.next.root ≡ (if is_dry mode then work.now.root else commit)) }
    ensures files { IfOk result (λ planned. means store.now planned.next
        ≡ checked_out mode (means store.now work.now) (root_files store.now work.now) (commit_files store.now commit)) }
    ensures fits { IfOk result (λ planned. FitsIn store.now planned.next) }
    ensures dry { IfOk result (λ planned. mode ≡ Mode.Dry → planned.next ≡ work.now) }
    ensures unclean { IfOk result (λ planned. planned.unclean
        ≡ (if is_dry mode then [] else
        listing (unclean (means store.now work.now) (root_files store.now work.now) (means store.now planned.next) (commit_files store.now commit)))) }
    ensures conflicts { IfOk result (λ planned. planned.conflicts
        ≡ listing (conflicts (means store.now work.now) (root_files store.now work.now) (commit_files store.now commit))) }
    ensures refuses { IfErr result (λ fault. fault ≢ CommitFault.NoMemory → commit_map store.now commit ≡ None) }
{
    let start = start_of(alloc, store, work, commit, mode)?;
    let changed = work.dirty(store)?;
    let differing = paths_between(alloc, store, work.root(), commit)?;
    let files = work.over(store);
    let root = store.commit_files(work.root());
    let target = store.commit_files(commit);
    let mut listed = Vec::new(alloc);
    push_where(&mut listed, &changed, |path| {
        has_file(&files, path.as_bytes())
    })?;
    let dirty = Dirty {
        work: &files,
        root: &root,
        listed: &listed,
    };
    let sides = Sides {
        work: &files,
        root: &root,
        target: &target,
        dirty: &dirty,
        changed: &changed,
    };
    let decided = decide(store, start, mode, &sides, &differing)?;
    let unclean = unclean_paths(alloc, store, &changed, &decided.next, mode)?;
    Ok(Planned {
        next: decided.next,
        unclean: Sequence::from_vec(unclean),
        conflicts: Sequence::from_vec(decided.conflicts),
    })
}
