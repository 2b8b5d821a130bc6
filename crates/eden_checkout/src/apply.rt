//! The files that a checkout puts at each path.

ghost use Rattle.std.specs.Prelude.{◌≡◌, ◌≢◌, ℕ, List, if◌then◌else◌, IfOk, OnOk};
ghost use Rattle.std.specs.List.{list_any};
ghost use Rattle.eden_ids.specs.FileMaps.{file_at, lent, listing, put_option, same_path};
ghost use Rattle.eden_workcopy.specs.Meanings.{means};
ghost use Rattle.eden_history.specs.Checkouts.{checked_out, conflicts, rule_of};

use bytes::Bytes;
use eden_history::{Mode, Sides};
use eden_ids::{Content, FileTree, Kind, Naming, NoMemory, Path, is_same_file};
use eden_objects::Store;
use eden_workcopy::WorkCopy;

/// Puts a file at a path, or removes the one there.
#[tactic(auto, using(crate::proofs::Settling::put_same))]
fn put<N: Naming + Drop>(
    store: &Store<N>,
    next: &mut WorkCopy,
    path: &Path,
    file: Option<(Kind, &Bytes)>,
) -> Result<(), NoMemory>
    ensures root { next.new.root ≡ next.old.root }
    ensures renames { next.new.renames ≡ next.old.renames }
    ensures files { OnOk result (means store.now next.new ≡ put_option (means store.now next.old) path.now (lent file.entry)) }
{
    if is_same_file(next.file(store, path.as_bytes()), file) {
        return Ok(());
    }
    let copy = Content::of_lent(file)?;
    let key = path.copy()?;
    next.set(key, copy)
}

/// Puts at some paths the files that a checkout leaves there.
fn apply_rule<N: Naming + Drop, W: FileTree, R: FileTree, T: FileTree, D: FileTree>(
    store: &Store<N>,
    next: &mut WorkCopy,
    sides: &Sides<'_, W, R, T, D>,
    mode: Mode,
    paths: &[Path],
) -> Result<(), NoMemory>
    ensures root { next.new.root ≡ next.old.root }
    ensures renames { next.new.renames ≡ next.old.renames }
    ensures files { OnOk result ((q : List ℕ) → file_at (means store.now next.new) q
        ≡ (if list_any (λ p. same_path q p) paths.now
        then rule_of mode (W.files sides.now.work.now) (R.files sides.now.root.now) (T.files sides.now.target.now) q
        else file_at (means store.now next.old) q)) }
{
    for path in paths {
        put(store, next, path, sides.file_after(mode, path))?;
    }
    Ok(())
}

/// Returns the working copy after a normal or a forced checkout.
///
/// It begins with a working copy that holds the target's files. Only the dirty paths and
/// the conflicts can get something else than the target's files.
pub(crate) fn checked_out<N: Naming + Drop, W: FileTree, R: FileTree, T: FileTree, D: FileTree>(
    store: &Store<N>,
    start: WorkCopy,
    sides: &Sides<'_, W, R, T, D>,
    mode: Mode,
    found: &[Path],
) -> Result<WorkCopy, NoMemory>
    requires mode { mode ≢ Mode.Dry }
    requires start { means store.now start ≡ T.files sides.now.target.now }
    requires found { found.now ≡ listing (conflicts (W.files sides.now.work.now) (R.files sides.now.root.now) (T.files sides.now.target.now)) }
    ensures root { IfOk result (λ next. next.root ≡ start.root) }
    ensures renames { IfOk result (λ next. next.renames ≡ start.renames) }
    ensures files { IfOk result (λ next. means store.now next
        ≡ checked_out mode (W.files sides.now.work.now) (R.files sides.now.root.now) (T.files sides.now.target.now)) }
{
    let mut next = start;
    apply_rule(store, &mut next, sides, mode, sides.changed)?;
    apply_rule(store, &mut next, sides, mode, found)?;
    Ok(next)
}
