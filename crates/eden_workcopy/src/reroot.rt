//! The same files over another commit.

ghost use Rattle.std.specs.Prelude.{◌≡◌, ◌≢◌, ℕ, true, List, None, IfOk, IfErr, OnOk};
ghost use Rattle.std.specs.FinMap as fin;
ghost use Rattle.eden_ids.specs.FileMaps.{FileMap, differ, file_at, has, listing, same_file};
ghost use Rattle.eden_objects.specs.Commits.{commit_map};
ghost use Rattle.eden_objects.specs.Files.{commit_files};
ghost use Rattle.eden_workcopy.specs.internal.Agreements.{IsKept, IsLean, kept_below, kept_each, kept_entry};
ghost use Rattle.eden_overlay.specs.Layers.{over};
ghost use Rattle.eden_workcopy.specs.Meanings.{means, touched_set, FitsIn};

use crate::flat::flat_or;
use crate::work::WorkCopy;
use crate::working::lent;
use eden_ids::{Content, FileTree, Id, Naming, NoMemory, Path, is_same_file};
use eden_objects::{CommitFault, Store};
use eden_overlay::Overlay;
use eden_renames::Renames;
use eden_treediff::diff;

/// Returns whether this file is seen at a path of a tree with an overlay over it.
#[tactic(auto, using(eden_overlay::proofs::Overs::file_told, eden_overlay::proofs::Overs::file_below))]
fn is_seen<B: FileTree>(base: &B, overlay: &Overlay, path: &[u8], file: &Option<Content>) -> bool
    ensures { result ≡ same_file file.now (file_at (over (B.files base.now) overlay.now) path.now) }
{
    match overlay.get(path) {
        Some(told) => is_same_file(lent(file), lent(told)),
        None => is_same_file(lent(file), base.file(path)),
    }
}

/// Adds what is said of a touched path, unless the same file is seen there already.
fn keep_entry<B: FileTree>(
    base: &B,
    next: &mut Overlay,
    entry: &(Path, Option<Content>),
) -> Result<(), NoMemory>
    ensures { OnOk result (next.new ≡ kept_entry (B.files base.now) next.old entry.now.0 entry.now.1) }
{
    if is_seen(base, next, entry.0.as_bytes(), &entry.1) {
        return Ok(());
    }
    let file = Content::copy_of(&entry.1)?;
    let key = entry.0.copy()?;
    next.set(key, file)?;
    Ok(())
}

/// Says of a path what a tree has there, unless the path was touched.
fn keep_below<R: FileTree>(
    root: &R,
    touched: &Overlay,
    next: &mut Overlay,
    path: &Path,
) -> Result<(), NoMemory>
    ensures { OnOk result (next.new ≡ kept_below (R.files root.now) touched.now next.old path.now) }
{
    if touched.get(path.as_bytes()).is_some() {
        return Ok(());
    }
    let file = Content::of_lent(root.file(path.as_bytes()))?;
    let key = path.copy()?;
    next.set(key, file)?;
    Ok(())
}

/// Returns what the same touched paths say over another commit.
fn over_another<B: FileTree>(overlay: &Overlay, base: &B) -> Result<Overlay, NoMemory>
    ensures { IfOk result (λ next. (root : FileMap) → IsKept (over root overlay.now) (B.files base.now) next (fin.keys overlay.now)) }
{
    let mut next = Overlay::new(overlay.allocator());
    for entry in overlay.entries() {
        keep_entry(base, &mut next, entry)?;
    }
    Ok(next)
}

/// Says in another overlay what a tree has at those of some paths that were not touched.
///
/// If these are the paths at which the tree differs from the one below the other overlay, the same
/// files are seen there.
pub(crate) fn keep_listed<R: FileTree>(
    root: &R,
    touched: &Overlay,
    next: &mut Overlay,
    paths: &[Path],
) -> Result<(), NoMemory>
    ensures each { OnOk result (next.new ≡ kept_each (R.files root.now) touched.now next.old paths.now) }
    ensures files { OnOk result ((base : FileMap) → paths.now ≡ listing (differ (R.files root.now) base)
        → IsKept (over (R.files root.now) touched.now) base next.old (fin.keys touched.now) → over base next.new ≡ over (R.files root.now) touched.now) }
    ensures lean { OnOk result ((base : FileMap) → paths.now ≡ listing (differ (R.files root.now) base)
        → IsKept (over (R.files root.now) touched.now) base next.old (fin.keys touched.now) → IsLean (over (R.files root.now) touched.now) base next.new) }
{
    for path in paths {
        keep_below(root, touched, next, path)?;
    }
    Ok(())
}

impl WorkCopy {
    /// Returns a working copy that holds the same files over another commit.
    ///
    /// Its touched paths are among those at which it differs from that commit, and no directory of
    /// it is renamed. `NoCommit` if the id is not that of a commit in the store, and `NoMemory` if
    /// an allocation fails. It looks at the touched paths, at those on which the two commits
    /// differ, and at the files that renamed directories have or had. It copies bytes only if the
    /// new commit has another file.
    pub fn reroot<N: Naming + Drop>(
        &self,
        store: &Store<N>,
        commit: Id,
    ) -> Result<WorkCopy, CommitFault>
        requires { FitsIn store.now self.now }
        ensures root { IfOk result (λ next. next.root ≡ commit) }
        ensures files { IfOk result (λ next. means store.now next ≡ means store.now self.now) }
        ensures fits { IfOk result (λ next. FitsIn store.now next) }
        ensures lean { IfOk result (λ next. (p : List ℕ) → has (touched_set next) p ≡ true
            → has (differ (means store.now next) (commit_files store.now commit)) p ≡ true) }
        ensures refuses { IfErr result (λ fault. fault ≢ CommitFault.NoMemory → commit_map store.now commit ≡ None) }
    {
        let alloc = self.overlay.allocator();
        let paths = diff(alloc, store, self.root, commit)?;
        store.closed_law();
        let flat = self.flat(store)?;
        let touched = flat_or(&flat, &self.overlay);
        let base = store.commit_files(commit);
        let mut overlay = over_another(touched, &base)?;
        keep_listed(
            &store.commit_files(self.root),
            touched,
            &mut overlay,
            &paths,
        )?;
        Ok(WorkCopy {
            root: commit,
            renames: Renames::new(alloc),
            overlay,
        })
    }
}
