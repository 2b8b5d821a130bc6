//! The dirty paths of a working copy, each with its mark.

ghost use Rattle.std.specs.Prelude.{◌≡◌, ◌++◌, ◌∷◌, [], if◌then◌else◌, is_some, IfOk, OnOk};
ghost use Rattle.eden_globs.specs.Filters.{admits};
ghost use Rattle.eden_ids.specs.FileMaps.{file_at};
ghost use Rattle.eden_objects.specs.Files.{commit_files};
ghost use Rattle.eden_renames.specs.Renames.{at_paths, seen_through};
ghost use Rattle.eden_overlay.specs.Layers.{over};
ghost use Rattle.eden_history.specs.DirtyFiles.{dirty_mark, dirty_marks};

use crate::dirty::dirty_paths;
use crate::flat::{flat_or, flat_over};
use eden_globs::Filter;
use eden_history::{Marked, Touch};
use eden_ids::{FileTree, Id, Naming, NoMemory, Path, has_file};
use eden_objects::Store;
use eden_overlay::Overlay;
use eden_renames::Renames;

/// Returns whether a file is seen at a path of a tree with an overlay over it.
#[tactic(auto, using(eden_overlay::proofs::Overs::file_told, eden_overlay::proofs::Overs::file_below))]
fn is_there<T: FileTree>(root: &T, overlay: &Overlay, path: &[u8]) -> bool
    ensures { result ≡ is_some (file_at (over (T.files root.now) overlay.now) path.now) }
{
    match overlay.get(path) {
        Some(file) => file.is_some(),
        None => has_file(root, path),
    }
}

/// Adds a dirty path with its mark, if a filter admits it.
fn add_marked<T: FileTree>(
    marked: &mut Vec<Marked>,
    root: &T,
    overlay: &Overlay,
    path: Path,
    wanted: &Filter,
) -> Result<(), NoMemory>
    ensures { OnOk result (marked.new.items ≡ marked.old.items
        ++ (if admits wanted.now path then dirty_mark (over (T.files root.now) overlay.now) (T.files root.now) path ∷ [] else [])) }
{
    if !wanted.admits(&path) {
        return Ok(());
    }
    let touch = Touch {
        before: has_file(root, path.as_bytes()),
        after: is_there(root, overlay, path.as_bytes()),
    };
    let mark = touch.mark();
    marked.push(Marked { mark, path })?;
    Ok(())
}

/// Returns the admitted paths at which an overlay shows another file than the tree below it.
fn marked_over<T: FileTree>(
    overlay: &Overlay,
    root: &T,
    wanted: &Filter,
) -> Result<Vec<Marked>, NoMemory>
    ensures { IfOk result (λ marked. marked.items ≡ dirty_marks (over (T.files root.now) overlay.now) (T.files root.now) wanted.now) }
{
    let mut marked = Vec::new(overlay.allocator());
    for path in dirty_paths(overlay, root)? {
        add_marked(&mut marked, root, overlay, path, wanted)?;
    }
    Ok(marked)
}

/// Returns the admitted dirty paths of a commit with changes over it, in byte order.
///
/// The changes are renamed directories and an overlay. A path is dirty if the file seen there is
/// not the commit's, or only one of the two is there; its mark says which. It looks at the touched
/// paths, and at the files that renamed directories have or had. An id that is not that of a commit
/// has no files.
///
/// # Errors
///
/// - `NoMemory` if an allocation fails.
pub fn dirty_marks<N: Naming + Drop>(
    store: &Store<N>,
    root: Id,
    renames: &Renames,
    overlay: &Overlay,
    wanted: &Filter,
) -> Result<Vec<Marked>, NoMemory>
    ensures { IfOk result (λ marked. marked.items
        ≡ dirty_marks (over (at_paths (seen_through (commit_files store.now root) renames.now)) overlay.now) (commit_files store.now root) wanted.now) }
{
    let flat = flat_over(store, root, renames, overlay)?;
    let commit = store.commit_files(root);
    marked_over(flat_or(&flat, overlay), &commit, wanted)
}
