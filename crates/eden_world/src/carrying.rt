//! The rename of a directory over a whole file map: why it is refused, and the files
//! after it.

ghost use Rattle.std.specs.Prelude.{◌≡◌, None, IfOk, OnOk, false, true};
ghost use Rattle.eden_ids.specs.Paths.{IsPath, lies_below};
ghost use Rattle.eden_ids.specs.FileMaps.{file_at};
ghost use Rattle.eden_overlay.specs.Carried.{carried, carried_files};
ghost use Rattle.eden_history.specs.DirRenames.{breaks_a_path, dir_renamed, rename_dir_fault, target_fault};
ghost use Rattle.eden_world.specs.internal.Carrying.{breaks, carried_onto};

use eden_history::{ChangeFault, free_fault, source_fault};
use eden_ids::{Files, NoMemory, Path};
use std::alloc::Global;

// ---- why it is refused

/// Returns a path's bytes as they are below another directory.
fn carried_bytes(alloc: Global, path: &Path, old: &Path, new: &Path) -> Result<Vec<u8>, NoMemory>
    requires { lies_below path.now old.now ≡ true }
    ensures { IfOk result (λ bytes. bytes.items ≡ carried old.now new.now path.now) }
{
    let mut bytes = new.as_bytes().to_vec(alloc)?;
    bytes.extend_from_slice(&path.as_bytes()[old.as_bytes().len()..])?;
    Ok(bytes)
}

/// Returns true if a path moves and would then be invalid.
fn breaks(alloc: Global, path: &Path, old: &Path, new: &Path) -> Result<bool, NoMemory>
    ensures { IfOk result (λ broken. broken ≡ breaks old.now new.now path.now) }
{
    if !path.is_below(old) {
        return Ok(false);
    }
    match Path::from_vec(carried_bytes(alloc, path, old, new)?) {
        Ok(_) => Ok(false),
        Err(_) => Ok(true),
    }
}

/// Returns true if a file would get an invalid path.
fn breaks_a_path(alloc: Global, files: &Files, old: &Path, new: &Path) -> Result<bool, NoMemory>
    ensures { IfOk result (λ broken. broken ≡ breaks_a_path files.now old.now new.now) }
{
    for path in files.paths() {
        if breaks(alloc, path, old, new)? {
            return Ok(true);
        }
    }
    Ok(false)
}

/// Returns why the directory cannot be put at the new path.
fn target_fault(
    alloc: Global,
    files: &Files,
    old: &Path,
    new: &Path,
) -> Result<Option<ChangeFault>, NoMemory>
    ensures { IfOk result (λ fault. fault ≡ target_fault files.now old.now new.now) }
{
    if new.is_below(old) {
        return Ok(Some(ChangeFault::IntoItself));
    }
    if let Some(fault) = free_fault(files, new) {
        return Ok(Some(fault));
    }
    if breaks_a_path(alloc, files, old, new)? {
        return Ok(Some(ChangeFault::PathTooLong));
    }
    Ok(None)
}

/// Returns why a directory cannot be renamed.
///
/// The old path is checked first; if the two paths are equal, nothing else is.
pub(crate) fn rename_dir_fault(
    alloc: Global,
    files: &Files,
    old: &Path,
    new: &Path,
) -> Result<Option<ChangeFault>, NoMemory>
    ensures { IfOk result (λ fault. fault ≡ rename_dir_fault files.now old.now new.now) }
{
    if let Some(fault) = source_fault(files, old) {
        return Ok(Some(fault));
    }
    if old == new {
        return Ok(None);
    }
    target_fault(alloc, files, old, new)
}

// ---- the files after it

/// Returns a path's place below the new path.
///
/// It is the same as the path has below the old one. It must be a valid path.
fn carried_path(alloc: Global, path: &Path, old: &Path, new: &Path) -> Result<Path, NoMemory>
    requires below { lies_below path.now old.now ≡ true }
    requires whole { IsPath (carried old.now new.now path.now) }
    ensures { IfOk result (λ place. place ≡ carried old.now new.now path.now) }
{
    Path::joined(
        alloc,
        new.as_bytes(),
        &path.as_bytes()[old.as_bytes().len()..],
    )
}

/// Puts an old path's file at its path after the rename.
///
/// Files that were below the new path are left out.
fn carry(
    alloc: Global,
    next: &mut Files,
    files: &Files,
    path: &Path,
    old: &Path,
    new: &Path,
) -> Result<(), NoMemory>
    requires { breaks old.now new.now path.now ≡ false }
    ensures { OnOk result (next.new ≡ carried_onto next.old old.now new.now path.now (file_at files.now path.now)) }
{
    let content = match files.get(path) {
        Some(content) => content.copy()?,
        None => return Ok(()),
    };
    if path.is_below(old) {
        let place = carried_path(alloc, path, old, new)?;
        return next.insert(place, content);
    }
    if path.is_below(new) {
        return Ok(());
    }
    next.insert(path.copy()?, content)
}

/// Returns the files after the rename of a directory to another path.
///
/// Each file must get a valid path.
fn carried_files(alloc: Global, files: &Files, old: &Path, new: &Path) -> Result<Files, NoMemory>
    requires { breaks_a_path files.now old.now new.now ≡ false }
    ensures { IfOk result (λ next. next ≡ carried_files files.now old.now new.now) }
{
    let mut next = Files::new(alloc);
    for path in files.paths() {
        carry(alloc, &mut next, files, path, old, new)?;
    }
    Ok(next)
}

/// Renames a directory. Nothing may refuse it.
pub(crate) fn move_directory(
    alloc: Global,
    files: &mut Files,
    old: &Path,
    new: &Path,
) -> Result<(), NoMemory>
    requires { rename_dir_fault files.old old.now new.now ≡ None }
    ensures { OnOk result (files.new ≡ dir_renamed files.old old.now new.now) }
{
    if old == new {
        return Ok(());
    }
    *files = carried_files(alloc, files, old, new)?;
    Ok(())
}
