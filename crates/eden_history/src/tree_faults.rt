//! Why a change of a file or a directory is refused, in any tree of files.

ghost use Rattle.std.specs.Prelude.{◌≡◌, None, Some, if◌then◌else◌, nat_lt, is_some, length};
ghost use Rattle.eden_ids.specs.FileMaps.{file_at};
ghost use Rattle.eden_ids.specs.Sameness.{same_bytes};
ghost use Rattle.eden_history.specs.Renames.{place_fault, absent_fault, write_fault, rename_fault};
ghost use Rattle.eden_history.specs.DirRenames.{free_fault, has_file_upward, source_fault};

use crate::change::ChangeFault;
use eden_ids::{Content, FileTree, Path, has_file, has_file_above};

/// Returns why there can be no file at a path, if so.
///
/// There is a file above it, or there are files below it. Does not allocate.
pub fn place_fault<T: FileTree>(files: &T, path: &Path) -> Option<ChangeFault>
    ensures { result ≡ place_fault (T.files files.now) path.now }
{
    if has_file_above(files, path.as_bytes()) {
        Some(ChangeFault::NotADirectory)
    } else if files.has_file_below(path) {
        Some(ChangeFault::IsADirectory)
    } else {
        None
    }
}

/// Returns `NoEntry` if there is no file at a path.
fn missing_fault<T: FileTree>(files: &T, path: &Path) -> Option<ChangeFault>
    ensures { result ≡ (if is_some (file_at (T.files files.now) path.now) then None else Some ChangeFault.NoEntry) }
{
    if has_file(files, path.as_bytes()) {
        None
    } else {
        Some(ChangeFault::NoEntry)
    }
}

/// Returns why no file can be read, removed or renamed. Does not allocate.
pub fn absent_fault<T: FileTree>(files: &T, path: &Path) -> Option<ChangeFault>
    ensures { result ≡ absent_fault (T.files files.now) path.now }
{
    match place_fault(files, path) {
        Some(fault) => Some(fault),
        None => missing_fault(files, path),
    }
}

/// Returns `TooLarge` if a file cannot hold these bytes.
fn size_fault(bytes: &[u8]) -> Option<ChangeFault>
    ensures { result ≡ (if nat_lt 8388608 (length bytes.now) then Some ChangeFault.TooLarge else None) }
{
    if bytes.len() > Content::LIMIT {
        Some(ChangeFault::TooLarge)
    } else {
        None
    }
}

/// Returns why bytes cannot be written at a path. Does not allocate.
pub fn write_fault<T: FileTree>(files: &T, path: &Path, bytes: &[u8]) -> Option<ChangeFault>
    ensures { result ≡ write_fault (T.files files.now) path.now bytes.now }
{
    match place_fault(files, path) {
        Some(fault) => Some(fault),
        None => size_fault(bytes),
    }
}

/// Returns why no file can be put at a rename's new path.
fn target_fault<T: FileTree>(files: &T, old: &Path, new: &Path) -> Option<ChangeFault>
    ensures { result ≡ (if same_bytes old.now new.now then None else place_fault (T.files files.now) new.now) }
{
    if old == new {
        None
    } else {
        place_fault(files, new)
    }
}

/// Returns why a file cannot be renamed. Does not allocate.
///
/// The old path is checked first. The new one is not checked if it is equal to it.
pub fn rename_fault<T: FileTree>(files: &T, old: &Path, new: &Path) -> Option<ChangeFault>
    ensures { result ≡ rename_fault (T.files files.now) old.now new.now }
{
    match absent_fault(files, old) {
        Some(fault) => Some(fault),
        None => target_fault(files, old, new),
    }
}

/// Returns true if a file is at a path or above it.
fn has_file_upward<T: FileTree>(files: &T, path: &Path) -> bool
    ensures { result ≡ has_file_upward (T.files files.now) path.now }
{
    has_file(files, path.as_bytes()) || has_file_above(files, path.as_bytes())
}

/// Returns why a path is not a directory that can be moved. Does not allocate.
///
/// There is a file at it or above it, or there is none below it.
pub fn source_fault<T: FileTree>(files: &T, old: &Path) -> Option<ChangeFault>
    ensures { result ≡ source_fault (T.files files.now) old.now }
{
    if has_file_upward(files, old) {
        Some(ChangeFault::NotADirectory)
    } else if files.has_file_below(old) {
        None
    } else {
        Some(ChangeFault::NoEntry)
    }
}

/// Returns why a directory's files cannot be moved below a path. Does not allocate.
///
/// There is a file at it or above it, or there are files below it.
pub fn free_fault<T: FileTree>(files: &T, new: &Path) -> Option<ChangeFault>
    ensures { result ≡ free_fault (T.files files.now) new.now }
{
    if has_file_upward(files, new) {
        Some(ChangeFault::NotADirectory)
    } else if files.has_file_below(new) {
        Some(ChangeFault::IsADirectory)
    } else {
        None
    }
}
