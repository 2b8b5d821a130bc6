//! Whether files are at some paths.

ghost use Rattle.std.specs.Prelude.{◌≡◌, IfOk, is_some, map};
ghost use Rattle.eden_ids.specs.FileMaps.{file_at};

use eden_ids::{FileTree, NoMemory, Path, Sequence, has_file};
use std::alloc::Global;

/// Returns whether a file is at each of these paths, in their order.
///
/// # Errors
///
/// - `NoMemory` if an allocation fails.
pub fn presence_at<T: FileTree>(
    alloc: Global,
    files: &T,
    paths: &[Path],
) -> Result<Sequence<bool>, NoMemory>
    ensures { IfOk result (λ flags. flags ≡ map (λ path. is_some (file_at (T.files files.now) path)) paths.now) }
{
    let mut flags = Vec::with_capacity(alloc, paths.len())?;
    for path in paths {
        flags.push(has_file(files, path.as_bytes()))?;
    }
    Ok(Sequence::from_vec(flags))
}
