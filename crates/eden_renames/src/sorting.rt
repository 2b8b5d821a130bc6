//! The order of a list's paths.

ghost use Rattle.std.specs.Prelude.{OnOk};
ghost use Rattle.std.specs.List.Sorted.{IsPermutation};
ghost use Rattle.eden_renames.specs.internal.Listed.{AreInOrder};

use eden_ids::{NoMemory, Path};

/// Puts paths in byte order. No path is copied.
///
/// Paths that ascend in a few stretches take little more than one pass.
pub(crate) fn sort_paths(paths: &mut Vec<Path>) -> Result<(), NoMemory>
    ensures same { IsPermutation paths.old.items paths.new.items }
    ensures sorted { OnOk result (AreInOrder paths.new.items) }
{
    paths.sort_by(|one, other| one.cmp(other))?;
    Ok(())
}
