//! The search for a file that is seen below a directory and is not passed over.

ghost use Rattle.std.specs.Prelude.{◌≡◌, ◌&&◌, filter, not};
ghost use Rattle.std.specs.FinMap as fin;
ghost use Rattle.std.specs.List.{list_any};
ghost use Rattle.eden_ids.specs.FileMaps.{paths};
ghost use Rattle.eden_ids.specs.Paths.{lies_below};
ghost use Rattle.eden_renames.specs.Renames.{seen_through};
ghost use Rattle.eden_renames.specs.internal.Regions.{has_own};

use crate::passes::Region;
use crate::renames::Renames;
use eden_ids::{Naming, Path};
use eden_objects::{Commit, Passes};

/// Returns true if a directory itself shows a file that is not passed over.
fn has_own<N: Naming + Drop, S: Passes>(
    commit: &Commit<'_, N>,
    renames: &Renames,
    dir: &Path,
    passed: &S,
) -> bool
    ensures { result ≡ has_own (S.passes passed.now) commit.now renames.now dir.now }
{
    let Some(source) = renames.shown_at(dir) else {
        return false;
    };
    let region = Region {
        renames,
        long: dir.as_bytes().len(),
        passed,
    };
    commit.has_below_but(source.as_slice(), dir, &region)
}

/// Returns the same for the directories below one that have an entry.
fn has_further<N: Naming + Drop, S: Passes>(
    commit: &Commit<'_, N>,
    renames: &Renames,
    top: &Path,
    passed: &S,
) -> bool
    ensures { result ≡ list_any (λ e. has_own (S.passes passed.now) commit.now renames.now e.0) (filter (λ e. lies_below e.0 top.now) (fin.entries renames.now)) }
{
    for entry in renames.entries_below(top) {
        if has_own(commit, renames, &entry.0, passed) {
            return true;
        }
    }
    false
}

/// Returns true if a seen file is not passed over.
///
/// The file must be below the directory. It searches what is seen at the directory
/// itself, and what is seen at each directory below it that has an entry. Does not
/// allocate.
pub(crate) fn has_below_but<N: Naming + Drop, S: Passes>(
    commit: &Commit<'_, N>,
    renames: &Renames,
    top: &Path,
    passed: &S,
) -> bool
    ensures { result ≡ list_any (λ p. lies_below p top.now && not (S.passes passed.now p)) (paths (seen_through commit.now renames.now)) }
{
    commit.texts_law();
    has_own(commit, renames, top, passed) || has_further(commit, renames, top, passed)
}
