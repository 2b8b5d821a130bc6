//! The paths that a range names, taken from the runs that the journal still shares.

ghost use Rattle.std.specs.Prelude.{◌≡◌, ◌≢◌, ◌++◌, ◌∷◌, [], true, false, map, reverse, IfOk, IfErr, OnOk};
ghost use Rattle.eden_ids.specs.FileMaps.{path_set};
ghost use Rattle.eden_objects.specs.Commits.{commit_map};
ghost use Rattle.eden_history.specs.Marks.{admitted};
ghost use Rattle.eden_history.specs.Said.{by_root};
ghost use Rattle.eden_ranges.specs.Expanded.{are_comparable, differing, expanded};
ghost use Rattle.eden_ranges.specs.internal.Mentions.{Ascend};
ghost use Rattle.eden_ranges.specs.internal.Wanted.{only};

use crate::expanding::differing_paths;
use crate::gathering::{Gathered, gather};
use crate::ranges::{Due, roots_of};
use eden_globs::Filter;
use eden_history::Marked;
use eden_ids::{Id, Naming, Path, Sequence};
use eden_objects::{CommitFault, Store};
use std::alloc::Global;

/// Returns the admitted paths at which neighbouring roots differ.
///
/// The roots are those that were left, newest first, and the last one. The paths ascend, each
/// once. If no root was left, this does not allocate.
fn differing_since<N: Naming + Drop>(
    alloc: Global,
    store: &Store<N>,
    lefts: Vec<Id>,
    root: Id,
    wanted: &Filter,
) -> Result<Vec<Path>, CommitFault>
    ensures paths { IfOk result (λ paths. path_set paths.items ≡ only wanted.now (differing (commit_map store.now) (reverse lefts.items ++ root ∷ []))) }
    ensures ascend { IfOk result (λ paths. Ascend (map by_root paths.items)) }
    ensures compared { OnOk result (are_comparable (commit_map store.now) (reverse lefts.items ++ root ∷ []) ≡ true) }
    ensures fault { IfErr result (λ fault. fault ≢ CommitFault.NoMemory → are_comparable (commit_map store.now) (reverse lefts.items ++ root ∷ []) ≡ false) }
{
    if lefts.is_empty() {
        return Ok(Vec::new(alloc));
    }
    let roots = roots_of(alloc, lefts, root)?;
    differing_paths(alloc, store, &roots, wanted)
}

impl Due {
    /// Returns the admitted paths of the range with their marks, and its directories.
    ///
    /// The paths are those that `expand_admitted` returns of the range that `gather` makes, and the
    /// directories are all that were renamed, old and new. No range is made. Of the journal's paths
    /// only admitted ones are copied, each once, and paths at which roots differ are moved.
    ///
    /// # Errors
    ///
    /// As of `expand_admitted`.
    pub fn expand_admitted<N: Naming + Drop>(
        &self,
        alloc: Global,
        store: &Store<N>,
        wanted: &Filter,
    ) -> Result<(Vec<Marked>, Sequence<Path>), CommitFault>
        ensures marked { IfOk result (λ told. told.0.items ≡ admitted wanted.now (expanded store.now self.now)) }
        ensures prefixes { IfOk result (λ told. told.1 ≡ self.now.prefixes) }
        ensures compared { OnOk result (are_comparable (commit_map store.now) self.now.roots ≡ true) }
        ensures fault { IfErr result (λ fault. fault ≢ CommitFault.NoMemory → are_comparable (commit_map store.now) self.now.roots ≡ false) }
    {
        let Gathered {
            mut touches,
            prefixes,
            unclean,
            lefts,
        } = gather(alloc, &self.recent, self.from)?;
        touches.reverse();
        touches.append(unclean)?;
        touches.retain_admitted(wanted);
        let prefixes = prefixes.into_paths(alloc)?;
        let differing = differing_since(alloc, store, lefts, self.to.root, wanted)?;
        let marked = touches.into_marked(alloc, differing)?;
        Ok((marked, prefixes))
    }
}
