//! What changed since a position, each path by name.

ghost use Rattle.std.specs.Prelude.{◌≡◌, ◌≢◌, [], None, Some, IfOk, IfErr};
ghost use Rattle.eden_history.specs.Marks.{admitted};
ghost use Rattle.eden_history.specs.Names.{named_each};
ghost use Rattle.eden_history.specs.Worlds.{WorldState, now, position_of};
ghost use Rattle.eden_accumulate.specs.Mounts.{StandsFor};
ghost use Rattle.eden_accumulate.specs.Ranges.{IsStatus};

use crate::mount::Mount;
use crate::range::Changes;
use eden_globs::Filter;
use eden_history::{Position, SinceFault};
use eden_ids::{Naming, Sequence};
use eden_names::name_paths;
use eden_objects::CommitFault;

impl<N: Naming + Drop> Mount<N> {
    /// Returns what changed since a position, each admitted path by name.
    ///
    /// As `changes_since`, but with the paths below renamed directories: each at which
    /// there was a file at the position or is one now. Its mark says whether there was one
    /// and whether there is. `prefixes` is empty.
    ///
    /// It goes back over what the journal recorded since, in a copy of the working copy,
    /// and lists what was below these directories and what is there now.
    ///
    /// # Errors
    ///
    /// As of `range_since`. `NoMemory` may be returned instead of any other answer.
    pub fn names_since(&self, position: &Position, wanted: &Filter) -> Result<Changes, SinceFault>
        ensures accepts { IfOk result (λ _. IsStatus self.now position.now None) }
        ensures to { IfOk result (λ changes. (world : WorldState) → StandsFor self.now world → changes.to ≡ position_of (now world)) }
        ensures marked { IfOk result (λ changes. (world : WorldState) → StandsFor self.now world
            → changes.marked.items ≡ admitted wanted.now (named_each world position.now.sequence)) }
        ensures prefixes { IfOk result (λ changes. changes.prefixes ≡ []) }
        ensures refuses { IfErr result (λ fault. fault ≢ SinceFault.NoMemory → IsStatus self.now position.now (Some fault)) }
    {
        self.stands_law();
        let range = match self.range_since(position) {
            Ok(range) => range,
            Err(fault) => return Err(fault),
        };
        let to = range.to;
        let alloc = self.store.allocator();
        let recent = self.journal.runs_since(position.sequence)?;
        match name_paths(alloc, &self.store, range, &recent, &self.work, wanted) {
            Ok(marked) => Ok(Changes {
                to,
                marked,
                prefixes: Sequence::new(alloc),
            }),
            // Each root of a mount's range is a commit.
            Err(CommitFault::NoCommit) => unreachable!(),
            Err(CommitFault::NoMemory) => Err(SinceFault::NoMemory),
        }
    }
}
