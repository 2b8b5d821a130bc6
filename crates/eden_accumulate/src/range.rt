//! What changed since a position, as a range and path by path.

ghost use Rattle.std.specs.Prelude.{◌≡◌, ◌≢◌, None, Some, true, IfOk, IfErr};
ghost use Rattle.eden_objects.specs.Commits.{commit_map};
ghost use Rattle.eden_history.specs.Worlds.{WorldState, now, position_of};
ghost use Rattle.eden_history.specs.Changes.{prefixes_since};
ghost use Rattle.eden_history.specs.Marks.{marked_since};
ghost use Rattle.eden_ranges.specs.Expanded.{are_commits, are_comparable};
ghost use Rattle.eden_ranges.specs.WorldRanges.{changes_since, roots_since, unclean_since};
ghost use Rattle.eden_accumulate.specs.Mounts.{StandsFor};
ghost use Rattle.eden_accumulate.specs.Ranges.{EndsNow, IsStatus, Tells};

use crate::mount::Mount;
use eden_globs::Filter;
use eden_history::{Marked, Position, SinceFault};
use eden_ids::{Naming, Path, Sequence};
use eden_objects::CommitFault;
use eden_ranges::{Due, Range, owe};

/// What changed since a position, path by path.
#[derive(Drop)]
pub struct Changes {
    /// The present position.
    pub to: Position,
    /// The paths with their marks, in byte order.
    pub marked: Vec<Marked>,
    /// The directories that were renamed, old and new, in byte order.
    ///
    /// Each is listed once. Any path below one of them may have changed.
    pub prefixes: Sequence<Path>,
}

impl<N: Naming + Drop> Mount<N> {
    /// Returns what changed since a position, as a range that is gathered later.
    ///
    /// It copies the newest runs of the journal, and takes a pointer for each block of older
    /// ones, so it hardly takes longer for a long range. Otherwise as `range_since`.
    #[tactic(auto, using(crate::proofs::Ranging::ends_now, crate::proofs::Ranging::is_status, crate::proofs::Ranging::tells, crate::proofs::Ranging::root_commits, crate::proofs::Ranging::comparable_roots))]
    pub fn owe_since(&self, position: &Position) -> Result<Due, SinceFault>
        ensures accepts { IfOk result (λ _. IsStatus self.now position.now None) }
        ensures from { IfOk result (λ range. range.from ≡ position.now.sequence) }
        ensures ends { IfOk result (λ range. EndsNow self.now range) }
        ensures changes { IfOk result (λ range. (world : WorldState) → StandsFor self.now world
            → range.changes ≡ changes_since world position.now.sequence) }
        ensures prefixes { IfOk result (λ range. (world : WorldState) → StandsFor self.now world
            → range.prefixes ≡ prefixes_since world position.now.sequence) }
        ensures unclean { IfOk result (λ range. (world : WorldState) → StandsFor self.now world
            → range.unclean ≡ unclean_since world position.now.sequence) }
        ensures roots { IfOk result (λ range. (world : WorldState) → StandsFor self.now world
            → range.roots ≡ roots_since world position.now.sequence) }
        // Expanded over the mount's objects, it has each path that changed since, with its mark,
        // and no other.
        ensures tells { IfOk result (λ range. Tells self.now position.now range) }
        // Each root of it is a commit, so that over the mount's objects it can be expanded.
        ensures commits { IfOk result (λ range. are_commits (commit_map self.now.held) range.roots ≡ true) }
        ensures comparable { IfOk result (λ range. are_comparable (commit_map self.now.held) range.roots ≡ true) }
        ensures refuses { IfErr result (λ fault. fault ≢ SinceFault.NoMemory → IsStatus self.now position.now (Some fault)) }
    {
        self.stands_law();
        match owe(&self.journal, position) {
            Ok(range) => Ok(range),
            Err(fault) => Err(fault),
        }
    }

    /// Returns what changed since a position, as a range.
    ///
    /// The range ends at the present. No commit is read: `expand`, over the mount's
    /// objects, makes paths of the range later, and never returns `NoCommit` for it. The
    /// position's root decides nothing. Only what changed after the position is looked
    /// at.
    ///
    /// # Errors
    ///
    /// The first of these that applies:
    ///
    /// - `Stale` if the position's generation is not the mount's.
    /// - `Ahead` if its number is above the present one.
    /// - `Truncated` if the journal no longer holds what changed since.
    ///
    /// `NoMemory` if an allocation fails; it may be returned instead of any other answer.
    pub fn range_since(&self, position: &Position) -> Result<Range, SinceFault>
        ensures accepts { IfOk result (λ _. IsStatus self.now position.now None) }
        ensures from { IfOk result (λ range. range.from ≡ position.now.sequence) }
        ensures ends { IfOk result (λ range. EndsNow self.now range) }
        ensures changes { IfOk result (λ range. (world : WorldState) → StandsFor self.now world
            → range.changes ≡ changes_since world position.now.sequence) }
        ensures prefixes { IfOk result (λ range. (world : WorldState) → StandsFor self.now world
            → range.prefixes ≡ prefixes_since world position.now.sequence) }
        ensures unclean { IfOk result (λ range. (world : WorldState) → StandsFor self.now world
            → range.unclean ≡ unclean_since world position.now.sequence) }
        ensures roots { IfOk result (λ range. (world : WorldState) → StandsFor self.now world
            → range.roots ≡ roots_since world position.now.sequence) }
        // Expanded over the mount's objects, it has each path that changed since, with
        // its mark, and no other.
        ensures tells { IfOk result (λ range. Tells self.now position.now range) }
        // Each root of it is a commit, so it can be expanded over the mount's objects.
        ensures commits { IfOk result (λ range. are_commits (commit_map self.now.held) range.roots ≡ true) }
        ensures comparable { IfOk result (λ range. are_comparable (commit_map self.now.held) range.roots ≡ true) }
        ensures refuses { IfErr result (λ fault. fault ≢ SinceFault.NoMemory → IsStatus self.now position.now (Some fault)) }
    {
        self.stands_law();
        let due = self.owe_since(position)?;
        Ok(due.gather(self.store.allocator())?)
    }

    /// Returns what changed since a position, path by path.
    ///
    /// It is the range of `range_since`, expanded at once: the paths with their marks,
    /// the directories that were renamed, and the present position. Commits that the
    /// mount left or reached since the position are compared.
    ///
    /// # Errors
    ///
    /// As of `range_since`. `NoMemory` may be returned instead of any other answer.
    pub fn changes_since(&self, position: &Position) -> Result<Changes, SinceFault>
        ensures accepts { IfOk result (λ _. IsStatus self.now position.now None) }
        ensures to { IfOk result (λ changes. (world : WorldState) → StandsFor self.now world → changes.to ≡ position_of (now world)) }
        ensures marked { IfOk result (λ changes. (world : WorldState) → StandsFor self.now world
            → changes.marked.items ≡ marked_since world position.now.sequence) }
        ensures prefixes { IfOk result (λ changes. (world : WorldState) → StandsFor self.now world
            → changes.prefixes ≡ prefixes_since world position.now.sequence) }
        ensures refuses { IfErr result (λ fault. fault ≢ SinceFault.NoMemory → IsStatus self.now position.now (Some fault)) }
    {
        let due = match self.owe_since(position) {
            Ok(due) => due,
            Err(fault) => return Err(fault),
        };
        let alloc = self.store.allocator();
        match due.expand_admitted(alloc, &self.store, &Filter::all(alloc)) {
            Ok((marked, prefixes)) => Ok(Changes {
                to: due.to(),
                marked,
                prefixes,
            }),
            // Each root of a mount's range is a commit.
            Err(CommitFault::NoCommit) => unreachable!(),
            Err(CommitFault::NoMemory) => Err(SinceFault::NoMemory),
        }
    }
}
