//! Changes of the commit: reset and checkout.

ghost use Rattle.std.specs.Prelude.{◌≡◌, ◌≢◌, None, Some, IfOk, IfErr, OnOk, OnErr};
ghost use Rattle.eden_objects.specs.Commits.{commit_map};
ghost use Rattle.eden_history.specs.declared.answer.Answer.TheVariants as answer;
ghost use Rattle.eden_history.specs.declared.change.Change.TheVariants.{Checkout, Reset};
ghost use Rattle.eden_history.specs.Checkouts as checkouts;
ghost use Rattle.eden_history.specs.Outcome as outcome;
ghost use Rattle.eden_accumulate.specs.Mounts.{Answers, Follows, Refuses};
ghost use Rattle.eden_accumulate.specs.internal.Refusals.{IsRefusal};

use crate::mount::Mount;
use eden_checkout::plan;
use eden_history::{ChangeFault, Mode, Position, presence_at};
use eden_ids::{Id, Naming, Path, Sequence, id_law};
use eden_objects::CommitFault;

/// The result of a checkout.
#[derive(Drop)]
pub struct Checked {
    /// The position after it.
    pub position: Position,
    /// The paths of changed files that conflict with the commit, ascending.
    pub conflicts: Sequence<Path>,
}

/// Returns true if a checkout is only tried.
fn is_dry(mode: Mode) -> bool
    ensures { result ≡ checkouts.is_dry mode }
{
    matches!(mode, Mode::Dry)
}

impl<N: Naming + Drop> Mount<N> {
    /// Returns `NoCommit` if an id is not that of a commit.
    #[tactic(auto, using(eden_history::proofs::Committed::commit_there, eden_history::proofs::Committed::commit_gone))]
    fn commit_fault(&self, commit: Id) -> Option<ChangeFault>
        ensures { result ≡ outcome.commit_fault (commit_map self.now.held commit) }
    {
        if self.store.has_commit(commit) {
            None
        } else {
            Some(ChangeFault::NoCommit)
        }
    }

    /// Returns why the root cannot be moved to a commit.
    fn reset_refusal(&self, commit: Id) -> Option<ChangeFault>
        ensures { IsRefusal self.now (Reset commit) result }
    {
        self.commit_fault(commit).or(self.number_fault())
    }

    /// Moves the root to another commit, and leaves the files.
    ///
    /// Returns the position after it. Only the paths that a change touched and those at
    /// which the two commits differ are looked at.
    ///
    /// # Errors
    ///
    /// The first of these that applies; nothing changes:
    ///
    /// - `NoCommit` if the id is not that of a commit.
    /// - `SequenceExhausted` if no number is left.
    ///
    /// `NoMemory` if an allocation fails; nothing changes.
    pub fn reset(&mut self, commit: Id) -> Result<Position, ChangeFault>
        ensures answers { IfOk result (λ position. Answers N.id self.old (Reset commit) (answer.At position)) }
        ensures stands { OnOk result (Follows N.id self.old (Reset commit) self.new) }
        ensures refuses { IfErr result (λ fault. fault ≢ ChangeFault.NoMemory → Refuses N.id self.old (Reset commit) fault) }
        ensures unchanged { OnErr result (self.new ≡ self.old) }
    {
        id_law(commit);
        if let Some(fault) = self.reset_refusal(commit) {
            return Err(fault);
        }
        let next = match self.work.reroot(&self.store, commit) {
            Ok(next) => next,
            // The commit is there.
            Err(CommitFault::NoCommit) => unreachable!(),
            Err(CommitFault::NoMemory) => return Err(ChangeFault::NoMemory),
        };
        self.journal.reserve()?;
        self.work = next;
        self.journal
            .append_root(commit, Sequence::new(self.store.allocator()));
        Ok(self.position())
    }

    /// Returns why a commit cannot be checked out.
    fn checkout_refusal(&self, commit: Id, mode: Mode) -> Option<ChangeFault>
        ensures { IsRefusal self.now (Checkout commit mode) result }
    {
        let fault = self.commit_fault(commit);
        if is_dry(mode) {
            return fault;
        }
        fault.or(self.number_fault())
    }

    /// Checks out another commit: changes the files to its files, as the mode says.
    ///
    /// `Dry` changes nothing and is no event; it returns the present position and the
    /// conflicts. Only the paths that a change touched and those at which the two commits
    /// differ are looked at.
    ///
    /// # Errors
    ///
    /// The first of these that applies; nothing changes:
    ///
    /// - `NoCommit` if the id is not that of a commit.
    /// - `SequenceExhausted` if no number is left, unless the mode is `Dry`.
    ///
    /// `NoMemory` if an allocation fails; nothing changes.
    pub fn checkout(&mut self, commit: Id, mode: Mode) -> Result<Checked, ChangeFault>
        ensures answers { IfOk result (λ checked. Answers N.id self.old (Checkout commit mode) (answer.Checked checked.position checked.conflicts)) }
        ensures stands { OnOk result (Follows N.id self.old (Checkout commit mode) self.new) }
        ensures refuses { IfErr result (λ fault. fault ≢ ChangeFault.NoMemory → Refuses N.id self.old (Checkout commit mode) fault) }
        ensures unchanged { OnErr result (self.new ≡ self.old) }
    {
        id_law(commit);
        if let Some(fault) = self.checkout_refusal(commit, mode) {
            return Err(fault);
        }
        let alloc = self.store.allocator();
        let planned = match plan(alloc, &self.store, &self.work, commit, mode) {
            Ok(planned) => planned,
            // The commit is there.
            Err(CommitFault::NoCommit) => unreachable!(),
            Err(CommitFault::NoMemory) => return Err(ChangeFault::NoMemory),
        };
        if is_dry(mode) {
            return Ok(Checked {
                position: self.position(),
                conflicts: planned.conflicts,
            });
        }
        let files = self.work.over(&self.store);
        let before = presence_at(alloc, &files, planned.unclean.as_slice())?;
        self.journal.reserve()?;
        self.work = planned.next;
        self.journal
            .append_checkout(commit, planned.unclean, before);
        Ok(Checked {
            position: self.position(),
            conflicts: planned.conflicts,
        })
    }
}
