//! Changes given as values.

ghost use Rattle.std.specs.Prelude.{◌≡◌, IfOk, OnOk, OnErr};
ghost use Rattle.eden_history.specs.declared.answer.Answer.TheVariants as answer;
ghost use Rattle.eden_accumulate.specs.Mounts.{Answers, Follows};
ghost use Rattle.eden_accumulate.specs.internal.Applied as applied;

use crate::mount::Mount;
use crate::root::Checked;
use eden_history::{Answer, Change, ChangeFault, Position};
use eden_ids::{Naming, NoMemory};

/// Returns a refusal as an answer, or `None` if it is `NoMemory`.
fn answer_refused(fault: ChangeFault) -> Option<Answer>
    ensures { result ≡ applied.refused fault }
{
    match fault {
        ChangeFault::NoMemory => None,
        fault => Some(Answer::Refused(fault)),
    }
}

/// Returns the result of a change as an answer.
fn answer_at(told: Result<Position, ChangeFault>) -> Option<Answer>
    ensures { result ≡ applied.told_as answer.At told }
{
    match told {
        Ok(position) => Some(Answer::At(position)),
        Err(fault) => answer_refused(fault),
    }
}

/// Returns the result of a checkout as an answer.
fn answer_checked(told: Result<Checked, ChangeFault>) -> Option<Answer>
    ensures { result ≡ applied.told_as (λ checked. answer.Checked checked.position checked.conflicts) told }
{
    match told {
        Ok(checked) => Some(Answer::Checked {
            position: checked.position,
            conflicts: checked.conflicts,
        }),
        Err(fault) => answer_refused(fault),
    }
}

impl<N: Naming + Drop> Mount<N> {
    /// Makes a change and returns its answer.
    ///
    /// The bytes of a write are shared with the change. The answer is what the method for this change returns: the position after it, with
    /// the conflicts of a checkout, or why it is refused. If it is refused, nothing
    /// changes.
    ///
    /// # Errors
    ///
    /// - `NoMemory` if an allocation fails; nothing changes.
    pub fn apply(&mut self, change: &Change) -> Result<Answer, NoMemory>
        ensures answers { IfOk result (λ answer. Answers N.id self.old change.now answer) }
        ensures stands { OnOk result (Follows N.id self.old change.now self.new) }
        ensures unchanged { OnErr result (self.new ≡ self.old) }
    {
        self.answer_to(change).ok_or(NoMemory)
    }

    /// Makes a change and returns its answer, or `None`.
    ///
    /// On `NoMemory` it returns `None` and changes nothing.
    fn answer_to(&mut self, change: &Change) -> Option<Answer>
        ensures { applied.Applies N.id self.old change.now result self.new }
    {
        match change {
            Change::Write { path, kind, bytes } => answer_at(self.write_shared(path, *kind, bytes)),
            Change::Remove { path } => answer_at(self.remove(path)),
            Change::Rename { old, new } => answer_at(self.rename(old, new)),
            Change::RenameDir { old, new } => answer_at(self.rename_dir(old, new)),
            Change::Checkout { commit, mode } => answer_checked(self.checkout(*commit, *mode)),
            Change::Reset { commit } => answer_at(self.reset(*commit)),
            Change::Flush => answer_at(self.flush()),
            Change::Remount { generation } => answer_at(self.remount(*generation)),
            Change::Import { objects } => answer_at(self.import(objects.as_slice())),
        }
    }
}
