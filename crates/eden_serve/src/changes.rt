//! The lines after `listen`, which change what is served.

ghost use Rattle.std.specs.Prelude.{IfOk};
ghost use Rattle.eden_history.specs.declared.answer.Answer.{Answer};
ghost use Rattle.eden_history.specs.declared.change.Change.{Change};

use crate::observing::Observer;
use eden_accumulate::Mount;
use eden_edend::{Changer, Labels};
use eden_history::{Answer, Change};
use eden_ids::{GitNaming, Naming, NoMemory};
use eden_query::Served;
use eden_shared::{Audited, Desk, Origin, Pass, Shared, Unlogged};
use eden_sockets::Listener;
use eden_stream::CountedRead;
use std::sync::Wait;
use std::sync::ledger::Ledger;

/// A mount that stores its history, behind a lock.
pub(crate) type AuditedMount<L> = Shared<GitNaming, Audited<GitNaming>, L>;

/// Where a mount is changed.
pub(crate) trait Place {
    // Before, the change, its answer, and after.
    ghost changed: { Self → Change → Answer → Self → Type 0 };

    /// Makes a change, and returns the mount's answer. `NoMemory` if an allocation fails.
    fn change(&mut self, change: &Change) -> Result<Answer, NoMemory>
        ensures { IfOk result (λ answer. changed self.old change.now answer self.new) };
}

/// A desk at its lock, which notes what it changes.
#[derive(Drop)]
pub(crate) struct AtDesk<'a, 'b, L: Ledger, R: Wait> {
    pub(crate) rt: &'a R,
    pub(crate) shared: &'a AuditedMount<L>,
    pub(crate) desk: &'b mut Desk<L>,
}

impl<'a, 'b, L: Ledger, R: Wait> Place for AtDesk<'a, 'b, L, R> {
    ghost use Rattle.eden_serve.specs.Changed.{NotesChange};

    ghost changed = { λ before change answer after. NotesChange before.desk.now change answer after.desk.now };

    fn change(&mut self, change: &Change) -> Result<Answer, NoMemory> {
        let (_, answer) = self.desk.change(self.rt, self.shared, change)?;
        Ok(answer)
    }
}

/// A lock of which nothing is logged, and a pass that counts what is changed here.
#[derive(Drop)]
pub(crate) struct AtLock<'a, 'b, N: Naming + Drop, T: Served<N>, L: Origin, R: Wait> {
    pub(crate) rt: &'a R,
    pub(crate) unlogged: &'a Unlogged<N, T, L>,
    pub(crate) pass: &'b mut Pass<L>,
}

impl<'a, 'b, N: Naming + Drop, T: Served<N>, L: Origin, R: Wait> Place
    for AtLock<'a, 'b, N, T, L, R> {
    ghost use Rattle.eden_shared.specs.Reached.{IsReached};
    ghost use Rattle.eden_serve.specs.Changed.{CountsChange};

    ghost changed = { λ before change answer after.
        CountsChange (IsReached N.id T.stands_for L.opens) N.id T.stands_for T.apply_gives before.pass.now change answer after.pass.now };

    fn change(&mut self, change: &Change) -> Result<Answer, NoMemory> {
        self.unlogged.change(self.rt, self.pass, change)
    }
}

/// Makes changes at a place. Its observer hears of those that are refused.
#[derive(Drop)]
pub(crate) struct ObservedChanger<'a, P: Place, V: Observer> {
    pub(crate) place: P,
    pub(crate) observer: &'a V,
}

impl<'a, P: Place, V: Observer> Changer for ObservedChanger<'a, P, V> {
    ghost made = { λ before change after. (answer : Answer) × P.changed before.place change answer after.place };

    fn change(&mut self, change: &Change) -> Result<(), NoMemory> {
        let answer = self.place.change(change)?;
        if let Answer::Refused(fault) = answer {
            self.observer.change_refused(change, fault);
        }
        Ok(())
    }
}

/// The lines of a script after `listen`.
#[derive(Drop)]
pub(crate) struct Lines<'a, I: CountedRead> {
    pub(crate) input: &'a mut I,
    pub(crate) labels: Labels,
    /// The number of the line `listen`.
    pub(crate) from: u64,
}

/// What a script has opened, and what changes it while it is served.
#[derive(Drop)]
pub(crate) struct Service<'a, I: CountedRead> {
    pub(crate) mount: Mount<GitNaming>,
    pub(crate) listener: Listener,
    pub(crate) lines: Lines<'a, I>,
}
