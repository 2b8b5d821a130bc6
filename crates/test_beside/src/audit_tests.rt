//! Audits of what was drawn by lot: callers note what the world answers, and a mount that stores its history is audited by that.

use crate::comparing::Pair;
use eden_history::{Change, ChangeFault};
use eden_ids::{GitNaming, Id, Sequence};
use eden_messages::{Query, Request};
use eden_query::Served;
use eden_shared::{AuditFault, Audited, Call, CallAnswer, CallLog, LogEntry, audit};
use eden_world::World;
use std::alloc::Global;
use std::process::Abort;
use std::test::Fail;
use test_kit::{Commits, Lot, Outcomes, Roots, family};

/// How many callers there are.
const CALLERS: u64 = 3;

/// A mount that stores its history, a world beside it, and what the callers note, each entry with its caller.
#[derive(Drop)]
struct Scribes {
    audited: Audited<GitNaming>,
    world: World<GitNaming>,
    notes: Vec<(u64, LogEntry)>,
}

impl Scribes {
    /// Mounts the third commit with a journal of this limit. Nothing is noted yet.
    fn opened(alloc: Global, commits: &mut Commits<4>, limit: u64) -> Result<Scribes, Fail> {
        let pair = Pair::mounted(alloc, &mut commits.store, commits.ids[2], limit)?;
        let Pair { mount, world } = pair;
        let audited = Audited::new(alloc, mount)?;
        Ok(Scribes {
            audited,
            world,
            notes: Vec::new(alloc),
        })
    }

    fn note(&mut self, caller: u64, call: Call, answer: CallAnswer) -> Result<(), Fail> {
        let ticket = (self.notes.len() as u64).saturating_add(1);
        let entry = LogEntry {
            ticket,
            call,
            answer,
        };
        Ok(self.notes.push((caller, entry))?)
    }

    /// Makes a change drawn by lot, as one of the callers.
    fn change(
        &mut self,
        alloc: Global,
        lot: &mut Lot,
        roots: &mut Roots,
        outcomes: &mut Outcomes,
    ) -> Result<(), Fail> {
        let caller = lot.below(3) as u64;
        let now = self.world.now();
        let change = lot.change(alloc, roots, now.generation(), now.files())?;
        let _ = self.audited.apply(caller, &change)?;
        let told = self.world.apply(&change)?;
        outcomes.count(&change, &told, roots);
        self.note(caller, Call::Change(change), CallAnswer::from(told))
    }

    /// Asks for a basis, a poll, a fetch and a list, as one of the callers.
    fn ask(&mut self, alloc: Global, lot: &mut Lot) -> Result<(), Fail> {
        let caller = lot.below(3) as u64;
        let query = Query {
            mirror: caller,
            life: 1,
            number: self.notes.len() as u64,
        };
        let filter = lot.filter(alloc)?;
        for request in lot.requests(alloc, query, &self.world.position(), &filter)? {
            self.ask_one(caller, request)?;
        }
        Ok(())
    }

    fn ask_one(&mut self, caller: u64, request: Request) -> Result<(), Fail> {
        let _ = self.audited.hold(caller, &request)?;
        let reply = self.world.reply(&request)?;
        self.note(caller, Call::Ask(request), CallAnswer::Replied(reply))
    }

    /// Returns the log of a caller, with this entry in place of its ticket's.
    fn log(&self, alloc: Global, caller: u64, other: Option<&LogEntry>) -> Result<CallLog, Fail> {
        let mut entries = Vec::new(alloc);
        for (by, entry) in &self.notes {
            if *by == caller {
                entries.push(copy_of(chosen(entry, other))?)?;
            }
        }
        let entries = Sequence::from_vec(entries);
        Ok(CallLog { caller, entries })
    }

    /// Audits all that is noted, with this entry in place of its ticket's.
    fn said(
        &mut self,
        alloc: Global,
        other: Option<&LogEntry>,
    ) -> Result<Result<(), AuditFault>, Fail> {
        let mut logs = Vec::new(alloc);
        for caller in 0..CALLERS {
            logs.push(self.log(alloc, caller, other)?)?;
        }
        Ok(audit(alloc, &mut self.audited, logs.as_slice()))
    }

    /// Returns another answer and another call of each import, and their faults.
    fn wrong(&self, alloc: Global) -> Result<Vec<(LogEntry, AuditFault)>, Fail> {
        let mut wrong = Vec::new(alloc);
        for (_, entry) in &self.notes {
            if let Call::Change(Change::Import { .. }) = &entry.call {
                wrong.push((otherwise_answered(entry)?, AuditFault::WrongReply))?;
                wrong.push((of_nothing(alloc, entry)?, AuditFault::UnknownCall))?;
            }
        }
        Ok(wrong)
    }
}

/// Returns the entry with another answer.
fn otherwise_answered(entry: &LogEntry) -> Result<LogEntry, Fail> {
    let mut other = copy_of(entry)?;
    other.answer = CallAnswer::Refused(ChangeFault::TooLarge);
    Ok(other)
}

/// Returns the entry with an import of no object as its call.
fn of_nothing(alloc: Global, entry: &LogEntry) -> Result<LogEntry, Fail> {
    let mut other = copy_of(entry)?;
    let objects = Sequence::new(alloc);
    other.call = Call::Change(Change::Import { objects });
    Ok(other)
}

/// Returns the entry, or the other one if it has the same ticket.
fn chosen<'a>(entry: &'a LogEntry, other: Option<&'a LogEntry>) -> &'a LogEntry {
    match other {
        Some(other) if other.ticket == entry.ticket => other,
        _ => entry,
    }
}

fn copy_of(entry: &LogEntry) -> Result<LogEntry, Fail> {
    Ok(LogEntry {
        ticket: entry.ticket,
        call: entry.call.copy()?,
        answer: entry.answer.copy()?,
    })
}

impl Scribes {
    /// Makes thirty changes that follow from a seed, and asks in between.
    fn go_on(
        &mut self,
        alloc: Global,
        seed: u64,
        first: &[Id; 4],
        outcomes: &mut Outcomes,
    ) -> Result<(), Fail> {
        let mut lot = Lot::new(seed);
        let mut roots = Roots::new(first);
        for _ in 0..30 {
            self.change(alloc, &mut lot, &mut roots, outcomes)?;
            if lot.below(3) == 0 {
                self.ask(alloc, &mut lot)?;
            }
        }
        Ok(())
    }

    /// Returns the ticket of a wrong entry whose fault the audit does not name, if there is one.
    fn untold(&mut self, alloc: Global) -> Result<Option<u64>, Fail> {
        for (other, fault) in &self.wrong(alloc)? {
            if self.said(alloc, Some(other))? != Err(*fault) {
                return Ok(Some(other.ticket));
            }
        }
        Ok(None)
    }

    /// Checks that what is noted agrees with the history, and that nothing else may be noted of an import.
    fn agree(
        &mut self,
        rt: &impl Abort,
        alloc: Global,
        seed: u64,
        first: &[Id; 4],
        outcomes: &mut Outcomes,
    ) -> Result<(), Fail> {
        self.go_on(alloc, seed, first, outcomes)?;
        assert!(rt; self.said(alloc, None)? == Ok(()), "seed {seed}");
        let untold = self.untold(alloc)?;
        assert!(rt; untold.is_none(), "seed {seed}, ticket {untold:?}");
        Ok(())
    }
}

/// Checks it of the calls that follow from one seed.
fn audit_alike(
    rt: &impl Abort,
    alloc: Global,
    commits: &mut Commits<4>,
    seed: u64,
    outcomes: &mut Outcomes,
) -> Result<(), Fail> {
    let mut scribes = Scribes::opened(alloc, commits, 400)?;
    scribes.agree(rt, alloc, seed, &commits.ids, outcomes)
}

/// Checks it of each seed, and that each outcome is among those of the changes.
fn all_audited(rt: &impl Abort, alloc: Global, commits: &mut Commits<4>) -> Result<(), Fail> {
    let mut outcomes = Outcomes::default();
    for seed in 0..12_u64 {
        audit_alike(rt, alloc, commits, seed, &mut outcomes)?;
    }
    assert!(rt; outcomes.has_all(), "{outcomes:?}");
    Ok(())
}

#[test]
fn generated_audits(rt: HostRuntime) -> Result<(), Fail> {
    let alloc = rt.alloc();
    let mut commits = family(alloc)?;
    all_audited(&rt, alloc, &mut commits)
}
