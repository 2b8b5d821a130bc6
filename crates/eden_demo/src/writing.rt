//! A writer.

use crate::threads::AuditedMount;
use crate::watch::Watch;
use eden_history::{Answer, Change, Position};
use eden_ids::{Content, Kind, NoMemory, Path, PathFault};
use eden_shared::{CallLog, Desk, Pass};
use std::alloc::Global;
use std::sync::Wait;
use std::sync::ledger::Ledger;

/// The number of changes that a writer makes.
const CHANGES: u64 = 50;

/// Holds what the thread of a writer begins with.
#[derive(Drop)]
pub(crate) struct Writer<L: Ledger> {
    pub(crate) number: u64,
    pub(crate) desk: Desk<L>,
    pub(crate) watch: Watch,
    /// Where the mount is before any change.
    pub(crate) opened: Position,
}

/// Holds what it ends with.
#[derive(Drop)]
pub(crate) struct Wrote<L: Ledger> {
    pub(crate) pass: Pass<L>,
    pub(crate) log: CallLog,
    /// Where the mount was after its last change.
    pub(crate) last: Position,
}

/// Returns the path `d/` and the last digit of a number.
fn path_of(alloc: Global, number: u64) -> Result<Path, NoMemory> {
    let digit = b'0' + (number % 10) as u8;
    match Path::parse(alloc, &[b'd', b'/', digit]) {
        Ok(path) => Ok(path),
        Err(PathFault::NoMemory) => Err(NoMemory),
        // These bytes are a path.
        Err(_) => unreachable!(),
    }
}

/// Returns a change of a writer, which writes both numbers at the path of the change's last digit.
fn change_of(alloc: Global, writer: u64, change: u64) -> Result<Change, NoMemory> {
    let path = path_of(alloc, change)?;
    let text = format!(in alloc; "{writer}-{change}")?;
    let Content { kind, bytes } = Content::from_bytes(alloc, Kind::Plain, text.as_bytes())?;
    Ok(Change::Write { path, kind, bytes })
}

impl<L: Ledger> Writer<L> {
    /// Makes a change, and raises the head word to its ticket.
    ///
    /// Returns where the mount was then, or `None` if the change was refused.
    fn make(
        &mut self,
        rt: &impl Wait,
        shared: &AuditedMount<L>,
        change: &Change,
    ) -> Result<Option<Position>, NoMemory> {
        let (ticket, answer) = self.desk.change(rt, shared, change)?;
        self.watch.raise(ticket);
        match answer {
            Answer::At(position) => Ok(Some(position)),
            _ => Ok(None),
        }
    }

    /// Makes all changes, and returns where the mount was after the last.
    fn make_all(
        &mut self,
        rt: &impl Wait,
        alloc: Global,
        shared: &AuditedMount<L>,
    ) -> Result<Position, NoMemory> {
        let mut last = self.opened;
        for number in 1..=CHANGES {
            let change = change_of(alloc, self.number, number)?;
            last = self.make(rt, shared, &change)?.unwrap_or(last);
        }
        Ok(last)
    }

    /// Writes until the last change.
    pub(crate) fn run(
        self,
        rt: &impl Wait,
        alloc: Global,
        shared: &AuditedMount<L>,
    ) -> Result<Wrote<L>, NoMemory> {
        let mut writer = self;
        let last = writer.make_all(rt, alloc, shared)?;
        let Writer { desk, .. } = writer;
        let (pass, log) = desk.finish();
        Ok(Wrote { pass, log, last })
    }
}
