//! The writers and the followers: each with its desk, its view of the head word, and its line.

use crate::following::Following;
use crate::line::open_line;
use crate::serving::Service;
use crate::threads::{AuditedMount, Crew, Pair};
use crate::watch::Watch;
use crate::writing::Writer;
use crossbeam_channel::Sender;
use eden_follow::Follower;
use eden_globs::Filter;
use eden_history::Position;
use eden_ids::NoMemory;
use eden_shared::Desk;
use std::alloc::{AllocError, AllocFailed, Global};
use std::sync::Wait;
use std::sync::ledger::Ledger;

/// The life of each follower.
const LIFE: u64 = 1;

/// Why nothing was done.
#[derive(Clone, Copy, Debug, PartialEq, Eq)]
pub(crate) enum CrewFault {
    /// The lock has no pass left. It has 255, and four are needed.
    NoPass,
    /// An allocation failed.
    NoMemory,
}

impl From<NoMemory> for CrewFault {
    fn from(_fault: NoMemory) -> CrewFault {
        CrewFault::NoMemory
    }
}

impl From<AllocError> for CrewFault {
    fn from(_fault: AllocError) -> CrewFault {
        CrewFault::NoMemory
    }
}

impl<T: Drop> From<AllocFailed<T>> for CrewFault {
    fn from(_fault: AllocFailed<T>) -> CrewFault {
        CrewFault::NoMemory
    }
}

/// Returns a desk with a pass of its own.
fn open_desk<L: Ledger>(
    rt: &impl Wait,
    alloc: Global,
    shared: &AuditedMount<L>,
) -> Result<Desk<L>, CrewFault> {
    match shared.pass(rt) {
        Ok(pass) => Ok(Desk::new(alloc, pass)),
        Err(_) => Err(CrewFault::NoPass),
    }
}

/// Returns a follower with its service, and what says to the follower what the last position is.
fn open_pair<L: Ledger>(
    rt: &impl Wait,
    alloc: Global,
    shared: &AuditedMount<L>,
    number: u64,
    watch: Watch,
) -> Result<(Pair<L>, Sender<Position>), CrewFault> {
    let (caller, callee) = open_line(alloc)?;
    let (tells, told) = crossbeam_channel::bounded(alloc, 1)?;
    let service = Service {
        desk: open_desk(rt, alloc, shared)?,
        line: callee,
    };
    let following = Following {
        follower: Follower::new(alloc, number, LIFE, Filter::all(alloc)),
        line: caller,
        watch,
        last: told,
    };
    Ok((Pair { service, following }, tells))
}

/// Returns two writers and two followers, over a mount at a position.
pub(crate) fn open_crew<L: Ledger>(
    rt: &impl Wait,
    alloc: Global,
    shared: &AuditedMount<L>,
    opened: Position,
) -> Result<Crew<L>, CrewFault> {
    let mut first = Watch::new(alloc)?;
    let mut crew = Crew {
        writers: Vec::new(alloc),
        pairs: Vec::new(alloc),
        last: Vec::new(alloc),
    };
    for number in 1..=2 {
        let desk = open_desk(rt, alloc, shared)?;
        let watch = first.split()?;
        crew.writers.push(Writer {
            number,
            desk,
            watch,
            opened,
        })?;
        let (pair, last) = open_pair(rt, alloc, shared, number, first.split()?)?;
        crew.pairs.push(pair)?;
        crew.last.push(last)?;
    }
    Ok(crew)
}
