//! A lock over a mount, and what an audit says of what its callers note.

ghost use Rattle.std.specs.Prelude.{◌≡◌};

use eden_accumulate::Mount;
use eden_history::ChangeFault;
use eden_ids::{GitNaming, Id, Sequence};
use eden_objects::Store;
use eden_shared::{AuditFault, Audited, CallAnswer, CallLog, Desk, LogEntry, Pass, Shared, audit};
use std::alloc::Global;
use std::process::Abort;
use std::sync::ledger::{Blank, Ledger};
use std::test::Fail;

/// A mount that stores its history, behind a lock.
pub(crate) type AuditedMount<L> = Shared<GitNaming, Audited<GitNaming>, L>;

/// A lock over the mount of a commit, in generation 7.
pub(crate) fn opened<L: Ledger>(
    alloc: Global,
    store: Store<GitNaming>,
    root: Id,
    blank: Blank,
) -> Result<AuditedMount<L>, Fail>
    requires name { blank.name ≡ L.name }
    requires parts { blank.parts ≡ L.parts }
    requires whole { blank.parts ≡ 256 }
{
    let mount = Mount::mount(alloc, store, root, 7, 100_000)?;
    Ok(Shared::new(Audited::new(alloc, mount)?, blank))
}

fn copy_of(entry: &LogEntry) -> Result<LogEntry, Fail> {
    Ok(LogEntry {
        ticket: entry.ticket,
        call: entry.call.copy()?,
        answer: entry.answer.copy()?,
    })
}

fn log_copy(alloc: Global, log: &CallLog) -> Result<CallLog, Fail> {
    let mut entries = Vec::new(alloc);
    for entry in log.entries.as_slice() {
        entries.push(copy_of(entry)?)?;
    }
    Ok(CallLog {
        caller: log.caller,
        entries: Sequence::from_vec(entries),
    })
}

fn copies_of(alloc: Global, logs: &[CallLog]) -> Result<Vec<CallLog>, Fail> {
    let mut copies = Vec::new(alloc);
    for log in logs {
        copies.push(log_copy(alloc, log)?)?;
    }
    Ok(copies)
}

/// Alters entries so that this is wrong with their log.
fn alter(entries: &mut Vec<LogEntry>, fault: AuditFault) -> Result<(), Fail> {
    let first = entries.first_mut().ok_or("an empty log")?;
    match fault {
        AuditFault::UnknownCall => first.ticket = u64::MAX,
        AuditFault::WrongReply => first.answer = CallAnswer::Refused(ChangeFault::TooLarge),
        AuditFault::OutOfOrder => {
            let again = copy_of(first)?;
            entries.push(again)?;
        }
        _ => {}
    }
    Ok(())
}

/// Returns a log, altered so.
fn altered_log(log: CallLog, fault: AuditFault) -> Result<CallLog, Fail> {
    let CallLog { caller, entries } = log;
    let mut entries = entries.into_vec();
    alter(&mut entries, fault)?;
    Ok(CallLog {
        caller,
        entries: Sequence::from_vec(entries),
    })
}

/// Alters the last log, doubles it or leaves it out.
///
/// Then this is wrong with the logs.
fn alter_last(alloc: Global, logs: &mut Vec<CallLog>, fault: AuditFault) -> Result<(), Fail> {
    let last = logs.pop().ok_or("no log")?;
    match fault {
        AuditFault::CountsDiffer => {}
        AuditFault::Twice => {
            logs.push(log_copy(alloc, &last)?)?;
            logs.push(last)?;
        }
        _ => logs.push(altered_log(last, fault)?)?,
    }
    Ok(())
}

/// Returns copies of logs, altered so that this is wrong with them.
fn altered(alloc: Global, logs: &[CallLog], fault: AuditFault) -> Result<Vec<CallLog>, Fail> {
    let mut copies = copies_of(alloc, logs)?;
    alter_last(alloc, &mut copies, fault)?;
    Ok(copies)
}

/// That the logs agree with the history, and what is wrong with others is named.
fn agree(
    rt: &impl Abort,
    alloc: Global,
    audited: &mut Audited<GitNaming>,
    logs: &[CallLog],
) -> Result<(), Fail> {
    assert_eq!(rt; audit(alloc, audited, logs), Ok(()));
    for fault in [
        AuditFault::UnknownCall,
        AuditFault::WrongReply,
        AuditFault::OutOfOrder,
        AuditFault::Twice,
        AuditFault::CountsDiffer,
    ] {
        let wrong = altered(alloc, logs, fault)?;
        assert_eq!(rt; audit(alloc, audited, wrong.as_slice()), Err(fault));
    }
    Ok(())
}

/// What callers hand back.
#[derive(Drop)]
pub(crate) struct Ended<L: Ledger> {
    pub(crate) passes: Vec<Pass<L>>,
    pub(crate) logs: Vec<CallLog>,
}

/// What these two hand back.
pub(crate) fn end_both<L: Ledger>(
    alloc: Global,
    first: Desk<L>,
    second: Desk<L>,
) -> Result<Ended<L>, Fail> {
    let (first, first_log) = first.finish();
    let (second, second_log) = second.finish();
    let passes = vec![in alloc; first, second]?;
    let logs = vec![in alloc; first_log, second_log]?;
    Ok(Ended { passes, logs })
}

/// Gives the lock up, and checks that the logs agree with its history.
fn give_up<L: Ledger>(
    rt: &impl Abort,
    alloc: Global,
    shared: AuditedMount<L>,
    passes: Vec<Pass<L>>,
    logs: &[CallLog],
) -> Result<(), Fail> {
    let mut audited = shared.finish(passes)?;
    agree(rt, alloc, &mut audited, logs)
}

/// The lock is given up: it took as many calls as the logs note, and they agree with its history.
pub(crate) fn close<L: Ledger>(
    rt: &impl Abort,
    alloc: Global,
    shared: AuditedMount<L>,
    given: Ended<L>,
) -> Result<(), Fail> {
    let Ended { passes, logs } = given;
    give_up(rt, alloc, shared, passes, logs.as_slice())
}
