//! The audit of logs by a stored history.

ghost use Rattle.std.specs.Prelude.{◌≡◌, ◌≢◌, OnOk, IfErr};
ghost use Rattle.eden_accumulate.specs.Mounts.{StandsFor};
ghost use Rattle.eden_history.specs.Worlds.{WorldState};
ghost use Rattle.eden_logs.specs.Accounts.{AllNoted};
ghost use Rattle.eden_shared.specs.Faults.{IsWrong};
ghost use Rattle.eden_logs.specs.Logs.{LogsAgree};

use crate::audited::Audited;
use crate::judging::{are_as_many, check_logs};
use crate::replaying::replay;
use eden_ids::Naming;
use eden_logs::{AuditFault, CallLog};
use std::alloc::Global;

/// Compares logs with a stored history.
fn compare<N: Naming + Drop>(
    alloc: Global,
    audited: &mut Audited<N>,
    logs: &[CallLog],
) -> Result<(), AuditFault>
    ensures agree { OnOk result ((world : WorldState) → StandsFor audited.old.opening world → LogsAgree N.id world audited.old.entries logs.now) }
    ensures fault { IfErr result (λ fault. fault ≢ AuditFault.NoMemory → (world : WorldState) → StandsFor audited.old.opening world
        → IsWrong N.id world audited.old.entries logs.now fault) }
    ensures same { audited.new ≡ audited.old }
{
    let opening = audited.opening.copy()?;
    let history = audited.entries.as_slice();
    let answers = replay(alloc, opening, history)?;
    check_logs(alloc, history, answers.as_slice(), logs)?;
    if are_as_many(history.len(), logs) {
        Ok(())
    } else {
        Err(AuditFault::CountsDiffer)
    }
}

/// Checks that the logs of a mount's callers agree with the stored history.
///
/// They agree if each entry of a log has the caller and the call of the history's entry under its
/// ticket, and the right answer or none; if tickets rise within each log, and none is in two logs;
/// and if the logs have as many entries as the history. Then the calls of all callers are one legal
/// history, each once, in order and with the answers that the callers got. No other call is in it.
///
/// The history is replayed once, on a copy of the mount at the opening. Each entry of a log is
/// looked at once. The mount and its history stay as they are.
///
/// # Errors
///
/// The logs are judged in order, and so are the entries of each. The first entry with a cause
/// decides, by its first cause in this order:
///
/// - `UnknownCall` if the history has no such call of this caller under its ticket.
/// - `WrongReply` if the answer is not the right one.
/// - `OutOfOrder` if the ticket is not above the one before it in the log.
/// - `Twice` if the ticket is in an earlier log.
///
/// After all entries comes `CountsDiffer`, if the logs have another number of entries than the
/// history. `NoMemory` if an allocation fails; it may be returned instead of any result.
pub fn audit<N: Naming + Drop>(
    alloc: Global,
    audited: &mut Audited<N>,
    logs: &[CallLog],
) -> Result<(), AuditFault>
    ensures agree { OnOk result ((world : WorldState) → StandsFor audited.old.opening world → LogsAgree N.id world audited.old.entries logs.now) }
    // The history has no call but those of the logs.
    ensures noted { OnOk result (AllNoted logs.now audited.old.entries) }
    ensures fault { IfErr result (λ fault. fault ≢ AuditFault.NoMemory → (world : WorldState) → StandsFor audited.old.opening world
        → IsWrong N.id world audited.old.entries logs.now fault) }
    // If a fault is reported, the logs do not agree with the history.
    ensures excluded { IfErr result (λ fault. fault ≢ AuditFault.NoMemory → (world : WorldState) → StandsFor audited.old.opening world
        → LogsAgree N.id world audited.old.entries logs.now → ⊥) }
    ensures same { audited.new ≡ audited.old }
{
    let _ = audited.mount();
    compare(alloc, audited, logs)
}
