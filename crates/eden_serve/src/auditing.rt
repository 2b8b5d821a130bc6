//! The audit at the end, and how its outcome is printed.

ghost use Rattle.std.specs.Prelude.{◌≡◌, Ok, Err, Result, length, IfErr, IfOk, OnOk};
ghost use Rattle.std.specs.Io.KnownBytes.{Appends};
ghost use Rattle.eden_serve.specs.Agreeing.{Agrees};
ghost use Rattle.eden_serve.specs.Endings.{AuditFails, audit_text};
ghost use Rattle.eden_shared.specs.Passes.{made_by};

use crate::changes::AuditedMount;
use crate::fault::DaemonFault;
use eden_ids::GitNaming;
use eden_shared::{AuditFault, Audited, CallLog, Pass, audit};
use eden_stream::{CountedWrite, RunFault, print};
use std::alloc::Global;
use std::sync::ledger::Ledger;

/// A mount with its history, and the logs of its callers, which an audit found to agree.
#[derive(Drop)]
pub(crate) struct Agreed {
    audited: Audited<GitNaming>,
    logs: Vec<CallLog>,
    ghost agree: { ∥ Agrees audited logs.items ∥₁ },
}

/// Takes the mount back from the lock, and audits what all callers have noted.
fn audit_all<L: Ledger>(
    alloc: Global,
    shared: AuditedMount<L>,
    passes: Vec<Pass<L>>,
    logs: Vec<CallLog>,
) -> Result<Agreed, AuditFault>
    ensures taken { IfOk result (λ agreed. length agreed.audited.entries ≡ made_by passes.items) }
    ensures logs { IfOk result (λ agreed. agreed.logs ≡ logs) }
{
    // No log has the calls of a missing pass.
    let Ok(mut audited) = shared.finish(passes) else {
        return Err(AuditFault::CountsDiffer);
    };
    match audit(alloc, &mut audited, logs.as_slice()) {
        Ok(()) => Ok(Agreed { audited, logs }),
        Err(fault) => Err(fault),
    }
}

/// Returns the line that says that an audit found this, or no text if it was out of memory.
fn fault_text(fault: AuditFault) -> &'static [u8]
    ensures { result.now ≡ audit_text (Err fault) }
{
    match fault {
        AuditFault::UnknownCall => b"audit UnknownCall\n",
        AuditFault::WrongReply => b"audit WrongReply\n",
        AuditFault::OutOfOrder => b"audit OutOfOrder\n",
        AuditFault::Twice => b"audit Twice\n",
        AuditFault::CountsDiffer => b"audit CountsDiffer\n",
        AuditFault::NoMemory => b"",
    }
}

/// Writes that an audit found this, and returns why the daemon ends.
#[tactic(auto, using(crate::proofs::Ending::kept))]
fn fail<W: CountedWrite>(writer: &mut W, fault: AuditFault) -> DaemonFault
    ensures { AuditFails (W.contents writer.old) (W.contents writer.new) result }
{
    if fault == AuditFault::NoMemory {
        return DaemonFault::Script(RunFault::NoMemory);
    }
    if !print(writer, fault_text(fault)) {
        return DaemonFault::Script(RunFault::Write);
    }
    DaemonFault::Audit(fault)
}

/// Takes the mount back from the lock, audits what all callers have noted, and writes the outcome.
///
/// `audit ok` is written if the logs agree with the history, and else `audit` and the fault.
/// Nothing is written if the audit is out of memory.
#[tactic(auto, using(crate::proofs::Ending::ok_torn))]
pub(crate) fn close<L: Ledger, W: CountedWrite>(
    alloc: Global,
    shared: AuditedMount<L>,
    passes: Vec<Pass<L>>,
    logs: Vec<CallLog>,
    writer: &mut W,
) -> Result<Agreed, DaemonFault>
    ensures taken { IfOk result (λ agreed. length agreed.audited.entries ≡ made_by passes.items) }
    ensures logs { IfOk result (λ agreed. agreed.logs ≡ logs) }
    ensures printed { OnOk result (Appends (W.contents writer.old) (W.contents writer.new) (audit_text (Ok tt))) }
    ensures failed { IfErr result (λ fault. AuditFails (W.contents writer.old) (W.contents writer.new) fault) }
{
    match audit_all(alloc, shared, passes, logs) {
        Ok(agreed) => {
            if !print(writer, b"audit ok\n".as_slice()) {
                return Err(DaemonFault::Script(RunFault::Write));
            }
            Ok(agreed)
        }
        Err(fault) => Err(fail(writer, fault)),
    }
}
