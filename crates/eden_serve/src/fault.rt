//! Why a daemon did not end well.

use eden_ids::NoMemory;
use eden_logs::AuditFault;
use eden_stream::RunFault;
use thiserror::Error;

/// Why a daemon did not end well.
#[derive(Clone, Copy, Debug, PartialEq, Eq, Error)]
pub enum DaemonFault {
    /// A line of the script can't be read, or the input, the output or memory has failed.
    #[error("{0}")]
    Script(RunFault),
    /// Nobody can listen there, or nothing can serve the connections.
    #[error("no connection can be accepted")]
    NoConnection,
    /// An audit has found this, and the output says so.
    #[error("the audit found {0}")]
    Audit(AuditFault),
}

impl From<RunFault> for DaemonFault {
    ghost use Rattle.std.specs.Prelude.{◌≡◌};
    ghost use Rattle.eden_serve.specs.declared.fault.DaemonFault.TheVariants as faults;

    ghost from_gives = { λ ran fault. fault ≡ faults.Script ran };

    fn from(ran: RunFault) -> DaemonFault {
        DaemonFault::Script(ran)
    }
}

impl From<NoMemory> for DaemonFault {
    ghost use Rattle.std.specs.Prelude.{◌≡◌};
    ghost use Rattle.eden_serve.specs.declared.fault.DaemonFault.TheVariants as faults;
    ghost use Rattle.eden_stream.specs.declared.lines.RunFault.TheVariants as ran;

    ghost from_gives = { λ _ fault. fault ≡ faults.Script ran.NoMemory };

    fn from(_fault: NoMemory) -> DaemonFault {
        DaemonFault::Script(RunFault::NoMemory)
    }
}
