//! Why the demonstration did not end well.

use eden_logs::AuditFault;
use thiserror::Error;

/// Why the demonstration did not end well.
#[derive(Clone, Copy, Debug, PartialEq, Eq, Error)]
pub enum DemoFault {
    /// The writer failed. The first bytes of the text may be written.
    #[error("Write")]
    Write,
    /// An allocation failed, or no thread could be made. Nothing is written.
    #[error("NoMemory")]
    NoMemory,
    /// The mount's lock has no pass for one of the four callers. It has 255. Nothing is written.
    #[error("NoConnection")]
    NoConnection,
    /// The audit refused the logs. All is written.
    #[error("{0}")]
    Refused(AuditFault),
    /// A follower is not vouched for, or its mirror differs from the mount. All is written.
    #[error("Differ")]
    Differ,
}
