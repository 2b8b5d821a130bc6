//! Why bytes do not begin with an entry of a tree.
use thiserror::Error;

/// Why the entry at the beginning of bytes cannot be read.
#[derive(Clone, Copy, Debug, PartialEq, Eq, Error)]
pub enum EntryFault {
    /// The bytes end within the entry.
    #[error("CutShort")]
    CutShort,
    /// The mode is not `40000`, `100644`, `100755` or `120000`.
    #[error("BadMode")]
    BadMode,
    /// The name has not 1 to 255 bytes, is `.` or `..`, or has a slash.
    #[error("BadName")]
    BadName,
}
