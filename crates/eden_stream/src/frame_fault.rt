//! Why a frame can't be answered.

use thiserror::Error;

/// Why a frame can't be answered.
#[derive(Clone, Copy, Debug, PartialEq, Eq, Error)]
pub enum FrameFault {
    /// The input ends inside the frame, or the body ends inside a field.
    #[error("CutShort")]
    CutShort,

    /// The length is above 16,777,216.
    #[error("TooLarge")]
    TooLarge,

    /// No request or reply has this tag.
    #[error("BadTag")]
    BadTag,

    /// A field has a value that is not allowed.
    #[error("BadField")]
    BadField,

    /// There are bytes after the last field.
    #[error("Trailing")]
    Trailing,

    /// The body is of another version of the format.
    #[error("Version")]
    Version,
}
