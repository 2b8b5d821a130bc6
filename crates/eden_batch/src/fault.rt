//! Why an object cannot be read or put, and why a reading ended.

use eden_objects::PutFault;
use thiserror::Error;

/// Why an object cannot be read or put. If several causes hold, the first in this order is
/// reported.
#[derive(Clone, Copy, Debug, PartialEq, Eq, Error)]
pub enum ObjectFault {
    /// The bytes are not the beginning of any header, or the byte after the object is not a line
    /// feed. A header's size is below 2^64.
    #[error("BadHeader")]
    BadHeader,
    /// The header's size is above 8,388,608 bytes.
    #[error("TooLarge")]
    TooLarge,
    /// The stream ends within the header or the object, or before its line feed.
    #[error("CutShort")]
    CutShort,
    /// The put call of its kind refuses the object, for this cause.
    #[error("{0}")]
    Refused(PutFault),
    /// The object has another id than its header says.
    #[error("OtherId")]
    OtherId,
}

/// Why the reading ended before the stream did, and at which object, counted from 1.
#[derive(Clone, Copy, Debug, PartialEq, Eq, Drop, Error)]
pub enum ObjectsFault {
    /// The object of this number cannot be read or put.
    #[error("object {number}: {fault}")]
    Object { number: u64, fault: ObjectFault },

    /// The reader returned an error before the whole object of this number was read.
    #[error("object {number}: Read")]
    Read { number: u64 },

    /// 1,000,000 reads were made before the whole object of this number was read.
    #[error("object {number}: TurnsSpent")]
    TurnsSpent { number: u64 },

    /// An allocation failed before the object of this number was put and its id noted.
    #[error("object {number}: NoMemory")]
    NoMemory { number: u64 },
}
