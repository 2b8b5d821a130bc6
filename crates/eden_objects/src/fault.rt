//! Why an object is not put, and why a commit cannot be asked.
ghost use Rattle.std.specs.Prelude.{◌≡◌};
ghost use Rattle.eden_objects.specs.declared.fault.CommitFault.TheVariants as fault;
ghost use Rattle.eden_objects.specs.declared.fault.PutFault.TheVariants as put;
ghost use Rattle.eden_objects.specs.Puts.{unread};

use eden_git::EntryFault;
use eden_ids::NoMemory;
use std::alloc::{AllocError, AllocFailed};
use thiserror::Error;

/// Why an object is not put into a store.
///
/// Each put call reports the first cause that applies, in the order that it gives.
#[derive(Clone, Copy, Debug, PartialEq, Eq, Error)]
pub enum PutFault {
    /// The payload has more than 8,388,608 bytes.
    #[error("TooLarge")]
    TooLarge,
    /// Another object in the store has this id.
    #[error("IdTaken")]
    IdTaken,
    /// The id is that of the empty commit, which no object has.
    #[error("ZeroId")]
    ZeroId,
    /// The mode of an entry is not `40000`, `100644`, `100755` or `120000`.
    #[error("BadMode")]
    BadMode,
    /// The name of an entry is invalid.
    ///
    /// It does not have 1 to 255 bytes, is `.` or `..`, or has a slash.
    #[error("BadName")]
    BadName,
    /// An entry does not sort after the one before it.
    #[error("OutOfOrder")]
    OutOfOrder,
    /// An entry has the name of an earlier one.
    #[error("Duplicate")]
    Duplicate,
    /// An object that is referred to is not in the store.
    #[error("MissingChild")]
    MissingChild,
    /// An object that is referred to has the wrong type.
    ///
    /// A directory must be a tree, a file a blob, and a commit's tree a tree.
    #[error("WrongChildKind")]
    WrongChildKind,
    /// A path below the tree would have more than 64 components.
    #[error("TooDeep")]
    TooDeep,
    /// A path below the tree would have more than 1,024 bytes.
    #[error("PathTooLong")]
    PathTooLong,
    /// The payload ends inside an entry or a commit's first line.
    #[error("CutShort")]
    CutShort,
    /// A commit does not begin with its tree.
    ///
    /// Its first line must be `tree `, an id in hexadecimal and a line feed.
    #[error("BadCommit")]
    BadCommit,
    /// An allocation failed.
    #[error("NoMemory")]
    NoMemory,
}

impl From<EntryFault> for PutFault {
    ghost from_gives = { λ fault e. e ≡ unread fault };

    fn from(fault: EntryFault) -> PutFault {
        match fault {
            EntryFault::CutShort => PutFault::CutShort,
            EntryFault::BadMode => PutFault::BadMode,
            EntryFault::BadName => PutFault::BadName,
        }
    }
}

impl From<NoMemory> for PutFault {
    ghost from_gives = { λ _ e. e ≡ put.NoMemory };

    fn from(_e: NoMemory) -> PutFault {
        PutFault::NoMemory
    }
}

impl<T: Drop> From<AllocFailed<T>> for PutFault {
    ghost from_gives = { λ _ e. e ≡ put.NoMemory };

    fn from(_e: AllocFailed<T>) -> PutFault {
        PutFault::NoMemory
    }
}

impl From<AllocError> for PutFault {
    ghost from_gives = { λ _ e. e ≡ put.NoMemory };

    fn from(_e: AllocError) -> PutFault {
        PutFault::NoMemory
    }
}

/// The id is not that of a commit.
///
/// It is neither that of the empty commit nor that of a commit in the store.
#[derive(Clone, Copy, Debug, PartialEq, Eq, Error)]
#[error("NoCommit")]
pub struct NoCommit;

/// Why a question about a commit has no answer.
#[derive(Clone, Copy, Debug, PartialEq, Eq, Error)]
pub enum CommitFault {
    /// The id is not that of a commit.
    ///
    /// It is neither that of the empty commit nor that of a commit in the store.
    #[error("NoCommit")]
    NoCommit,
    /// An allocation failed.
    #[error("NoMemory")]
    NoMemory,
}

impl From<NoCommit> for CommitFault {
    ghost from_gives = { λ _ e. e ≡ fault.NoCommit };

    fn from(_e: NoCommit) -> CommitFault {
        CommitFault::NoCommit
    }
}

impl From<NoMemory> for CommitFault {
    ghost from_gives = { λ _ e. e ≡ fault.NoMemory };

    fn from(_e: NoMemory) -> CommitFault {
        CommitFault::NoMemory
    }
}

impl From<AllocError> for CommitFault {
    ghost from_gives = { λ _ e. e ≡ fault.NoMemory };

    fn from(_e: AllocError) -> CommitFault {
        CommitFault::NoMemory
    }
}

impl<T: Drop> From<AllocFailed<T>> for CommitFault {
    ghost from_gives = { λ _ e. e ≡ fault.NoMemory };

    fn from(_e: AllocFailed<T>) -> CommitFault {
        CommitFault::NoMemory
    }
}
