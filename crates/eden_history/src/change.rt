//! Changes of a mount, and why one is refused.

ghost use Rattle.std.specs.Prelude.{◌≡◌, IfOk};

use bytes::Bytes;
use eden_ids::{Id, Kind, NoMemory, Path, Sequence};
use eden_objects::{Object, PutFault};
use thiserror::Error;

/// How a checkout treats files that were changed.
#[derive(Clone, Copy, Debug, PartialEq, Eq)]
pub enum Mode {
    /// They stay, and files of the commit that clash are left out.
    Normal,
    /// Nothing is changed; only the conflicts are reported.
    Dry,
    /// They are replaced by the files of the new commit.
    Force,
}

/// A change that a client asks of a mount.
#[derive(Clone, Debug, PartialEq, Drop)]
pub enum Change {
    /// Sets the kind and the bytes of the file at a path.
    ///
    /// There need not be a file before.
    Write {
        /// The file's path.
        path: Path,
        /// The file's new kind.
        kind: Kind,
        /// The file's new bytes, at most 8 MiB.
        bytes: Bytes,
    },
    /// Removes the file at a path.
    Remove {
        /// The file's path.
        path: Path,
    },
    /// Moves a file to another path, replacing any file there.
    ///
    /// A file may be renamed to itself; this changes nothing and takes no number.
    Rename {
        /// The file's path now.
        old: Path,
        /// The file's new path.
        new: Path,
    },
    /// Moves each file below one path to below another.
    ///
    /// Each keeps its place there. There must be no files below the new path. It names no
    /// paths: a poll lists the two directories instead. A directory may be renamed to
    /// itself; this changes nothing and takes no number.
    RenameDir {
        /// The directory's path now.
        old: Path,
        /// The directory's new path.
        new: Path,
    },
    /// Checks out another commit, and changes the files as the mode says.
    Checkout {
        /// The commit.
        commit: Id,
        /// How files that were changed are treated.
        mode: Mode,
    },
    /// Moves the root to another commit, and leaves the files.
    Reset {
        /// The commit.
        commit: Id,
    },
    /// Drops what the journal holds, so earlier positions are truncated.
    Flush,
    /// Begins another generation, at number 1.
    ///
    /// It has the same commit and the same files.
    Remount {
        /// The generation; it must be above the present one.
        generation: u64,
    },
    /// Puts objects into the store below the mount, in order: all of them, or none if one
    /// is refused.
    ///
    /// It takes no number. The root, the files and the reported changes stay as they are.
    Import {
        /// The objects, each after those that it refers to. One that is there already
        /// stays as it is.
        objects: Sequence<Object>,
    },
}

impl Change {
    /// Returns a copy of this change. A write's bytes are shared.
    ///
    /// # Errors
    ///
    /// - `NoMemory` if an allocation fails.
    pub fn copy(&self) -> Result<Change, NoMemory>
        ensures { IfOk result (λ change. change ≡ self.now) }
    {
        Ok(self.clone()?)
    }
}

/// Why a change was refused; nothing has changed.
///
/// The first cause in this order is reported. For a rename the causes at the old path
/// come before those at the new one.
#[derive(Clone, Copy, Debug, PartialEq, Eq, Error)]
pub enum ChangeFault {
    /// There is a file at a proper prefix of the path's components.
    ///
    /// If a directory is renamed, also if there is a file at the path itself.
    #[error("NotADirectory")]
    NotADirectory,
    /// There are files below the path.
    #[error("IsADirectory")]
    IsADirectory,
    /// There is no file at the path.
    ///
    /// If a directory is renamed: none below it.
    #[error("NoEntry")]
    NoEntry,
    /// The file would hold more than 8 MiB.
    #[error("TooLarge")]
    TooLarge,
    /// The new path of a directory is below its old one.
    ///
    /// This is reported before any other cause at the new path.
    #[error("IntoItself")]
    IntoItself,
    /// A file of a renamed directory would get an invalid path.
    #[error("PathTooLong")]
    PathTooLong,
    /// The id is not that of a commit.
    #[error("NoCommit")]
    NoCommit,
    /// The sequence number is the greatest, 2^64 - 1.
    #[error("SequenceExhausted")]
    SequenceExhausted,
    /// The generation is not above the present one.
    #[error("GenerationNotNew")]
    GenerationNotNew,
    /// The store refuses an object of an import: the first that it does, after those
    /// before it are put.
    #[error("BadObject")]
    BadObject {
        /// The object's position in the list, counted from 0.
        place: u64,
        /// The first cause for which the store refuses it.
        fault: PutFault,
    },
    /// An allocation failed.
    #[error("NoMemory")]
    NoMemory,
}

impl From<NoMemory> for ChangeFault {
    ghost use Rattle.eden_history.specs.declared.change.ChangeFault.TheVariants as faults;

    ghost from_gives = { λ _ fault. fault ≡ faults.NoMemory };

    fn from(_fault: NoMemory) -> ChangeFault {
        ChangeFault::NoMemory
    }
}
