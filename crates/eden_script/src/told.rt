//! The result of a script's line, before it is printed.

ghost use Rattle.std.specs.Prelude.{◌≡◌};

use eden_globs::FilterFault;
use eden_history::{Answer, ChangeFault, Marked, Position, SinceFault};
use eden_ids::{Id, Kind, Path, PathFault, Sequence};
use eden_objects::PutFault;
use std::marker::Model;

/// Why a line is refused. Nothing has changed.
#[derive(Clone, Copy, Debug, PartialEq, Eq)]
pub enum Refusal {
    /// A label is not bound.
    NoLabel,
    /// There is a mount already; a script has at most one.
    Mounted,
    /// There is no mount yet.
    NotMounted,
    /// The id to be mounted is not that of a commit.
    NoCommit,
    /// The object cannot be put.
    Put(PutFault),
    /// A word is not a path.
    Path(PathFault),
    /// No file can be read at a path.
    File(ChangeFault),
    /// The words are not valid patterns.
    Patterns(FilterFault),
    /// The changes since the position cannot be listed.
    Since(SinceFault),
}

/// Borrowed bytes, compared by value.
#[derive(Drop)]
pub struct Lent<'a> {
    bytes: &'a [u8],
}

impl<'a> Model for Lent<'a> {
    ghost use Rattle.std.specs.Prelude.{ℕ, List};

    ghost Value = { List ℕ };

    ghost view = { λ lent. lent.bytes.now };
}

impl<'a> Lent<'a> {
    /// Borrows these bytes, without copying them.
    pub fn new(bytes: &'a [u8]) -> Lent<'a>
        ensures { result ≡ bytes.now }
    {
        Lent { bytes }
    }

    /// Returns the bytes. Does not allocate.
    pub fn as_slice(&self) -> &[u8]
        ensures { result.now ≡ self.now }
    {
        self.bytes
    }
}

/// The result of a line. The bytes of a file are borrowed from the mount that holds it.
#[derive(Drop)]
pub enum Told<'a> {
    /// An object was put, and its label is bound to it.
    Done,
    /// The id that a label is bound to.
    Id(Id),
    /// The answer to a change, or the position after a mount.
    ///
    /// It is also the position that a mount was asked for.
    Answer(Answer),
    /// Nothing was done; the cause.
    Refused(Refusal),
    /// The paths of the files that were asked for, in byte order.
    Files(Sequence<Path>),
    /// The paths where files differ from the commit's, in byte order.
    Dirty(Sequence<Path>),
    /// The file at a path.
    File {
        /// Its kind.
        kind: Kind,
        /// Its bytes.
        bytes: Lent<'a>,
    },
    /// What changed since a position.
    Changes {
        /// The paths with their marks, in byte order.
        marked: Sequence<Marked>,
        /// The directories that were renamed, old and new, in byte order.
        prefixes: Sequence<Path>,
        /// The present position.
        to: Position,
    },
}
