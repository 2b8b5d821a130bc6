//! A point in the history of a mount.

use eden_ids::Id;

/// A point in the history of a mount, as EdenFS's `JournalPosition`.
///
/// A client keeps one, and asks what has changed since.
#[derive(Clone, Copy, Debug, PartialEq, Eq, Hash)]
pub struct Position {
    /// The life of the mount. No two lives have the same generation.
    pub generation: u64,
    /// The row's number in the generation; each event makes the next one.
    ///
    /// A mount opens at number 1, or at its journal's head if it is made of parts.
    pub sequence: u64,
    /// The commit that was checked out. It is for display; no decision depends on it.
    pub root: Id,
}
