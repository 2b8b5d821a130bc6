//! What is held of a mount for a request.

use eden_accumulate::Snapshot;
use eden_history::Position;
use eden_ids::{Content, Path};
use eden_messages::{Cause, Query};
use eden_ranges::Due;

/// What a request asks for, as the mount was at the time.
///
/// The reply is made of it and of the mount's objects, without the mount.
#[derive(Drop)]
pub enum Raw {
    /// The question, and what changed since its position, not gathered yet.
    Ranged(Query, Due),
    /// The question, and which files the mount had, without their contents.
    Based(Query, Snapshot),
    /// The question, the position, the path, and the file there, if there was one.
    Held(Query, Position, Path, Option<Content>),
    /// The question, which files the mount had, without their contents, and the directory asked
    /// for.
    Listed(Query, Snapshot, Path),
    /// The question, and why it is refused.
    Refused(Query, Cause),
}
