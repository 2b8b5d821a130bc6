//! The effect of a reply on a mirror.

/// The effect of a reply on a mirror.
#[derive(Clone, Copy, Debug, PartialEq, Eq)]
pub enum Outcome {
    /// The reply counted, and the mirror waits for contents.
    Taken,
    /// The reply was the last that was awaited: the mirror now has the target's position.
    Placed,
    /// The mirror's position cannot be followed any more: it has none now, and the round
    /// is over.
    Unplaced,
    /// The round is over, and the mirror's position stays.
    Ended,
    /// The reply was not awaited, and nothing changed.
    Ignored,
}
