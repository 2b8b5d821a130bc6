//! What several changes of files at one path amount to.

ghost use Rattle.std.specs.Prelude.{◌≡◌};
ghost use Rattle.eden_history.specs.Marks.{mark_by};
ghost use Rattle.eden_history.specs.Said.{joined};

use crate::mark::Mark;

/// Whether a file was there before some changes, and is after them.
#[derive(Clone, Copy, Debug, PartialEq, Eq)]
pub struct Touch {
    /// Whether there was a file before the first.
    pub before: bool,
    /// Whether there is a file after the last.
    pub after: bool,
}

impl Touch {
    /// Returns the mark of the path.
    pub fn mark(self) -> Mark
        ensures { result ≡ mark_by self.before self.after }
    {
        match (self.before, self.after) {
            (false, true) => Mark::Created,
            (true, false) => Mark::Removed,
            _ => Mark::Changed,
        }
    }
    /// Returns what two changes at one path amount to.
    ///
    /// The earlier one comes first. If there was only one, it is returned.
    pub fn joined(earlier: Option<Touch>, later: Option<Touch>) -> Option<Touch>
        ensures { result ≡ joined earlier later }
    {
        match (earlier, later) {
            (Some(first), Some(last)) => Some(Touch {
                before: first.before,
                after: last.after,
            }),
            (Some(_), None) => earlier,
            (None, _) => later,
        }
    }
}
