//! What happened to a path between two positions.

ghost use Rattle.std.specs.Prelude.{◌≡◌, IfOk};
ghost use Rattle.eden_history.specs.Marks.{mark_told};

use crate::touches::Touch;
use eden_ids::{NoMemory, Path};

/// What happened to a path between two positions.
#[derive(Clone, Copy, Debug, PartialEq, Eq)]
pub enum Mark {
    /// Absent before the first change of files, present after the last.
    Created,
    /// Present before the first change of files, absent after the last.
    Removed,
    /// A file changed: there is one both before and after, or neither before nor after.
    Changed,
    /// No change of files named it: the root that is checked out moved.
    Root,
}

impl Mark {
    /// Returns the mark of a path, by its changes of files.
    ///
    /// It is `Root` if there were none.
    pub fn of(touch: Option<Touch>) -> Mark
        ensures { result ≡ mark_told touch }
    {
        match touch {
            Some(touch) => touch.mark(),
            None => Mark::Root,
        }
    }
}

/// A path that changed, with its mark.
#[derive(Clone, Debug, PartialEq, Drop)]
pub struct Marked {
    /// What happened to the path.
    pub mark: Mark,
    /// The path.
    pub path: Path,
}

impl Marked {
    /// Returns a copy of this value.
    ///
    /// # Errors
    ///
    /// - `NoMemory` if an allocation fails.
    pub fn copy(&self) -> Result<Marked, NoMemory>
        ensures { IfOk result (λ marked. marked ≡ self.now) }
    {
        Ok(self.clone()?)
    }
}
