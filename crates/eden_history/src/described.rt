//! A path and its file without the bytes.

ghost use Rattle.std.specs.Prelude.{◌≡◌, IfOk};

use eden_ids::{NoMemory, Path};
use eden_objects::Stat;

/// A path with its file, without the file's bytes.
#[derive(Clone, Debug, PartialEq, Drop)]
pub struct Described {
    /// The path.
    pub path: Path,
    /// The file there.
    pub stat: Stat,
}

impl Described {
    /// Returns a copy of this value.
    ///
    /// # Errors
    ///
    /// - `NoMemory` if an allocation fails.
    pub fn copy(&self) -> Result<Described, NoMemory>
        ensures { IfOk result (λ described. described ≡ self.now) }
    {
        Ok(self.clone()?)
    }
}
