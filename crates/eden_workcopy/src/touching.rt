//! The touched paths, and one that is set.

ghost use Rattle.std.specs.Prelude.{◌≡◌, ◌++◌, ◌∷◌, [], List, IfOk, OnOk, OnErr, is_some};
ghost use Rattle.std.specs.FinMap as fin;
ghost use Rattle.eden_ids.specs.FileMaps.{put_option};
ghost use Rattle.eden_objects.specs.Objects.{Held};
ghost use Rattle.eden_workcopy.specs.Meanings.{means, touched_of};

use crate::work::WorkCopy;
use eden_ids::{Content, NoMemory, Path};

/// Adds the path of an entry, and whether a file is there.
fn add(touched: &mut Vec<(Path, bool)>, entry: &(Path, Option<Content>)) -> Result<(), NoMemory>
    ensures { OnOk result (touched.new.items ≡ touched.old.items ++ ((entry.now.0, is_some entry.now.1) ∷ [])) }
{
    let path = entry.0.copy()?;
    touched.push((path, entry.1.is_some()))?;
    Ok(())
}

impl WorkCopy {
    /// Returns the touched paths, in byte order, each with whether a file is there now.
    ///
    /// At any other path it holds what its root's commit holds, as renamed directories show it.
    /// `NoMemory` if an allocation fails.
    #[tactic(auto, using(eden_overlay::proofs::Touched::seen_more))]
    pub fn touched(&self) -> Result<Vec<(Path, bool)>, NoMemory>
        ensures { IfOk result (λ touched. touched.items ≡ touched_of self.now) }
    {
        let mut touched = Vec::new(self.overlay.allocator());
        for entry in self.overlay.entries() {
            add(&mut touched, entry)?;
        }
        Ok(touched)
    }

    /// Does what `set` does. Its contract says what becomes of the overlay too.
    pub(crate) fn put(&mut self, path: Path, file: Option<Content>) -> Result<(), NoMemory>
        ensures root { self.new.root ≡ self.old.root }
        ensures renames { self.new.renames ≡ self.old.renames }
        ensures overlay { OnOk result (self.new.overlay ≡ fin.insert self.old.overlay path file) }
        ensures files { OnOk result ((held : List Held) → means held self.new ≡ put_option (means held self.old) path file) }
        ensures same { OnErr result (self.new ≡ self.old) }
    {
        self.overlay.set(path, file)?;
        Ok(())
    }

    /// Puts a file at a path, or removes the one there, and asks nothing.
    ///
    /// The caller sees to it that root and changes make a file map: no file above or below another.
    /// `NoMemory` if an allocation fails; then nothing changes.
    pub fn set(&mut self, path: Path, file: Option<Content>) -> Result<(), NoMemory>
        ensures root { self.new.root ≡ self.old.root }
        ensures renames { self.new.renames ≡ self.old.renames }
        ensures files { OnOk result ((held : List Held) → means held self.new ≡ put_option (means held self.old) path file) }
        ensures same { OnErr result (self.new ≡ self.old) }
    {
        self.put(path, file)
    }
}
