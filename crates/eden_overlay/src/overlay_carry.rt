//! The entries below a directory, carried to another one.

ghost use Rattle.std.specs.Prelude.{◌≡◌, ◌&&◌, true, false, List, ℕ, IsSome, OnOk, OnErr};
ghost use Rattle.std.specs.FinMap as fin;
ghost use Rattle.eden_ids.specs.Paths.{lies_below};
ghost use Rattle.eden_overlay.specs.Carried.{breaks};
ghost use Rattle.eden_overlay.specs.Layers.{IsCarried};
ghost use Rattle.eden_overlay.specs.internal.Carrying.{put_carried};

use crate::carried::{CarryFault, carried_path};
use crate::overlay::Overlay;
use eden_ids::{Content, Path};

/// Sets an entry where it is after the carry, if it is kept.
fn put_carried(
    next: &mut Overlay,
    entry: &(Path, Option<Content>),
    old: &Path,
    new: &Path,
) -> Result<(), CarryFault>
    ensures put { OnOk result (next.new ≡ put_carried old.now new.now next.old entry.now) }
    ensures accepts { OnOk result ((lies_below entry.now.0 old.now && breaks old.now new.now entry.now.0) ≡ false) }
{
    let place = if entry.0.is_below(old) {
        carried_path(next.allocator(), &entry.0, old, new)?
    } else if entry.0.is_below(new) {
        return Ok(());
    } else {
        entry.0.copy()?
    };
    next.set(place, Content::copy_of(&entry.1)?)?;
    Ok(())
}

impl Overlay {
    /// Moves the entries below `old` to the same places below `new`.
    ///
    /// The entries that were below `new` are dropped. If one is below either path, each entry is
    /// copied. No content is copied.
    ///
    /// # Errors
    ///
    /// - `PathTooLong` if one of these places is not a path.
    /// - `NoMemory` if an allocation fails.
    ///
    /// Both change nothing.
    pub fn carry(&mut self, old: &Path, new: &Path) -> Result<(), CarryFault>
        ensures carried { OnOk result (IsCarried self.old old.now new.now self.new) }
        ensures accepts { OnOk result ((p : List ℕ) → IsSome (fin.get self.old p) → lies_below p old.now ≡ true → breaks old.now new.now p ≡ false) }
        ensures same { OnErr result (self.new ≡ self.old) }
    {
        if !self.has_entry_below(old) && !self.has_entry_below(new) {
            return Ok(());
        }
        let mut next = Overlay::new(self.allocator());
        for entry in self.entries() {
            put_carried(&mut next, entry, old, new)?;
        }
        *self = next;
        Ok(())
    }
}
