//! Laws of mounts, as the contracts of functions that do nothing.

ghost use Rattle.eden_history.specs.Worlds.{WorldState};
ghost use Rattle.eden_accumulate.specs.Mounts.{StandsFor, StandsOver};

use crate::mount::Mount;
use eden_ids::Naming;

/// States what a mount is after its store has grown.
///
/// It is the present of the same histories, over these objects.
pub fn more_objects_law()
    ensures { StandsOver }
{}

impl<N: Naming + Drop> Mount<N> {
    /// States that a mount is the present of some world. Does not allocate.
    pub fn stands_law(&self)
        ensures { (world : WorldState) × StandsFor self.now world }
    {
        let _ = &self.store;
    }
}
