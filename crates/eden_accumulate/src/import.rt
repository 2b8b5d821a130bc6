//! Imports of objects into the store, all or none.

ghost use Rattle.std.specs.Prelude.{◌≡◌, ◌≢◌, IfOk, IfErr, OnOk, OnErr};
ghost use Rattle.eden_history.specs.declared.answer.Answer.TheVariants.{At};
ghost use Rattle.eden_history.specs.declared.change.Change.TheVariants.{Import};
ghost use Rattle.eden_accumulate.specs.Mounts.{Answers, Follows, Refuses};

use crate::mount::Mount;
use eden_history::{ChangeFault, Position};
use eden_ids::Naming;
use eden_objects::{ImportFault, Object};

impl<N: Naming + Drop> Mount<N> {
    /// Puts objects into the store, in order: all of them, or none.
    ///
    /// Each object must come after those that it refers to. An object may be there
    /// already. Files, root and journal stay as they are. Returns the present position.
    ///
    /// # Errors
    ///
    /// - `BadObject` with the index of the first object that the store refuses, and why;
    ///   nothing changes.
    /// - `NoMemory` if an allocation fails; it may be returned instead of any other answer;
    ///   nothing changes.
    pub fn import(&mut self, objects: &[Object]) -> Result<Position, ChangeFault>
        ensures answers { IfOk result (λ position. Answers N.id self.old (Import objects.now) (At position)) }
        ensures stands { OnOk result (Follows N.id self.old (Import objects.now) self.new) }
        ensures refuses { IfErr result (λ fault. fault ≢ ChangeFault.NoMemory → Refuses N.id self.old (Import objects.now) fault) }
        ensures unchanged { OnErr result (self.new ≡ self.old) }
    {
        self.store.closed_law();
        match self.store.import(objects) {
            Ok(()) => {
                self.store.closed_law();
                Ok(self.position())
            }
            Err(ImportFault::BadObject { place, fault }) => {
                Err(ChangeFault::BadObject { place, fault })
            }
            Err(ImportFault::NoMemory) => Err(ChangeFault::NoMemory),
        }
    }
}
