//! A mount takes objects as its store does.

ghost use Rattle.std.specs.Prelude.{◌≡◌, ◌≢◌, Ok, Err, IfOk, IfErr, OnErr, refl};
ghost use Rattle.eden_objects.specs.Imports.{put_typed};
ghost use Rattle.eden_objects.specs.Payloads.{payload_bytes};
ghost use Rattle.eden_history.specs.Imports.{over_held};
ghost use Rattle.eden_history.specs.Worlds.{WorldState};
ghost use Rattle.eden_accumulate.specs.Mounts.{StandsFor};

use crate::mount::Mount;
use eden_ids::{Id, Naming};
use eden_objects::{Importer, ObjectType, Payload, PutFault};

impl<N: Naming + Drop> Importer for Mount<N> {
    ghost name = { N.id };

    ghost held = { λ mount. mount.held };

    // The root, the files and the journal stay as they are.
    ghost over = { λ mount held. record mount { held = held } };

    ghost laws = { record { same = λ mount. refl; again = λ mount held more. refl } };

    fn put_object(&mut self, object_type: ObjectType, payload: Payload<'_>) -> Result<Id, PutFault>
        ensures ok { IfOk result (λ id. put_typed N.id object_type (payload_bytes payload.entry) self.old.held ≡ Ok (id, self.new.held)) }
        ensures err { OnErr result (self.new.held ≡ self.old.held) }
        ensures refuses { IfErr result (λ fault. fault ≢ PutFault.NoMemory → put_typed N.id object_type (payload_bytes payload.entry) self.old.held ≡ Err fault) }
        ensures only { self.new ≡ record (self.old) { held = self.new.held } }
        ensures stands { (world : WorldState) → StandsFor self.old world → StandsFor self.new (over_held world self.new.held) }
    {
        self.store.closed_law();
        let put = self.store.put_object(object_type, payload);
        self.store.closed_law();
        put
    }
}
