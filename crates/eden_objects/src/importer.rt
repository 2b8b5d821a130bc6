//! The interface of everything that takes objects.

use crate::fault::PutFault;
use crate::payload::Payload;
use eden_git::ObjectType;
use eden_ids::Id;

/// Something that takes objects of each type, one after another.
///
/// It is a store, or something that owns one; a reader of objects can fill either.
pub trait Importer {
    ghost use Rattle.std.specs.Prelude.{◌≡◌, ◌≢◌, ℕ, List, Ok, Err, IfOk, IfErr, OnErr};
    ghost use Rattle.eden_ids.specs.declared.id.Id.{Id};
    ghost use Rattle.eden_objects.specs.Objects.{Held};
    ghost use Rattle.eden_objects.specs.Imports.{IsOver, put_typed};
    ghost use Rattle.eden_objects.specs.Payloads.{payload_bytes};

    /// The rule that gives each object its id.
    ghost name: { List ℕ → List ℕ → Id };

    /// The objects that it has.
    ghost held: { Self → List Held };

    /// The same thing over these objects.
    ghost over: { Self → List Held → Self };

    ghost laws: { IsOver held over };

    /// Puts an object by its type's call, and returns its id.
    ///
    /// The calls are `Store::put_blob`, `put_tree` and `put_commit`. Nothing but the
    /// objects changes. A new object's payload is copied or shared, as it says.
    ///
    /// # Errors
    ///
    /// As of these calls. `NoMemory` may be returned instead of any other answer, also if a
    /// shared payload has as many owners as can be counted. Nothing changes.
    fn put_object(&mut self, object_type: ObjectType, payload: Payload<'_>) -> Result<Id, PutFault>
        ensures ok { IfOk result (λ id. put_typed name object_type (payload_bytes payload.entry) (held self.old) ≡ Ok (id, held self.new)) }
        ensures err { OnErr result (held self.new ≡ held self.old) }
        ensures refuses { IfErr result (λ fault. fault ≢ PutFault.NoMemory → put_typed name object_type (payload_bytes payload.entry) (held self.old) ≡ Err fault) }
        ensures only { self.new ≡ over self.old (held self.new) };
}
