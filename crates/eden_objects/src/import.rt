//! Imports: objects that are put one after another, all or none.
ghost use Rattle.std.specs.Prelude.{◌≡◌, ◌≢◌, Ok, Err, IfErr, OnOk, OnErr};
ghost use Rattle.eden_objects.specs.Imports.{import_outcome};
ghost use Rattle.eden_objects.specs.internal.Placed.{fault_at};
ghost use Rattle.eden_objects.specs.declared.import.ImportFault.TheVariants as fault;

use crate::fault::PutFault;
use crate::importer::Importer;
use crate::payload::Payload;
use crate::store::Store;
use bytes::Bytes;
use eden_git::ObjectType;
use eden_ids::{Id, Naming, NoMemory};
use thiserror::Error;

/// An object to be imported: its type and its payload.
///
/// A naming gives it its id. Copies of an object share its payload.
#[derive(Clone, Debug, PartialEq, Drop)]
pub struct Object {
    /// The object's type: blob, tree or commit.
    pub object_type: ObjectType,
    /// Its payload, as the put call of its type takes it.
    pub payload: Bytes,
}

/// Why objects are not imported.
#[derive(Clone, Copy, Debug, PartialEq, Eq, Error)]
pub enum ImportFault {
    /// An object is refused: the first that is, put after the objects before it.
    #[error("BadObject")]
    BadObject {
        /// The object's index among those that are imported, from 0.
        place: u64,
        /// The fault of its put call, never `NoMemory`.
        fault: PutFault,
    },
    /// An allocation failed.
    #[error("NoMemory")]
    NoMemory,
}

impl From<NoMemory> for ImportFault {
    ghost from_gives = { λ _ e. e ≡ fault.NoMemory };

    fn from(_e: NoMemory) -> ImportFault {
        ImportFault::NoMemory
    }
}

/// Returns the import's fault for that of an object.
fn refused(place: u64, fault: PutFault) -> ImportFault
    ensures { result ≡ fault_at place fault }
{
    match fault {
        PutFault::NoMemory => ImportFault::NoMemory,
        fault => ImportFault::BadObject { place, fault },
    }
}

impl<N: Naming + Drop> Importer for Store<N> {
    ghost use Rattle.std.specs.Prelude.{refl};

    ghost name = { N.id };

    ghost held = { λ store. store };

    ghost over = { λ _ held. held };

    ghost laws = { record { same = λ store. refl; again = λ store held more. refl } };

    fn put_object(
        &mut self,
        object_type: ObjectType,
        payload: Payload<'_>,
    ) -> Result<Id, PutFault> {
        match object_type {
            ObjectType::Blob => self.put_as_blob(payload),
            ObjectType::Tree => self.put_as_tree(payload),
            ObjectType::Commit => self.put_as_commit(payload),
        }
    }
}

impl<N: Naming + Drop> Store<N> {
    /// Puts objects one after another, up to the first that is refused.
    fn put_all(&mut self, objects: &[Object]) -> Result<(), ImportFault>
        ensures ok { OnOk result (import_outcome N.id objects.now self.old ≡ Ok self.new) }
        ensures refuses { IfErr result (λ fault. fault ≢ ImportFault.NoMemory → import_outcome N.id objects.now self.old ≡ Err fault) }
    {
        'objects: for place in 0..objects.len() {
            let object = &objects[place];
            let payload = Payload::Shared(&object.payload);
            if let Err(fault) = self.put_object(object.object_type, payload) {
                return Err(refused(place as u64, fault));
            }
        }
        Ok(())
    }

    /// Imports objects: puts each of them in order, or none of them.
    ///
    /// Each is put by the call of its type. An object that is there already is skipped. The
    /// store shares the payloads of the others, and copies none. A commit of the store keeps
    /// its files, no matter what is imported (`grown_law`).
    /// Besides what the put calls allocate, the objects are prepared for the next copy of
    /// the store (`share`), which then takes a few pointers.
    ///
    /// # Errors
    ///
    /// - `BadObject` at the first object that its put call refuses, after those before
    ///   it; nothing changes.
    /// - `NoMemory` if an allocation fails; it may be returned instead of any other answer;
    ///   nothing changes.
    pub fn import(&mut self, objects: &[Object]) -> Result<(), ImportFault>
        ensures ok { OnOk result (import_outcome N.id objects.now self.old ≡ Ok self.new) }
        ensures err { OnErr result (self.new ≡ self.old) }
        ensures refuses { IfErr result (λ fault. fault ≢ ImportFault.NoMemory → import_outcome N.id objects.now self.old ≡ Err fault) }
    {
        let before = self.share()?;
        match self.put_all(objects) {
            Ok(()) => {
                self.rest();
                Ok(())
            }
            Err(fault) => {
                *self = before;
                Err(fault)
            }
        }
    }
}
