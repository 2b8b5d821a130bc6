//! The store: its objects, its put calls, and its copies.
ghost use Rattle.std.specs.Prelude.{◌≡◌, ◌≤◌, ◌∷◌, [], None, IfOk, OnOk, OnErr, length, option_copied};
ghost use Rattle.eden_objects.specs.Objects.{find};
ghost use Rattle.eden_git.specs.ObjectTypes.{type_text};
ghost use Rattle.eden_objects.specs.Puts.{PutGives, TreeGives, put_outcome, blob_outcome, commit_outcome, named, tree_outcome};
ghost use Rattle.eden_objects.specs.Closed.{IsClosed, IsSound, AllNamed};
ghost use Rattle.eden_objects.specs.Small.{AreSmall, IsSmall};
ghost use Rattle.eden_objects.specs.Contents.{held_of, type_of};
ghost use Rattle.eden_objects.specs.internal.Kept.{option_held, IfTree, IsReadFrom, Measures, OutlineFits, TellsKept};
ghost use Rattle.eden_objects.specs.Payloads.{payload_bytes};

use crate::fault::PutFault;
use crate::payload::Payload;
use crate::stored::{Body, Stored};
use eden_ids::{Id, Naming, NoMemory, bytes_law};
use eden_segments::Table;
use std::alloc::Global;
use std::marker::Model;

/// The most bytes of an object's payload: 8 MiB.
pub(crate) const PAYLOAD_LIMIT: usize = 8_388_608;

/// A store of Git's objects: blobs, trees and commits, each under its id.
///
/// A naming gives the ids. An object refers only to earlier ones, so a tree or a commit
/// is put after everything that it refers to. Each id names one object, forever. Objects
/// are kept in memory, uncompressed, and copies of a store share them (`share`).
#[derive(Drop)]
pub struct Store<N: Naming + Drop> {
    objects: Table<Stored>,
    naming: N,
}

impl<N: Naming + Drop> Model for Store<N> {
    ghost use Rattle.std.specs.Prelude.{List};
    ghost use Rattle.eden_objects.specs.Objects.{Held};
    ghost use Rattle.eden_objects.specs.Closed.{IsClosed, AllNamed};
    ghost use Rattle.eden_objects.specs.Small.{AreSmall};
    ghost use Rattle.eden_objects.specs.Contents.{helds};
    ghost use Rattle.eden_objects.specs.internal.Kept.{AreMeasured};

    ghost Value = { List Held };

    ghost view = { λ s. helds s.objects };

    ghost invariant = { λ s. IsClosed (helds s.objects)
        × AllNamed N.id (helds s.objects)
        × AreMeasured s.objects
        × AreSmall (helds s.objects) };
}

impl<N: Naming + Drop> Store<N> {
    /// Returns a store without objects, whose ids this naming gives.
    pub fn new(alloc: Global, naming: N) -> Store<N>
        ensures { result ≡ [] }
    {
        Store {
            objects: Table::new(alloc),
            naming,
        }
    }

    /// Puts a blob and returns its id.
    ///
    /// The same blob may be there already. The payload is the bytes of a file or the
    /// target of a link.
    ///
    /// # Errors
    ///
    /// The first of these that applies; nothing changes:
    ///
    /// - `TooLarge` if there are more than 8,388,608 bytes.
    /// - `ZeroId` if the id is that of the empty commit.
    /// - `IdTaken` if another object has the id.
    ///
    /// `NoMemory` if an allocation fails, only where the blob would have been added;
    /// nothing changes.
    pub fn put_blob(&mut self, payload: &[u8]) -> Result<Id, PutFault>
        ensures { PutGives result self.old self.new (blob_outcome N.id payload.now self.old) }
    {
        self.put_as_blob(Payload::Copied(payload))
    }

    /// Puts a tree and returns its id.
    ///
    /// The same tree may be there already. The payload is the tree's entries in Git's
    /// format: each is a mode in octal digits, a space, a name, a NUL byte and the 20
    /// bytes of an id.
    ///
    /// The time grows with the payload's length and, for n entries, with n log n; no
    /// child is read. Besides the payload it keeps the columns of the entries
    /// (`eden_git::Columns`), by which names are found and trees compared.
    ///
    /// # Errors
    ///
    /// The first of these that applies; nothing changes:
    ///
    /// - `TooLarge` if there are more than 8,388,608 bytes.
    /// - At the first entry that has one of these faults, in the order in which an entry
    ///   is read: `CutShort` if the payload ends inside it; `BadMode`; `BadName`;
    ///   `Duplicate` if an earlier entry has the name; `OutOfOrder` if the names do not
    ///   ascend, a directory's taken with a slash after it; `MissingChild`;
    ///   `WrongChildKind`.
    /// - `TooDeep` if a path would have more than 64 components.
    /// - `PathTooLong` if a path would have more than 1,024 bytes.
    /// - `ZeroId` if the id is that of the empty commit.
    /// - `IdTaken` if another object has the id.
    ///
    /// `NoMemory` if an allocation fails; it may be returned instead of any answer but
    /// `TooLarge`; nothing changes.
    pub fn put_tree(&mut self, payload: &[u8]) -> Result<Id, PutFault>
        ensures { TreeGives result self.old self.new payload.now (tree_outcome N.id payload.now self.old) }
    {
        self.put_as_tree(Payload::Copied(payload))
    }

    /// Puts a commit and returns its id.
    ///
    /// The same commit may be there already. The payload begins with `tree `, the 40
    /// lowercase hexadecimal digits of a tree's id and a line feed. What follows the
    /// first line is kept but not read.
    ///
    /// # Errors
    ///
    /// The first of these that applies; nothing changes:
    ///
    /// - `TooLarge` if there are more than 8,388,608 bytes.
    /// - `CutShort` if there are fewer than 46 bytes.
    /// - `BadCommit` if the payload does not begin as it must.
    /// - `MissingChild` if the object that it names is not in the store.
    /// - `WrongChildKind` if that object is not a tree.
    /// - `ZeroId` if the id is that of the empty commit.
    /// - `IdTaken` if another object has the id.
    ///
    /// `NoMemory` if an allocation fails, only where the commit would have been added;
    /// nothing changes.
    pub fn put_commit(&mut self, payload: &[u8]) -> Result<Id, PutFault>
        ensures { PutGives result self.old self.new (commit_outcome N.id payload.now self.old) }
    {
        self.put_as_commit(Payload::Copied(payload))
    }

    /// Returns the object with an id.
    pub(crate) fn object(&self, id: Id) -> Option<&Stored>
        ensures found { option_held id (option_copied result) ≡ find id self.now }
        ensures kept { TellsKept self.now id (option_copied result) }
    {
        self.objects.get(id)
    }

    /// States what holds of every store.
    ///
    /// An object has one id and refers to earlier ones of the right types; its id is the
    /// naming's; and its payload has at most 8 MiB.
    pub fn closed_law(&self)
        ensures closed { IsClosed self.now }
        ensures named { AllNamed N.id self.now }
        ensures small { AreSmall self.now }
    {
        let _ = &self.objects;
    }

    /// Returns the naming that gives the ids. Does not allocate.
    pub fn naming(&self) -> N {
        self.naming
    }

    /// Returns the store's allocator.
    pub fn allocator(&self) -> Global {
        self.objects.allocator()
    }

    /// Returns a copy of the store, with the same objects.
    ///
    /// Objects that are put into either of the two later are not in the other. No payload
    /// is copied: for n objects, a copy takes at most about log n pointers. Objects that
    /// were put since the last copy are prepared first, which takes a few pointers for
    /// each of them, and now and then for each object.
    ///
    /// # Errors
    ///
    /// - `NoMemory` if an allocation fails, or an object has as many owners as can be
    ///   counted; nothing changes.
    pub fn share(&mut self) -> Result<Store<N>, NoMemory>
        ensures copy { IfOk result (λ copy. copy ≡ self.old) }
        ensures same { self.new ≡ self.old }
    {
        Ok(Store {
            objects: self.objects.share()?,
            naming: self.naming,
        })
    }

    /// Prepares new objects for the next copy.
    ///
    /// They are those that were put since the last copy; the next one then takes a few
    /// pointers.
    pub(crate) fn rest(&mut self)
        ensures { self.new ≡ self.old }
    {
        self.objects.freeze();
    }

    fn add(&mut self, id: Id, object: Stored) -> Result<(), NoMemory>
        requires fresh { find id self.old ≡ None }
        requires sound { IsSound (type_of object.body) object.payload self.old }
        requires named { N.id (type_text (type_of object.body)) object.payload ≡ id }
        requires measured { Measures self.old object }
        requires small { IsSmall (held_of id object) }
        ensures ok { OnOk result (self.new ≡ held_of id object ∷ self.old) }
        ensures err { OnErr result (self.new ≡ self.old) }
    {
        self.objects.add(id, object)
    }

    /// Puts a new object, or finds it there.
    fn put(&mut self, payload: Payload<'_>, body: Body) -> Result<Id, PutFault>
        requires sound { IsSound (type_of body) (payload_bytes payload) self.old }
        requires read { IsReadFrom (payload_bytes payload) body }
        requires fits { IfTree body (OutlineFits self.old (payload_bytes payload)) }
        requires small { length (payload_bytes payload) ≤ 8388608 }
        ensures { PutGives result self.old self.new (put_outcome (named N.id (type_of body) (payload_bytes payload.entry)) self.old) }
    {
        let bytes = payload.as_slice();
        bytes_law(bytes);
        let object_type = body.object_type();
        let id = self.naming.id_of(object_type.text(), bytes);
        if id == Id::ZERO {
            return Err(PutFault::ZeroId);
        }
        if let Some(held) = self.object(id) {
            return held.id_or_taken(id, object_type, bytes);
        }
        let payload = payload.to_bytes(self.allocator())?;
        self.add(id, Stored { payload, body })?;
        Ok(id)
    }

    /// Puts a blob, and copies or shares its payload.
    pub(crate) fn put_as_blob(&mut self, payload: Payload<'_>) -> Result<Id, PutFault>
        ensures { PutGives result self.old self.new (blob_outcome N.id (payload_bytes payload.entry) self.old) }
    {
        if payload.as_slice().len() > PAYLOAD_LIMIT {
            return Err(PutFault::TooLarge);
        }
        self.put(payload, Body::Blob)
    }

    /// Puts a tree, and copies or shares its payload.
    pub(crate) fn put_as_tree(&mut self, payload: Payload<'_>) -> Result<Id, PutFault>
        ensures { TreeGives result self.old self.new (payload_bytes payload.entry) (tree_outcome N.id (payload_bytes payload.entry) self.old) }
    {
        let bytes = payload.as_slice();
        if bytes.len() > PAYLOAD_LIMIT {
            return Err(PutFault::TooLarge);
        }
        let outline = self.outline_of(bytes)?;
        self.put(payload, Body::Tree(outline))
    }

    /// Puts a commit, and copies or shares its payload.
    pub(crate) fn put_as_commit(&mut self, payload: Payload<'_>) -> Result<Id, PutFault>
        ensures { PutGives result self.old self.new (commit_outcome N.id (payload_bytes payload.entry) self.old) }
    {
        let tree = self.tree_of_commit(payload.as_slice())?;
        self.put(payload, Body::Commit { tree })
    }
}
