//! The objects that a script begins with and puts, and the labels that are bound to them.

ghost use Rattle.std.specs.Prelude.{◌≡◌, ◌++◌, ◌∷◌, IfOk, OnOk, Option, List};
ghost use Rattle.std.specs.Option.{option_map};
ghost use Rattle.eden_objects.specs.Objects.{Held};
ghost use Rattle.eden_objects.specs.Puts.{Outcome};
ghost use Rattle.eden_history.specs.Worlds.{WorldState};
ghost use Rattle.eden_script.specs.Sessions.{commit_payload, object_of, object_with, objects_in, put_acted, put_label, tree_payload};
ghost use Rattle.eden_edend.specs.internal.Standing.{session_of, session_put, Gave};

use crate::labels::Labels;
use bytes::Bytes;
use eden_ids::{GitNaming, Id, NoMemory};
use eden_objects::{Object, ObjectType, PutFault, Store};
use eden_script::{Label, PutLine, Refusal, Told, TreeEntry, push_bytes, push_id};
use std::alloc::{AllocError, Global};
use std::mem;

/// Adds an entry of a tree: its mode, a space, its name, NUL and the id's bytes.
fn push_entry(payload: &mut Vec<u8>, entry: &TreeEntry, id: Id) -> Result<(), AllocError>
    ensures { OnOk result (payload.new.items ≡ payload.old.items ++ (entry.now.mode ++ 32 ∷ entry.now.name ++ 0 ∷ id.0)) }
{
    push_bytes(payload, entry.mode.as_bytes())?;
    push_bytes(payload, b" ".as_slice())?;
    push_bytes(payload, entry.name.as_bytes())?;
    push_bytes(payload, b"\0".as_slice())?;
    push_bytes(payload, id.0.as_slice())
}

/// Returns the payload of a tree, or `None` if a label is not bound.
#[tactic(auto, using(crate::proofs::PayloadLemmas::payload_none))]
fn tree_payload(
    alloc: Global,
    labels: &Labels,
    entries: &[TreeEntry],
) -> Result<Option<Vec<u8>>, AllocError>
    ensures { IfOk result (λ payload. option_map (λ v. v.items) payload ≡ tree_payload labels.now entries.now) }
{
    let mut payload = Vec::new(alloc);
    for entry in entries {
        match labels.get(&entry.label) {
            Some(id) => push_entry(&mut payload, entry, id)?,
            None => return Ok(None),
        }
    }
    Ok(Some(payload))
}

/// Returns the payload of a commit of this tree.
fn commit_payload(alloc: Global, tree: Option<Id>) -> Result<Option<Vec<u8>>, AllocError>
    ensures { IfOk result (λ payload. option_map (λ v. v.items) payload ≡ commit_payload tree) }
{
    let Some(tree) = tree else {
        return Ok(None);
    };
    let mut payload = Vec::new(alloc);
    push_bytes(&mut payload, b"tree ".as_slice())?;
    push_id(&mut payload, &tree)?;
    push_bytes(&mut payload, b"\n".as_slice())?;
    Ok(Some(payload))
}

/// Returns the object of this type, if there is a payload, which is moved.
fn object_with(
    object_type: ObjectType,
    payload: Option<Vec<u8>>,
) -> Result<Option<Object>, NoMemory>
    ensures { IfOk result (λ object. object ≡ object_with object_type (option_map (λ v. v.items) payload)) }
{
    match payload {
        Some(payload) => {
            let payload = Bytes::from_vec(payload)?;
            Ok(Some(Object {
                object_type,
                payload,
            }))
        }
        None => Ok(None),
    }
}

/// Returns the label that a line binds, and the object that it names.
///
/// There is no object if a label in the line is not bound.
pub(crate) fn object_of(
    alloc: Global,
    labels: &Labels,
    line: PutLine,
) -> Result<(Label, Option<Object>), NoMemory>
    ensures { IfOk result (λ named. named ≡ (put_label line, object_of labels.now line)) }
{
    match line {
        PutLine::Blob { label, bytes } => {
            let object = object_with(ObjectType::Blob, Some(bytes.into_bytes()))?;
            Ok((label, object))
        }
        PutLine::Tree { label, entries } => {
            let payload = tree_payload(alloc, labels, entries.as_slice())?;
            let object = object_with(ObjectType::Tree, payload)?;
            Ok((label, object))
        }
        PutLine::Commit { label, tree } => {
            let payload = commit_payload(alloc, labels.get(&tree))?;
            let object = object_with(ObjectType::Commit, payload)?;
            Ok((label, object))
        }
    }
}

/// Binds the label to what was put, or says why nothing was.
#[tactic(auto, using(crate::proofs::PutSteps::put_bound, crate::proofs::PutSteps::put_refused))]
pub(crate) fn bind_put(
    labels: &mut Labels,
    label: Label,
    put: Result<Id, PutFault>,
) -> Result<Told<'static>, NoMemory>
    ensures { (mounted : Option WorldState) (held more : List Held) (outcome : Outcome) → Gave put (objects_in held mounted) more outcome
        → IfOk result (λ told. put_acted (session_of mounted held labels.old) label outcome ≡ (session_put mounted held more labels.new, told)) }
{
    match put {
        Ok(id) => {
            labels.bind(label, id)?;
            Ok(Told::Done)
        }
        Err(PutFault::NoMemory) => Err(NoMemory),
        Err(fault) => Ok(Told::Refused(Refusal::Put(fault))),
    }
}

/// Holds the objects, and the labels that are bound to them.
///
/// A mount takes the store. The store that is left has no object.
#[derive(Drop)]
pub struct Objects {
    /// The objects.
    pub store: Store<GitNaming>,
    /// What each label is bound to.
    pub labels: Labels,
}

impl Objects {
    ghost use Rattle.std.specs.Prelude.{[]};

    /// Makes a store without objects, and no binding.
    ///
    /// Does not allocate.
    pub fn new(alloc: Global) -> Objects
        ensures store { result.store ≡ [] }
        ensures labels { result.labels ≡ [] }
    {
        Objects {
            store: Store::new(alloc, GitNaming),
            labels: Labels::new(alloc),
        }
    }

    /// Takes the store, and leaves one with no object.
    pub(crate) fn take_store(&mut self, alloc: Global) -> Store<GitNaming>
        ensures store { result ≡ self.old.store }
        ensures labels { self.new.labels ≡ self.old.labels }
    {
        mem::replace(&mut self.store, Store::new(alloc, GitNaming))
    }
}
