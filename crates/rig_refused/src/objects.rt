//! Objects that are put, and the paths on which two commits differ.

use crate::refusals::{Refusals, again, keep};
use crate::steps::OneFile;
use crate::told::text_of;
use anyhow::{Result, bail};
use eden_ids::{GitNaming, Id, Naming, Path};
use eden_objects::{CommitFault, Importer, ObjectType, Payload, PutFault, Store};
use eden_treediff::diff;
use std::alloc::{AllocError, Global};
use test_kit::{commit_of, tree_of};

/// An object, and the id that it has.
#[derive(Drop)]
pub(crate) struct Made {
    pub(crate) object_type: ObjectType,
    pub(crate) payload: Vec<u8>,
    pub(crate) id: Id,
}

/// The object of a payload.
fn object_of(object_type: ObjectType, payload: Vec<u8>) -> Made {
    let id = GitNaming.id_of(object_type.text(), payload.as_slice());
    Made {
        object_type,
        payload,
        id,
    }
}

impl Made {
    /// Whether a store has it.
    pub(crate) fn is_in(&self, store: &Store<GitNaming>) -> bool {
        has(store, self.object_type, self.id, self.payload.as_slice())
    }
}

/// A commit of one plain file: the file, the tree and the commit.
pub(crate) fn objects_of(alloc: Global, file: OneFile) -> Result<Vec<Made>, AllocError> {
    let (_, path, text) = file;
    let blob = object_of(ObjectType::Blob, text.as_bytes().to_vec(alloc)?);
    let tree = object_of(
        ObjectType::Tree,
        tree_of(alloc, &[("100644", path, blob.id)])?,
    );
    let commit = object_of(ObjectType::Commit, commit_of(alloc, tree.id, "")?);
    Ok(vec![in alloc; blob, tree, commit]?)
}

/// Puts an object.
pub(crate) fn put(
    store: &mut Store<GitNaming>,
    object_type: ObjectType,
    payload: &[u8],
) -> Result<Id, PutFault> {
    store.put_object(object_type, Payload::Copied(payload))
}

/// A store, and what was put into it so far.
#[derive(Drop)]
struct Putting {
    alloc: Global,
    refusals: Refusals,
    store: Store<GitNaming>,
    known: Vec<Made>,
}

/// Whether a store has an object of a kind under an id.
fn has(store: &Store<GitNaming>, object_type: ObjectType, id: Id, payload: &[u8]) -> bool {
    match object_type {
        ObjectType::Blob => store.blob(id) == Some(payload),
        ObjectType::Tree => store.tree(id) == Some(payload),
        ObjectType::Commit => store.has_commit(id),
    }
}

impl Putting {
    fn new(alloc: Global) -> Putting {
        Putting {
            alloc,
            refusals: Refusals::new(),
            store: Store::new(alloc, GitNaming),
            known: Vec::new(alloc),
        }
    }

    /// The store has what was put, and not what was refused.
    fn is_as_before(&self, object_type: ObjectType, payload: &[u8]) -> bool {
        let id = GitNaming.id_of(object_type.text(), payload);
        let kept = self.known.iter().all(|known| known.is_in(&self.store));
        kept && !has(&self.store, object_type, id, payload)
    }

    /// Puts an object, and again where memory was refused.
    fn put(&mut self, object_type: ObjectType, payload: &[u8]) -> Result<Id> {
        let id = match put(&mut self.store, object_type, payload) {
            Err(PutFault::NoMemory) => {
                self.refusals.add();
                if !self.is_as_before(object_type, payload) {
                    bail!("a put that was refused memory changed the store");
                }
                put(&mut self.store, object_type, payload)?
            }
            answered => answered?,
        };
        let alloc = self.alloc;
        let payload = again!(self.refusals, _, payload.to_vec(alloc));
        keep(
            &mut self.refusals,
            &mut self.known,
            Made {
                object_type,
                payload,
                id,
            },
        )?;
        Ok(id)
    }
}

/// The text of an id.
pub(crate) fn tell_id(rt: &HostRuntime, name: &str, id: Id) -> Result<()> {
    let digits = id.to_hex();
    println!(rt; "{name} {}", text_of(digits.as_slice())?)?;
    Ok(())
}

/// Puts a tree of these entries.
fn put_tree(putting: &mut Putting, entries: &[(&str, &str, Id)]) -> Result<Id> {
    let alloc = putting.alloc;
    let payload = again!(putting.refusals, _, tree_of(alloc, entries));
    putting.put(ObjectType::Tree, payload.as_slice())
}

/// Puts a commit of a tree.
fn put_commit(putting: &mut Putting, tree: Id) -> Result<Id> {
    let alloc = putting.alloc;
    let payload = again!(putting.refusals, _, commit_of(alloc, tree, ""));
    putting.put(ObjectType::Commit, payload.as_slice())
}

fn paths_between(
    alloc: Global,
    store: &Store<GitNaming>,
    first: Id,
    second: Id,
) -> Result<Vec<Path>, CommitFault> {
    diff(alloc, store, first, second)
}

/// The paths on which two commits differ.
fn differing(putting: &mut Putting, first: Id, second: Id) -> Result<Vec<Path>> {
    let alloc = putting.alloc;
    Ok(again!(
        putting.refusals,
        CommitFault::NoMemory,
        paths_between(alloc, &putting.store, first, second)
    ))
}

/// Puts two commits, in the second of which a directory stands where the first has a file. Gives the ids of the blob, of the first tree and commit,
/// of the directory, and of the second tree and commit.
fn put_both(putting: &mut Putting) -> Result<[Id; 6]> {
    let x = putting.put(ObjectType::Blob, b"x".as_slice())?;
    let t = put_tree(putting, &[("100644", "a", x), ("100644", "a.b", x)])?;
    let c = put_commit(putting, t)?;
    let s = put_tree(putting, &[("100644", "b", x)])?;
    let u = put_tree(putting, &[("100644", "a.b", x), ("40000", "a", s)])?;
    let d = put_commit(putting, u)?;
    Ok([x, t, c, s, u, d])
}

/// Puts them, and tells their ids and where the commits differ.
fn put_and_tell(rt: &HostRuntime, putting: &mut Putting) -> Result<()> {
    let [x, t, c, s, u, d] = put_both(putting)?;
    for (name, id) in [("x", x), ("t", t), ("c", c), ("s", s), ("u", u), ("d", d)] {
        tell_id(rt, name, id)?;
    }
    for path in &differing(putting, c, d)? {
        println!(rt; "differ {}", text_of(path.as_bytes())?)?;
    }
    Ok(())
}

/// Puts two commits into an empty store.
pub(crate) fn puts(rt: &HostRuntime) -> Result<u64> {
    let mut putting = Putting::new(rt.alloc());
    put_and_tell(rt, &mut putting)?;
    Ok(putting.refusals.count())
}
