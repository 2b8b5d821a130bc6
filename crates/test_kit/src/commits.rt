//! Stores, and commits that they have.

use crate::objects::Objects;
use eden_ids::{GitNaming, Id};
use eden_objects::Store;
use std::alloc::Global;
use std::test::Fail;

/// A store, and commits that it has.
#[derive(Drop)]
pub struct Commits<const COUNT: usize> {
    /// The store.
    pub store: Store<GitNaming>,
    /// The ids of the commits.
    pub ids: [Id; COUNT],
}

impl<const COUNT: usize> Commits<COUNT> {
    /// The store of these objects, and the commits that the labels are bound to, of which there have to be as many.
    pub fn labelled(objects: Objects, labels: &[&str]) -> Commits<COUNT> {
        let mut ids = [Id::ZERO; COUNT];
        for (id, label) in ids.iter_mut().zip(labels) {
            *id = objects.id(label);
        }
        let Objects {
            store,
            labels: _labels,
        } = objects;
        Commits { store, ids }
    }
}

/// Commits of files and directories in each other's places, and of other kinds.
const FAMILY: &str =
    "blob x x;blob y y;tree below 100644 b y;tree deeper 100644 c x;tree far 40000 b deeper;tree other 100644 e x;\
    tree t 100644 a x 100644 a.b x 100755 b y;commit one t;\
    tree t 100644 a.b x 40000 a below 120000 a0 y 40000 d other;commit two t;\
    tree t 100755 a.b x 40000 a far 100644 d y;commit three t";

/// Makes the empty commit and three of files and directories in each other's places, and of other kinds.
pub fn family(alloc: Global) -> Result<Commits<4>, Fail> {
    let objects = Objects::of(alloc, FAMILY)?;
    Ok(Commits::labelled(objects, &["empty", "one", "two", "three"]))
}
