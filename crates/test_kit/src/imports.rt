//! Imports drawn by lot, and the commits that changes go over to.

use crate::lot::Lot;
use crate::payload::{commit_of, push_entry};
use bytes::Bytes;
use eden_history::Change;
use eden_ids::{GitNaming, Id, Naming, Sequence};
use eden_objects::{Object, ObjectType};
use std::alloc::Global;
use std::test::Fail;

/// What files hold: the store has two of them from the beginning.
const TEXTS: [&str; 4] = ["x", "y", "z", "xyz"];

/// The modes of files.
const MODES: [&str; 3] = ["100644", "100755", "120000"];

/// An entry of a tree: its name, and which names are below it, each alone in its directory, the last one first. A file has none.
type Branch = (&'static str, &'static [&'static str]);

/// Trees whose files are at paths of changes.
const TREES: [&[Branch]; 4] = [
    &[("a", &[]), ("a.b", &[]), ("d", &["e"])],
    &[("a.b", &[]), ("a", &["b"]), ("a0", &[])],
    &[("a", &["c", "b"]), ("b", &[])],
    &[("b", &[]), ("d", &[])],
];

/// The commits that changes go over to: four that the store has from the beginning, and the one that the last import was to put into it,
/// in whose place the third one stands as long as there was none.
#[derive(Drop)]
pub struct Roots {
    first: [Id; 4],
    newest: Id,
}

impl Roots {
    /// Those of a store into which nothing was imported yet.
    pub fn new(first: &[Id; 4]) -> Roots {
        Roots {
            first: *first,
            newest: first[2],
        }
    }

    /// Draws one of them; as often as not the newest.
    pub(crate) fn one(&self, lot: &mut Lot) -> Id {
        let place = lot.below(8);
        self.first.get(place).copied().unwrap_or(self.newest)
    }

    /// Whether the store had no such commit in the beginning.
    pub(crate) fn is_imported(&self, commit: Id) -> bool {
        !self.first.contains(&commit)
    }
}

/// Objects that are imported together.
#[derive(Drop)]
struct Batch<'a> {
    alloc: Global,
    lot: &'a mut Lot,
    objects: Vec<Object>,
}

impl Batch<'_> {
    /// Adds an object, and gives its id. Now and then it is left out, so that an object that names it may name none.
    fn add(&mut self, object_type: ObjectType, payload: Vec<u8>) -> Result<Id, Fail> {
        let id = GitNaming.id_of(object_type.text(), payload.as_slice());
        if self.lot.below(20) > 0 {
            let payload = Bytes::copy_from_slice(self.alloc, payload.as_slice())?;
            self.objects.push(Object {
                object_type,
                payload,
            })?;
        }
        Ok(id)
    }

    /// Adds what a branch names, and the branch to a tree. Now and then a file has the mode of a directory.
    fn grow(&mut self, tree: &mut Vec<u8>, branch: Branch) -> Result<(), Fail> {
        let text = TEXTS[self.lot.below(4)].as_bytes().to_vec(self.alloc)?;
        let mut id = self.add(ObjectType::Blob, text)?;
        let mut mode = MODES[self.lot.below(3)];
        if self.lot.below(20) == 0 {
            mode = "40000";
        }
        let (top, below) = branch;
        for name in below {
            let mut directory = Vec::new(self.alloc);
            push_entry(&mut directory, mode, name.as_bytes(), id)?;
            id = self.add(ObjectType::Tree, directory)?;
            mode = "40000";
        }
        Ok(push_entry(tree, mode, top.as_bytes(), id)?)
    }

    /// Adds a commit and all that it names, and gives its id.
    fn grow_all(&mut self) -> Result<Id, Fail> {
        let mut tree = Vec::new(self.alloc);
        for branch in TREES[self.lot.below(4)] {
            self.grow(&mut tree, *branch)?;
        }
        let tree = self.add(ObjectType::Tree, tree)?;
        self.add(ObjectType::Commit, commit_of(self.alloc, tree, "")?)
    }
}

impl Lot {
    /// An import of a commit and of what it names. Some of that may be there already, or be missing.
    pub(crate) fn import(&mut self, alloc: Global, roots: &mut Roots) -> Result<Change, Fail> {
        let mut batch = Batch {
            alloc,
            lot: self,
            objects: Vec::new(alloc),
        };
        roots.newest = batch.grow_all()?;
        let objects = Sequence::from_vec(batch.objects);
        Ok(Change::Import { objects })
    }
}
