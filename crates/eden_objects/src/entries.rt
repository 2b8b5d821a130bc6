//! The entries of one tree, borrowed or copied.
ghost use Rattle.std.specs.Prelude.{◌≡◌, ◌∷◌, ◌++◌, [], map, option_copied, IfOk, OnOk};
ghost use Rattle.eden_git.specs.Trees.{entries_of};
ghost use Rattle.eden_objects.specs.Objects.{find, payload_of};
ghost use Rattle.eden_objects.specs.Closed.{HasTree};
ghost use Rattle.eden_objects.specs.internal.Kept.{TellsTree};
ghost use Rattle.eden_git.specs.Entries.{plain};
ghost use Rattle.eden_objects.specs.Walks.{tree_seen};
ghost use Rattle.eden_objects.specs.Readings.{tree_entries, tree_payload};
ghost use Rattle.eden_objects.specs.Copies.{copied, copied_all};

use crate::outline::Outline;
use crate::store::Store;
use crate::stored::{Body, Stored};
use eden_git::{RawEntry, Rows};
use eden_ids::{Id, Kind, Naming, NoMemory};
use std::alloc::Global;

/// An entry of a tree: a file or a directory.
#[derive(Debug, PartialEq, Drop)]
pub struct Entry {
    /// The name, which has no slash.
    pub name: Vec<u8>,
    /// The kind of the file; `None` for a directory.
    pub kind: Option<Kind>,
    /// The file's blob, or the directory's tree.
    pub id: Id,
}

/// Returns an entry with a copy of the name.
fn copy_of(alloc: Global, entry: &RawEntry<'_>) -> Result<Entry, NoMemory>
    ensures { IfOk result (λ copy. copied copy ≡ plain entry.now) }
{
    Ok(Entry {
        name: entry.name.to_vec(alloc)?,
        kind: entry.kind,
        id: entry.id,
    })
}

/// Adds an entry after the others.
fn push_copy(alloc: Global, found: &mut Vec<Entry>, entry: &RawEntry<'_>) -> Result<(), NoMemory>
    ensures { OnOk result (map copied found.new.items ≡ map copied found.old.items ++ plain entry.now ∷ []) }
{
    let copy = copy_of(alloc, entry)?;
    Ok(found.push(copy)?)
}

/// Returns copies of borrowed entries.
fn copies_of(alloc: Global, rows: &Rows<'_>) -> Result<Vec<Entry>, NoMemory>
    ensures { IfOk result (λ found. map copied found.items ≡ rows.now) }
{
    let mut found = Vec::new(alloc);
    'entries: for entry in rows.iter() {
        push_copy(alloc, &mut found, &entry)?;
    }
    Ok(found)
}

impl<N: Naming + Drop> Store<N> {
    /// Returns the tree of the commit with an id. Does not allocate.
    ///
    /// It is `None` if the id is not that of a commit in the store; the empty commit has
    /// no tree.
    pub fn tree_of(&self, commit: Id) -> Option<Id>
        ensures { result ≡ tree_seen (find commit self.now) }
    {
        match self.object(commit) {
            Some(object) => object.tree(),
            None => None,
        }
    }

    /// Returns the payload of the tree with an id, which `next_entry` reads.
    ///
    /// It is `None` if the id is not that of a tree. Does not allocate.
    pub fn tree(&self, id: Id) -> Option<&[u8]>
        ensures { option_copied result ≡ tree_payload self.now id }
    {
        match self.object(id) {
            Some(object) => object.entries(),
            None => None,
        }
    }

    /// Returns the entries of the tree with an id, with their columns.
    ///
    /// It is `None` if the id is not that of a tree. Does not allocate.
    pub fn rows(&self, id: Id) -> Option<Rows<'_>>
        ensures { result ≡ tree_entries self.now id }
    {
        match self.object(id) {
            Some(object) => object.rows(),
            None => None,
        }
    }

    /// Returns the entries of a tree, and what is kept of it.
    pub(crate) fn read_tree(&self, tree: Id) -> (Rows<'_>, &Outline)
        requires { HasTree self.now tree }
        ensures rows { result.0 ≡ entries_of (payload_of (find tree self.now)) }
        ensures kept { TellsTree self.now tree result.1.now }
    {
        match self.object(tree) {
            Some(
                Stored {
                    payload,
                    body: Body::Tree(outline),
                },
            ) => (Rows::new(payload.as_slice(), &outline.columns), outline),
            // The tree is there.
            _ => unreachable!(),
        }
    }

    /// Returns the entries of the tree with an id, in order.
    ///
    /// It is `None` if the id is not that of a tree.
    ///
    /// # Errors
    ///
    /// - `NoMemory` if an allocation fails.
    pub fn entries(&self, tree: Id) -> Result<Option<Vec<Entry>>, NoMemory>
        ensures { IfOk result (λ found. copied_all found ≡ tree_entries self.now tree) }
    {
        let Some(rows) = self.rows(tree) else {
            return Ok(None);
        };
        Ok(Some(copies_of(self.allocator(), &rows)?))
    }
}
