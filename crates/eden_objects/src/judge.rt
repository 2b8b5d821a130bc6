//! The check whether an object may be put.
ghost use Rattle.std.specs.Prelude.{◌≡◌, ◌≢◌, ◌≤◌, List, [], ◌∷◌, length, Some, None, IfOk, IfErr};
ghost use Rattle.eden_objects.specs.Objects.{find};
ghost use Rattle.eden_git.specs.Columns.{AreColumns};
ghost use Rattle.eden_git.specs.Trees.{Entry, entries_of};
ghost use Rattle.eden_objects.specs.Trees.{depth_of, entries_depth, entries_reach, reach_of, tree_depth, tree_reach};
ghost use Rattle.eden_objects.specs.Closed.{IsHeld, IsSound};
ghost use Rattle.eden_objects.specs.internal.Earlier.{HasSeen};
ghost use Rattle.eden_git.specs.Entries.{plain};
ghost use Rattle.eden_objects.specs.internal.Kept.{OutlineFits, files_of_entries};
ghost use Rattle.eden_git.specs.Commits.{tree_named};
ghost use Rattle.eden_objects.specs.Puts.{child_fault, commit_fault, entries_fault, entry_fault, tree_fault, type_wanted};

use crate::earlier_entries::Seen;
use crate::fault::PutFault;
use crate::outline::Outline;
use crate::size::Size;
use crate::store::{PAYLOAD_LIMIT, Store};
use eden_git::{Columns, ObjectType, RawEntry, read_entry, same_type, tree_named};
use eden_ids::{Id, Kind, Naming};
use eden_segments::Counted;

/// Returns the type that an entry must refer to: a tree for a directory, a blob for a
/// file.
fn type_wanted(kind: Option<Kind>) -> ObjectType
    ensures { result ≡ type_wanted kind }
{
    match kind {
        None => ObjectType::Tree,
        Some(_) => ObjectType::Blob,
    }
}

impl<N: Naming + Drop> Store<N> {
    /// Returns why an entry cannot refer to an id as this type.
    fn child_fault(&self, object_type: ObjectType, id: Id) -> Option<PutFault>
        ensures { result ≡ child_fault object_type (find id self.now) }
    {
        let Some(object) = self.object(id) else {
            return Some(PutFault::MissingChild);
        };
        if same_type(object.body.object_type(), object_type) {
            None
        } else {
            Some(PutFault::WrongChildKind)
        }
    }

    /// Returns the tree that a commit names, or the payload's fault.
    pub(crate) fn tree_of_commit(&self, payload: &[u8]) -> Result<Id, PutFault>
        ensures passes { IfOk result (λ tree. commit_fault payload.now self.now ≡ None) }
        ensures named { IfOk result (λ tree. tree_named payload.now ≡ Some tree) }
        ensures refuses { IfErr result (λ fault. commit_fault payload.now self.now ≡ Some fault) }
    {
        if payload.len() > PAYLOAD_LIMIT {
            return Err(PutFault::TooLarge);
        }
        if payload.len() < 46 {
            return Err(PutFault::CutShort);
        }
        let Some(tree) = tree_named(payload) else {
            return Err(PutFault::BadCommit);
        };
        match self.child_fault(ObjectType::Tree, tree) {
            None => Ok(tree),
            Some(fault) => Err(fault),
        }
    }

    /// Returns why an entry cannot follow the earlier ones.
    fn entry_fault<'a>(&self, seen: &Seen<'a>, entry: &RawEntry<'a>) -> Option<PutFault>
        ensures { (earlier : List Entry) → HasSeen seen.now earlier → result ≡ entry_fault self.now earlier (plain entry.now) }
    {
        if seen.has_name(entry.name) {
            Some(PutFault::Duplicate)
        } else if !seen.is_below(entry) {
            Some(PutFault::OutOfOrder)
        } else {
            self.child_fault(type_wanted(entry.kind), entry.id)
        }
    }

    /// Returns the size of an entry and the number of its files.
    fn measure_of(&self, entry: &RawEntry<'_>) -> (Size, usize)
        requires { IsHeld self.now (type_wanted entry.now.kind) entry.now.id }
        ensures depth { result.0.depth ≡ depth_of entry.now.kind (tree_depth self.now entry.now.id) }
        ensures reach { result.0.reach ≡ reach_of entry.now.name.now entry.now.kind (tree_reach self.now entry.now.id) }
        ensures files { result.1 ≡ files_of_entries self.now (plain entry.now ∷ []) }
    {
        let length = entry.name.len();
        if entry.kind.is_some() {
            let size = Size {
                depth: 1,
                reach: length,
            };
            return (size, 1);
        }
        let (_, outline) = self.read_tree(entry.id);
        let child = outline.size;
        let size = Size {
            depth: 1 + child.depth,
            reach: length + 1 + child.reach,
        };
        (size, outline.files)
    }

    /// Returns what is kept of a tree with these entries, which it reads once.
    ///
    /// If an entry has a fault, the first one is returned instead.
    fn judged(&self, payload: &[u8]) -> Result<Outline, PutFault>
        requires { length payload.now ≤ 8388608 }
        ensures passes { IfOk result (λ outline. entries_fault (length payload.now) self.now [] payload.now ≡ None) }
        ensures columns { IfOk result (λ outline. AreColumns payload.now outline.columns) }
        ensures fits { IfOk result (λ outline. OutlineFits self.now payload.now outline) }
        ensures refuses { IfErr result (λ fault. fault ≢ PutFault.NoMemory
            → entries_fault (length payload.now) self.now [] payload.now ≡ Some fault) }
    {
        let mut seen = Seen::new(self.allocator());
        let mut columns = Columns::new(self.allocator())?;
        let mut size = Size::NONE;
        let mut files: usize = 0;
        let mut rest = payload;
        while rest.len() > 0 {
            let (entry, after) = read_entry(rest)?;
            if let Some(fault) = self.entry_fault(&seen, &entry) {
                return Err(fault);
            }
            let (more, count) = self.measure_of(&entry);
            size = size.or_greater(more);
            files = files.saturating_add(count);
            columns.push(&entry, (payload.len() - after.len()) as u32)?;
            seen.note(entry)?;
            rest = after;
        }
        Ok(Outline {
            size,
            files,
            columns,
        })
    }

    /// Returns what is kept of a tree besides its payload, or its fault.
    pub(crate) fn outline_of(&self, payload: &[u8]) -> Result<Counted<Outline>, PutFault>
        requires { length payload.now ≤ 8388608 }
        ensures passes { IfOk result (λ outline. tree_fault payload.now self.now ≡ None) }
        ensures sound { IfOk result (λ outline. IsSound ObjectType.Tree payload.now self.now) }
        ensures columns { IfOk result (λ outline. AreColumns payload.now outline.columns) }
        ensures fits { IfOk result (λ outline. OutlineFits self.now payload.now outline) }
        ensures refuses { IfErr result (λ fault. fault ≢ PutFault.NoMemory → tree_fault payload.now self.now ≡ Some fault) }
    {
        let outline = self.judged(payload)?;
        if outline.size.depth > 64 {
            return Err(PutFault::TooDeep);
        }
        if outline.size.reach > 1024 {
            return Err(PutFault::PathTooLong);
        }
        Ok(Counted::new(self.allocator(), outline)?)
    }
}
