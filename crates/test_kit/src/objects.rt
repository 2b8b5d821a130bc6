//! Stores that lines of a script put.

use crate::labels::Labels;
use crate::payload::{commit_of, push_entry};
use bytes::Bytes;
use eden_ids::{GitNaming, Id, Sequence};
use eden_objects::{Importer, Object, ObjectType, Payload, PutFault, Store};
use eden_script::{
    Command, Label, PutLine, Refusal, TreeEntry, push_id_line, push_ok, push_refusal, words,
};
use std::alloc::Global;
use std::str;
use std::test::Fail;

/// The faults of objects, in the order of their numbers from 1 on.
pub const PUT_FAULTS: &[PutFault] = &[
    PutFault::TooLarge,
    PutFault::IdTaken,
    PutFault::ZeroId,
    PutFault::BadMode,
    PutFault::BadName,
    PutFault::OutOfOrder,
    PutFault::Duplicate,
    PutFault::MissingChild,
    PutFault::WrongChildKind,
    PutFault::TooDeep,
    PutFault::PathTooLong,
    PutFault::CutShort,
    PutFault::BadCommit,
    PutFault::NoMemory,
];

/// A store that was made by lines of a script, and what its labels are bound to.
#[derive(Drop)]
pub struct Objects {
    /// The store.
    pub store: Store<GitNaming>,
    pub(crate) labels: Labels,
}

/// What a line asks for.
pub(crate) fn command_of(alloc: Global, line: &str) -> Result<Command, Fail> {
    let words = words(alloc, line.as_bytes())?.ok_or("a line has no words")?;
    Ok(Command::read(alloc, words)?.ok_or("a line can't be read")?)
}

/// The label that a line binds.
fn label_of(line: PutLine) -> Label {
    match line {
        PutLine::Blob {
            label,
            bytes: _bytes,
        } => label,
        PutLine::Tree {
            label,
            entries: _entries,
        } => label,
        PutLine::Commit { label, tree: _tree } => label,
    }
}

impl Objects {
    /// No object and no binding.
    pub(crate) fn new(alloc: Global) -> Objects {
        Objects {
            store: Store::new(alloc, GitNaming),
            labels: Labels::new(alloc),
        }
    }

    /// What these lines put, of which a semicolon ends each but the last: `blob L TEXT`, `tree L` and any number of `MODE NAME LABEL`,
    /// and `commit L TREE`. It fails where one of them is refused.
    pub fn of(alloc: Global, script: &str) -> Result<Objects, Fail> {
        let mut objects = Objects::new(alloc);
        for line in script.split(';') {
            objects.put(alloc, line)?;
        }
        Ok(objects)
    }

    /// Puts one more object, as a line says. It fails where that is refused.
    pub fn put(&mut self, alloc: Global, line: &str) -> Result<(), Fail> {
        let mut text = Vec::new(alloc);
        match command_of(alloc, line)? {
            Command::Put(line) => {
                self.tell_put(alloc, line, &mut text)?;
            }
            _ => return Err(Fail::new("a line puts nothing")),
        }
        if text.as_slice() == b"ok\n".as_slice() {
            return Ok(());
        }
        let said = str::from_utf8(text.as_slice())?;
        Err(Fail::new(format_args!("{line}: {said}")))
    }

    /// Puts an object, as a line says, so many times over: a line that names the label that it binds makes a level over the one before.
    pub fn repeat(&mut self, alloc: Global, line: &str, times: u32) -> Result<(), Fail> {
        for _ in 0..times {
            self.put(alloc, line)?;
        }
        Ok(())
    }

    /// The id that a label is bound to, or, where it is bound to none, one that no object has.
    pub fn id(&self, label: &str) -> Id {
        self.labels.get(label.as_bytes()).unwrap_or(Id([1; 20]))
    }

    /// The payload of a tree, or none where a label is not bound.
    fn tree_payload(&self, alloc: Global, entries: &[TreeEntry]) -> Result<Option<Vec<u8>>, Fail> {
        let mut payload = Vec::new(alloc);
        for entry in entries {
            let Some(id) = self.labels.get(entry.label.as_bytes()) else {
                return Ok(None);
            };
            let mode = str::from_utf8(entry.mode.as_bytes())?;
            push_entry(&mut payload, mode, entry.name.as_bytes(), id)?;
        }
        Ok(Some(payload))
    }

    /// The object that a line names, or none where a label in it is not bound.
    pub(crate) fn object_of(&self, alloc: Global, line: &PutLine) -> Result<Option<Object>, Fail> {
        let (object_type, payload) = match line {
            PutLine::Blob { bytes, .. } => (
                ObjectType::Blob,
                Some(bytes.as_bytes().to_vec(alloc)?),
            ),
            PutLine::Tree { entries, .. } => {
                (
                    ObjectType::Tree,
                    self.tree_payload(alloc, entries.as_slice())?,
                )
            }
            PutLine::Commit { tree, .. } => {
                let payload = match self.labels.get(tree.as_bytes()) {
                    Some(tree) => Some(commit_of(alloc, tree, "")?),
                    None => None,
                };
                (ObjectType::Commit, payload)
            }
        };
        let Some(payload) = payload else {
            return Ok(None);
        };
        let payload = Bytes::copy_from_slice(alloc, payload.as_slice())?;
        Ok(Some(Object {
            object_type,
            payload,
        }))
    }

    /// Puts more objects, as these lines say, of which a semicolon ends each but the last; and gives them, so that they are imported
    /// elsewhere. It fails where one of them is refused.
    pub fn more(&mut self, alloc: Global, script: &str) -> Result<Sequence<Object>, Fail> {
        let mut objects = Vec::new(alloc);
        for line in script.split(';') {
            if let Command::Put(put) = command_of(alloc, line)? {
                if let Some(object) = self.object_of(alloc, &put)? {
                    objects.push(object)?;
                }
            }
            self.put(alloc, line)?;
        }
        Ok(Sequence::from_vec(objects))
    }

    /// Binds a label to what was put, and tells that, or why nothing was put.
    fn bind(
        &mut self,
        label: Label,
        put: Option<Result<Id, PutFault>>,
        text: &mut Vec<u8>,
    ) -> Result<(), Fail> {
        match put {
            Some(Ok(id)) => {
                self.labels.bind(label, id)?;
                push_ok(text)?;
            }
            Some(Err(fault)) => push_refusal(text, Refusal::Put(fault))?,
            None => push_refusal(text, Refusal::NoLabel)?,
        }
        Ok(())
    }

    /// Puts an object, as a line says, and adds what that prints. Gives what was answered, and none where a label is not bound.
    pub(crate) fn tell_put(
        &mut self,
        alloc: Global,
        line: PutLine,
        text: &mut Vec<u8>,
    ) -> Result<Option<Result<Id, PutFault>>, Fail> {
        let put = match self.object_of(alloc, &line)? {
            Some(object) => {
                let payload = Payload::Shared(&object.payload);
                Some(self.store.put_object(object.object_type, payload))
            }
            None => None,
        };
        self.bind(label_of(line), put, text)?;
        Ok(put)
    }

    /// Adds the id that a label is bound to.
    pub(crate) fn tell_id(&self, label: &Label, text: &mut Vec<u8>) -> Result<(), Fail> {
        match self.labels.get(label.as_bytes()) {
            Some(id) => push_id_line(text, &id)?,
            None => push_refusal(text, Refusal::NoLabel)?,
        }
        Ok(())
    }
}
