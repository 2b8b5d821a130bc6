//! A working copy over a store that lines of a script put.

ghost use Rattle.std.proofs.Props.{props};
ghost use Rattle.eden_workcopy.specs.Meanings.{FitsIn};

use bytes::Bytes;
use eden_checkout::plan;
use eden_globs::Filter;
use eden_history::{ChangeFault, Mode};
use eden_ids::{GitNaming, Id, Kind};
use eden_objects::{CommitFault, Store};
use eden_workcopy::WorkCopy;
use std::alloc::{AllocError, Global};
use std::test::Fail;
use test_kit::{Objects, path, spaced};

/// A store, and a working copy that fits in it.
#[derive(Drop)]
pub(crate) struct Mounted {
    pub(crate) store: Store<GitNaming>,
    pub(crate) work: WorkCopy,
    /// The commit that the working copy was put over last.
    pub(crate) root: Id,
    /// The commits `c` and `d` of the script.
    first: Id,
    second: Id,
    ghost fits: { FitsIn store work } by { Prim.hlevel props },
}

/// Returns the first three words of a text, which are empty where it has fewer.
pub(crate) fn words(text: &str) -> (&str, &str, &str) {
    let mut words = text.split(' ');
    let first = words.next().unwrap_or("");
    let second = words.next().unwrap_or("");
    (first, second, words.next().unwrap_or(""))
}

/// Returns the kind and the bytes of a file.
pub(crate) fn seen(file: Option<(Kind, &Bytes)>) -> Option<(Kind, &[u8])> {
    match file {
        Some((kind, bytes)) => Some((kind, bytes.as_slice())),
        None => None,
    }
}

/// Adds a path, a sign for the kind of the file there, what it holds and a space; or nothing where there is no file.
pub(crate) fn push_file(
    path: &[u8],
    file: Option<(Kind, &[u8])>,
    text: &mut Vec<u8>,
) -> Result<(), AllocError> {
    if let Some((kind, bytes)) = file {
        text.extend_from_slice(path)?;
        text.push(match kind {
            Kind::Plain => b'=',
            Kind::Exec => b'!',
            Kind::Link => b'>',
        })?;
        text.extend_from_slice(bytes)?;
        text.push(b' ')?;
    }
    Ok(())
}

impl Mounted {
    /// Returns a working copy over a commit of what these lines put, by the commit's label.
    pub(crate) fn over(alloc: Global, lines: &str, root: &str) -> Result<Mounted, Fail> {
        let objects = Objects::of(alloc, lines)?;
        let (root, first, second) = (objects.id(root), objects.id("c"), objects.id("d"));
        let store = objects.store;
        let work = WorkCopy::new(alloc, &store, root)?;
        Ok(Mounted {
            store,
            work,
            root,
            first,
            second,
        })
    }

    /// Returns the commit `c` or `d`, or for another label an id that no object has.
    fn id(&self, label: &str) -> Id {
        match label {
            "c" => self.first,
            "d" => self.second,
            _ => Id([1; 20]),
        }
    }

    /// Puts the working copy over another commit. Returns why it can't.
    fn reroot(&mut self, commit: Id) -> Option<ChangeFault> {
        match self.work.reroot(&self.store, commit) {
            Ok(next) => {
                self.work = next;
                self.root = commit;
                None
            }
            Err(CommitFault::NoCommit) => Some(ChangeFault::NoCommit),
            Err(CommitFault::NoMemory) => Some(ChangeFault::NoMemory),
        }
    }

    /// Makes a change and returns what is answered to it: a call's name, a path or a commit's label, and text or another path.
    pub(crate) fn change(
        &mut self,
        alloc: Global,
        text: &str,
    ) -> Result<Option<ChangeFault>, Fail> {
        let (call, at, rest) = words(text);
        if call == "reroot" {
            return Ok(self.reroot(self.id(at)));
        }
        let at = path(alloc, at)?;
        let answer = match call {
            "write" => self
                .work
                .write(&self.store, &at, Kind::Plain, rest.as_bytes()),
            "remove" => self.work.remove(&self.store, &at),
            "revert" => self.work.revert(&self.store, &at),
            "renamedir" => self.work.rename_dir(&self.store, &at, &path(alloc, rest)?),
            _ => self.work.rename(&self.store, &at, &path(alloc, rest)?),
        };
        Ok(answer.err())
    }

    /// Returns the dirty paths, each with a space after it.
    pub(crate) fn dirty(&self, alloc: Global) -> Result<Vec<u8>, Fail> {
        let paths = self.work.dirty(&self.store)?;
        Ok(spaced(alloc, &paths)?)
    }

    /// Makes a checkout of the commit `c` or `d`. Returns its conflicts and then its unclean paths, each with a space after it and a bar
    /// between both.
    pub(crate) fn checkout(
        &mut self,
        alloc: Global,
        label: &str,
        mode: Mode,
    ) -> Result<Vec<u8>, Fail> {
        let planned = plan(alloc, &self.store, &self.work, self.id(label), mode)?;
        self.work = planned.next;
        let mut text = spaced(alloc, planned.conflicts.as_slice())?;
        text.extend_from_slice(b"| ".as_slice())?;
        text.extend_from_slice(spaced(alloc, planned.unclean.as_slice())?.as_slice())?;
        Ok(text)
    }

    /// Returns those of some paths that have a file, each with what it holds.
    pub(crate) fn shown(&self, alloc: Global, paths: &[&str]) -> Result<Vec<u8>, Fail> {
        let mut text = Vec::new(alloc);
        for path in paths {
            let path = path.as_bytes();
            push_file(path, seen(self.work.file(&self.store, path)), &mut text)?;
        }
        Ok(text)
    }

    /// Returns the paths of all files, each with what it holds.
    pub(crate) fn held(&self, alloc: Global) -> Result<Vec<u8>, Fail> {
        let mut text = Vec::new(alloc);
        for path in &self.work.list(&self.store, &Filter::all(alloc))? {
            let file = self.work.read(&self.store, path).ok();
            push_file(path.as_bytes(), file, &mut text)?;
        }
        Ok(text)
    }
}
