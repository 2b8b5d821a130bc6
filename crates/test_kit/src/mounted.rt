//! What stands for a mount, asked as the lines of a script ask.

use crate::played::Played;
use bytes::Bytes;
use eden_globs::Filter;
use eden_history::{Answer, Change, ChangeFault, Marked, Position, SinceFault};
use eden_ids::{Content, GitNaming, Id, Kind, Path, PathTable, Sequence};
use eden_messages::{Cause, Query, Reply, Request};
use eden_objects::{Object, PutFault, Store};
use std::alloc::Global;
use std::test::Fail;

/// Whose questions they are.
const QUERY: Query = Query {
    mirror: 1,
    life: 2,
    number: 3,
};

/// What stands for a mount.
#[derive(Drop)]
pub(crate) struct Mounted<P> {
    pub(crate) played: P,
}

/// The kind and the bytes of a file.
fn seen(content: &Option<Content>) -> Option<(Kind, &Bytes)> {
    let content = content.as_ref()?;
    Some((content.kind, &content.bytes))
}

/// Why there is no file at a path at which none of these files stands.
fn absent_fault(files: &[Path], path: &Path) -> ChangeFault {
    if files.iter().any(|file| path.is_below(file)) {
        ChangeFault::NotADirectory
    } else if files.iter().any(|file| file.is_below(path)) {
        ChangeFault::IsADirectory
    } else {
        ChangeFault::NoEntry
    }
}

/// What is told of a position that is refused for this cause.
fn since_fault(cause: Cause) -> Result<SinceFault, Fail> {
    match cause {
        Cause::Stale(generation) => Ok(SinceFault::Stale(generation)),
        Cause::Ahead(head) => Ok(SinceFault::Ahead(head)),
        Cause::Truncated(floor) => Ok(SinceFault::Truncated(floor)),
        Cause::TooLarge => Err(Fail::new("a short reply is too large")),
    }
}

impl<P: Played + Drop> Mounted<P> {
    /// What is replied, which has to be to the query that was asked.
    fn ask(&mut self, alloc: Global, request: &Request) -> Result<Reply, Fail> {
        let reply = self.played.ask(alloc, request)?;
        let (Reply::BasisIs { query, .. }
        | Reply::ChangesAre { query, .. }
        | Reply::ContentIs { query, .. }
        | Reply::Refused { query, .. }
        | Reply::ListIs { query, .. }) = &reply;
        if *query == QUERY {
            return Ok(reply);
        }
        Err(Fail::new("another query is answered"))
    }

    /// Imports one object. Tells why it is refused, where it is.
    pub(crate) fn import(
        &mut self,
        alloc: Global,
        object: Object,
    ) -> Result<Result<(), PutFault>, Fail> {
        let (before, _) = self.basis(alloc, Filter::all(alloc))?;
        let objects = Sequence::from_vec(vec![in alloc; object]?);
        match self.played.change(&Change::Import { objects })? {
            Answer::At(position) if position == before => Ok(Ok(())),
            Answer::Refused(ChangeFault::BadObject { place: 0, fault }) => Ok(Err(fault)),
            _ => Err(Fail::new("an import is answered otherwise")),
        }
    }

    /// The present position, and the paths that hold a file and a filter admits.
    pub(crate) fn basis(
        &mut self,
        alloc: Global,
        filter: Filter,
    ) -> Result<(Position, Vec<Path>), Fail> {
        let query = QUERY;
        match self.ask(alloc, &Request::Basis { query, filter })? {
            Reply::BasisIs {
                position,
                paths,
                ..
            } => Ok((position, paths.into_vec())),
            _ => Err(Fail::new("a basis is answered otherwise")),
        }
    }

    /// The file at a path.
    fn fetch(&mut self, alloc: Global, at: &Path) -> Result<Option<Content>, Fail> {
        let (query, path) = (QUERY, at.copy()?);
        let reply = self.ask(alloc, &Request::Fetch { query, path })?;
        let Reply::ContentIs { path, content, .. } = reply else {
            return Err(Fail::new("a fetch is answered otherwise"));
        };
        if path == *at {
            return Ok(content);
        }
        Err(Fail::new("the file at another path is told"))
    }

    /// The file at a path, or why there is none.
    pub(crate) fn read(
        &mut self,
        alloc: Global,
        path: &Path,
    ) -> Result<Result<Content, ChangeFault>, Fail> {
        if let Some(content) = self.fetch(alloc, path)? {
            return Ok(Ok(content));
        }
        let (_, files) = self.basis(alloc, Filter::all(alloc))?;
        Ok(Err(absent_fault(files.as_slice(), path)))
    }

    /// What changed since a number of a generation: up to which position, what is said of paths, and the directories that were renamed; or
    /// why that isn't told.
    pub(crate) fn poll(
        &mut self,
        alloc: Global,
        generation: u64,
        sequence: u64,
    ) -> Result<Result<(Position, Sequence<Marked>, Sequence<Path>), SinceFault>, Fail> {
        let since = Position {
            generation,
            sequence,
            root: Id::ZERO,
        };
        let (query, filter) = (QUERY, Filter::all(alloc));
        let request = Request::Poll {
            query,
            since,
            filter,
        };
        match self.ask(alloc, &request)? {
            Reply::ChangesAre {
                target,
                marked,
                prefixes,
                ..
            } => Ok(Ok((target, marked, prefixes))),
            Reply::Refused { cause, .. } => Ok(Err(since_fault(cause)?)),
            _ => Err(Fail::new("a poll is answered otherwise")),
        }
    }

    /// The paths of the files, and of those of the commit of the root in the store; and that commit.
    fn all_paths(
        &mut self,
        alloc: Global,
        store: &Store<GitNaming>,
    ) -> Result<(Id, Vec<Path>), Fail> {
        let (position, files) = self.basis(alloc, Filter::all(alloc))?;
        let mut table = PathTable::new(alloc);
        table.add_all(files.as_slice())?;
        for (path, _, _) in &store.list(position.root, &Filter::all(alloc))? {
            table.add(path)?;
        }
        Ok((position.root, table.list(alloc)?))
    }

    /// The paths at which another file stands than in the commit of the root, which the store has, found one by one.
    pub(crate) fn dirty(
        &mut self,
        alloc: Global,
        store: &Store<GitNaming>,
    ) -> Result<Vec<Path>, Fail> {
        let (root, paths) = self.all_paths(alloc, store)?;
        let mut dirty = Vec::new(alloc);
        for path in paths {
            let content = self.fetch(alloc, &path)?;
            let clean = store.commit_files(root).file(path.as_bytes());
            if seen(&content) != clean {
                dirty.push(path)?;
            }
        }
        Ok(dirty)
    }
}
