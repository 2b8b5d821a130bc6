//! A mount of the empty commit, and what it replies.

use eden_accumulate::Mount;
use eden_globs::Filter;
use eden_history::{Mark, Marked, Position};
use eden_ids::{GitNaming, Id, Sequence};
use eden_messages::{Query, Reply, Request};
use eden_objects::Store;
use std::alloc::Global;
use std::test::Fail;
use test_kit::{path, plain};

/// Whose questions they are.
const QUERY: Query = Query {
    mirror: 1,
    life: 1,
    number: 1,
};

/// Makes a mount of the empty commit, as generation 7.
pub(crate) fn mounted(alloc: Global) -> Result<Mount<GitNaming>, Fail> {
    let store = Store::new(alloc, GitNaming);
    Ok(Mount::mount(alloc, store, Id::ZERO, 7, 100_000)?)
}

pub(crate) fn position(sequence: u64) -> Position {
    Position {
        generation: 7,
        sequence,
        root: Id::ZERO,
    }
}

/// Asks what changed since the mount.
pub(crate) fn poll(alloc: Global) -> Request {
    Request::Poll {
        query: QUERY,
        since: position(1),
        filter: Filter::all(alloc),
    }
}

/// Asks what changed since a number at the paths that a pattern admits.
pub(crate) fn poll_for(alloc: Global, sequence: u64, pattern: &str) -> Result<Request, Fail> {
    Ok(Request::Poll {
        query: QUERY,
        since: position(sequence),
        filter: Filter::parse(alloc, &[pattern.as_bytes()])?,
    })
}

/// Replies that these were created, up to a number.
pub(crate) fn changes(alloc: Global, sequence: u64, created: &[&str]) -> Result<Reply, Fail> {
    let mut marked = Vec::new(alloc);
    for at in created {
        marked.push(Marked {
            mark: Mark::Created,
            path: path(alloc, at)?,
        })?;
    }
    Ok(Reply::ChangesAre {
        query: QUERY,
        target: position(sequence),
        marked: Sequence::from_vec(marked),
        prefixes: Sequence::new(alloc),
    })
}

/// Asks which files there are.
pub(crate) fn basis(alloc: Global) -> Request {
    Request::Basis {
        query: QUERY,
        filter: Filter::all(alloc),
    }
}

/// Replies that there are these at a number.
pub(crate) fn files(alloc: Global, sequence: u64, there: &[&str]) -> Result<Reply, Fail> {
    let mut paths = Vec::new(alloc);
    for at in there {
        paths.push(path(alloc, at)?)?;
    }
    Ok(Reply::BasisIs {
        query: QUERY,
        position: position(sequence),
        paths: Sequence::from_vec(paths),
    })
}

/// Asks for the file at a path.
pub(crate) fn fetch(alloc: Global, at: &str) -> Result<Request, Fail> {
    Ok(Request::Fetch {
        query: QUERY,
        path: path(alloc, at)?,
    })
}

/// Replies that a plain file of this text is at a path at a number.
pub(crate) fn file(alloc: Global, sequence: u64, at: &str, text: &str) -> Result<Reply, Fail> {
    Ok(Reply::ContentIs {
        query: QUERY,
        position: position(sequence),
        path: path(alloc, at)?,
        content: Some(plain(alloc, text)?),
    })
}
