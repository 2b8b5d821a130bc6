//! Replies as they are wanted, of a daemon that never goes over to another commit.

use eden_history::{Mark, Marked, Position};
use eden_ids::{Id, Path, Sequence};
use eden_messages::{Cause, Query, Reply};
use std::alloc::Global;
use std::test::Fail;
use test_kit::{path, plain};

/// The question of the round with this number, of mirror 1 in its first life.
pub(crate) fn query(number: u64) -> Query {
    Query {
        mirror: 1,
        life: 1,
        number,
    }
}

/// A position over the empty commit.
pub(crate) fn position(generation: u64, sequence: u64) -> Position {
    Position {
        generation,
        sequence,
        root: Id::ZERO,
    }
}

/// These paths.
fn paths(alloc: Global, names: &[&str]) -> Result<Sequence<Path>, Fail> {
    let mut paths = Vec::new(alloc);
    for name in names {
        paths.push(path(alloc, name)?)?;
    }
    Ok(Sequence::from_vec(paths))
}

/// These paths hold a file.
pub(crate) fn basis(
    alloc: Global,
    query: Query,
    position: Position,
    names: &[&str],
) -> Result<Reply, Fail> {
    Ok(Reply::BasisIs {
        query,
        position,
        paths: paths(alloc, names)?,
    })
}

/// A file was created at this path, which alone was changed.
pub(crate) fn created(
    alloc: Global,
    query: Query,
    target: Position,
    name: &str,
) -> Result<Reply, Fail> {
    let mark = Mark::Created;
    let path = path(alloc, name)?;
    Ok(Reply::ChangesAre {
        query,
        target,
        marked: Sequence::from_vec(vec![in alloc; Marked { mark, path }]?),
        prefixes: Sequence::new(alloc),
    })
}

/// Files were moved between these directories, and no path was changed by itself.
pub(crate) fn moved(
    alloc: Global,
    query: Query,
    target: Position,
    names: &[&str],
) -> Result<Reply, Fail> {
    Ok(Reply::ChangesAre {
        query,
        target,
        marked: Sequence::new(alloc),
        prefixes: paths(alloc, names)?,
    })
}

/// These paths below a directory hold a file.
pub(crate) fn listed(
    alloc: Global,
    query: Query,
    position: Position,
    prefix: &str,
    names: &[&str],
) -> Result<Reply, Fail> {
    Ok(Reply::ListIs {
        query,
        position,
        prefix: path(alloc, prefix)?,
        paths: paths(alloc, names)?,
    })
}

/// A plain file with this text stands at the path.
pub(crate) fn content(
    alloc: Global,
    query: Query,
    position: Position,
    name: &str,
    text: &str,
) -> Result<Reply, Fail> {
    Ok(Reply::ContentIs {
        query,
        position,
        path: path(alloc, name)?,
        content: Some(plain(alloc, text)?),
    })
}

/// A refusal for this cause.
pub(crate) fn refused(query: Query, cause: Cause) -> Reply {
    Reply::Refused { query, cause }
}

/// A reply to a question of mirror 1 in its first life, as a table tells it: the number of the round, the generation and the number of the
/// position, and the rest.
#[derive(Clone, Copy, Debug)]
pub(crate) enum Said {
    /// These paths hold a file.
    Basis(u64, (u64, u64), &'static [&'static str]),
    /// A file was created at this path, which alone was changed.
    Created(u64, (u64, u64), &'static str),
    /// Files were moved between these directories, and no path was changed by itself.
    Moved(u64, (u64, u64), &'static [&'static str]),
    /// These paths below the directory hold a file.
    Listed(u64, (u64, u64), &'static str, &'static [&'static str]),
    /// A plain file stands at the path, with this text.
    Content(u64, (u64, u64), &'static str, &'static str),
    /// What was asked is refused.
    Refused(u64, Cause),
}

impl Said {
    /// The reply itself.
    pub(crate) fn reply(&self, alloc: Global) -> Result<Reply, Fail> {
        match *self {
            Said::Basis(number, (generation, sequence), names) => basis(
                alloc,
                query(number),
                position(generation, sequence),
                names,
            ),
            Said::Created(number, (generation, sequence), name) => created(
                alloc,
                query(number),
                position(generation, sequence),
                name,
            ),
            Said::Moved(number, (generation, sequence), names) => moved(
                alloc,
                query(number),
                position(generation, sequence),
                names,
            ),
            Said::Listed(number, (generation, sequence), prefix, names) => listed(
                alloc,
                query(number),
                position(generation, sequence),
                prefix,
                names,
            ),
            Said::Content(number, (generation, sequence), name, text) => content(
                alloc,
                query(number),
                position(generation, sequence),
                name,
                text,
            ),
            Said::Refused(number, cause) => Ok(refused(query(number), cause)),
        }
    }
}
