//! Requests and replies, made of what they ask and tell, and their bytes.

use eden_globs::Filter;
use eden_history::{Mark, Marked, Position};
use eden_ids::{Content, Id, Kind, Path, Sequence};
use eden_messages::{Cause, Query, Reply, Request};
use eden_wire::{DecodeFault, decode_reply, decode_request, encode_reply, encode_request};
use std::alloc::Global;
use std::test::Fail;
use test_kit::path;

/// What is asked, of all paths.
#[derive(Clone, Copy)]
pub enum Asked {
    /// The files.
    Basis,
    /// What changed since a number, at which the root was this.
    Poll(u64, Id),
    /// The file at a path.
    Fetch(&'static str),
    /// What stands below a directory.
    List(&'static str),
}

/// What is told.
#[derive(Clone, Copy)]
pub enum Told {
    /// The paths of the files.
    Files(&'static [&'static str]),
    /// What became of paths.
    Changes(&'static [(Mark, &'static str)]),
    /// Files were moved between these directories.
    Moved(&'static [&'static str]),
    /// The kind and the text of the file at a path.
    File(&'static str, Kind, &'static str),
    /// That no file is at a path.
    NoFile(&'static str),
    /// The paths of the files below a directory.
    Below(&'static str, &'static [&'static str]),
    /// Why there is no answer.
    Refused(Cause),
}

/// The root of the empty commit.
pub const EMPTY: Id = Id([0; 20]);

/// A question by its number.
fn query(number: u64) -> Query {
    Query {
        mirror: 1,
        life: 1,
        number,
    }
}

/// A number of generation 7.
pub fn position(sequence: u64, root: Id) -> Position {
    Position {
        generation: 7,
        sequence,
        root,
    }
}

/// The question of a number.
pub fn request_of(alloc: Global, number: u64, asked: Asked) -> Result<Request, Fail> {
    let query = query(number);
    Ok(match asked {
        Asked::Basis => Request::Basis {
            query,
            filter: Filter::all(alloc),
        },
        Asked::Poll(sequence, root) => Request::Poll {
            query,
            since: position(sequence, root),
            filter: Filter::all(alloc),
        },
        Asked::Fetch(at) => Request::Fetch {
            query,
            path: path(alloc, at)?,
        },
        Asked::List(at) => Request::List {
            query,
            prefix: path(alloc, at)?,
            filter: Filter::all(alloc),
        },
    })
}

fn paths_of(alloc: Global, texts: &[&str]) -> Result<Sequence<Path>, Fail> {
    let mut paths = Vec::new(alloc);
    for text in texts {
        paths.push(path(alloc, text)?)?;
    }
    Ok(Sequence::from_vec(paths))
}

fn changes_of(alloc: Global, changes: &[(Mark, &str)]) -> Result<Sequence<Marked>, Fail> {
    let mut marked = Vec::new(alloc);
    for (mark, at) in changes {
        let (mark, path) = (*mark, path(alloc, at)?);
        marked.push(Marked { mark, path })?;
    }
    Ok(Sequence::from_vec(marked))
}

/// The reply about a path: that there is no file, or one of this kind and text.
fn content_of(
    alloc: Global,
    number: u64,
    position: Position,
    at: &str,
    file: Option<(Kind, &str)>,
) -> Result<Reply, Fail> {
    let path = path(alloc, at)?;
    let content = match file {
        Some((kind, text)) => Some(Content::from_bytes(alloc, kind, text.as_bytes())?),
        None => None,
    };
    Ok(Reply::ContentIs {
        query: query(number),
        position,
        path,
        content,
    })
}

/// The reply that these files stand below a directory.
fn below(
    alloc: Global,
    number: u64,
    position: Position,
    at: &str,
    files: &[&str],
) -> Result<Reply, Fail> {
    let prefix = path(alloc, at)?;
    Ok(Reply::ListIs {
        query: query(number),
        position,
        prefix,
        paths: paths_of(alloc, files)?,
    })
}

/// The reply to the question of a number, in a mount that is at a position.
pub fn reply_of(alloc: Global, number: u64, position: Position, told: Told) -> Result<Reply, Fail> {
    let query = query(number);
    Ok(match told {
        Told::Files(paths) => Reply::BasisIs {
            query,
            position,
            paths: paths_of(alloc, paths)?,
        },
        Told::Changes(changes) => Reply::ChangesAre {
            query,
            target: position,
            marked: changes_of(alloc, changes)?,
            prefixes: Sequence::new(alloc),
        },
        Told::Moved(directories) => Reply::ChangesAre {
            query,
            target: position,
            marked: Sequence::new(alloc),
            prefixes: paths_of(alloc, directories)?,
        },
        Told::File(at, kind, text) => content_of(alloc, number, position, at, Some((kind, text)))?,
        Told::NoFile(at) => content_of(alloc, number, position, at, None)?,
        Told::Below(at, files) => below(alloc, number, position, at, files)?,
        Told::Refused(cause) => Reply::Refused { query, cause },
    })
}

/// The request that a body spells.
pub fn read_request(alloc: Global, body: &[u8]) -> Result<Request, DecodeFault> {
    decode_request(alloc, body)
}

/// The reply that a body spells.
pub fn read_reply(alloc: Global, body: &[u8]) -> Result<Reply, DecodeFault> {
    decode_reply(alloc, body)
}

/// The frame of a request.
pub fn frame_of_request(alloc: Global, request: &Request) -> Result<Vec<u8>, Fail> {
    Ok(encode_request(alloc, request)?)
}

/// The frame of a reply.
pub fn frame_of_reply(alloc: Global, reply: &Reply) -> Result<Vec<u8>, Fail> {
    Ok(encode_reply(alloc, reply)?)
}
