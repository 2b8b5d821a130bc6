//! What is asked of a daemon whose lines write `w` again and again, and what is told of that.

use eden_globs::Filter;
use eden_history::{Mark, Marked, Position};
use eden_ids::{Id, Path};
use eden_messages::{Query, Reply, Request};
use eden_wire::encode_request;
use std::alloc::Global;
use std::test::Fail;

/// Two changes of `w`, each of which is an event behind the other.
pub const LINES: &[u8] = b"write w plain x\nwrite w plain y\n";

/// The number up to which `big_script` leads.
pub const BIG_SEQUENCE: u64 = 3;

/// Whose questions they are.
pub const QUERY: Query = Query {
    mirror: 1,
    life: 1,
    number: 1,
};

/// Where a mount of the empty commit begins.
const BEGUN: Position = Position {
    generation: 7,
    sequence: 1,
    root: Id::ZERO,
};

/// A script that writes `big`, of 60,000 bytes, and `notes`.
pub fn big_script(alloc: Global) -> Result<Vec<u8>, Fail> {
    let mut script = Vec::new(alloc);
    script.extend_from_slice(b"mount empty 7 1000000\nwrite big plain ".as_slice())?;
    script.extend_from_slice(vec![in alloc; b'x'; 60_000]?.as_slice())?;
    script.extend_from_slice(b"\nwrite notes plain to\\sdo\nlisten\n".as_slice())?;
    Ok(script)
}

/// Returns the frame that asks for what has changed since the mount, of what a filter admits.
pub(crate) fn poll_for(alloc: Global, filter: Filter) -> Result<Vec<u8>, Fail> {
    let request = Request::Poll {
        query: QUERY,
        since: BEGUN,
        filter,
    };
    Ok(encode_request(alloc, &request)?)
}

/// The frame that asks whether `w` changed since the mount.
pub fn poll_frame(alloc: Global) -> Result<Vec<u8>, Fail> {
    poll_for(alloc, Filter::parse(alloc, &[b"w".as_slice()])?)
}

/// Returns the frame that asks for a change, whose bytes after the query are these.
pub(crate) fn change_frame(alloc: Global, change: &[u8]) -> Result<Vec<u8>, Fail> {
    let mut frame = Vec::new(alloc);
    let length = u32::try_from(change.len().saturating_add(26)).unwrap_or(u32::MAX);
    frame.extend_from_slice(&length.to_be_bytes())?;
    frame.extend_from_slice(&[2, 6])?;
    for number in [QUERY.mirror, QUERY.life, QUERY.number] {
        frame.extend_from_slice(&number.to_be_bytes())?;
    }
    frame.extend_from_slice(change)?;
    Ok(frame)
}

/// The frame that asks what stands at a path.
pub fn fetch_frame(alloc: Global, at: &str) -> Result<Vec<u8>, Fail> {
    let path = Path::parse(alloc, at.as_bytes())?;
    Ok(encode_request(alloc, &Request::Fetch { query: QUERY, path })?)
}

/// The number up to which a reply tells that `w` was created, or that it was not, at the number at which the lines begin. None where it tells
/// something else.
pub fn told_up_to(reply: &Reply, begun: u64) -> Option<u64> {
    let Reply::ChangesAre {
        query,
        target,
        marked,
        prefixes,
    } = reply
    else {
        return None;
    };
    let is_right = match marked.as_slice() {
        [] => target.sequence == begun,
        [
            Marked {
                mark: Mark::Created,
                path,
            },
        ] => target.sequence > begun && path.as_bytes() == b"w".as_slice(),
        _ => false,
    };
    let is_whole = is_right && prefixes.as_slice().is_empty();
    if is_whole && *query == QUERY && target.generation == 7 && target.root == Id::ZERO {
        Some(target.sequence)
    } else {
        None
    }
}
