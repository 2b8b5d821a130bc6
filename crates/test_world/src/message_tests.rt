//! Messages, their lengths and their lists.

use eden_globs::Filter;
use eden_history::{Mark, Marked, Position, SinceFault};
use eden_ids::{Id, Sequence};
use eden_messages::{Cause, Query, Reply, Request, admitted};
use std::alloc::Global;
use std::test::Fail;
use test_kit::path;

/// The query and the position of the known frames in docs/formats.md.
fn known() -> (Query, Position) {
    let (mirror, life, number) = (1, 1, 1);
    let (generation, sequence, root) = (7, 1, Id::ZERO);
    let query = Query {
        mirror,
        life,
        number,
    };
    let place = Position {
        generation,
        sequence,
        root,
    };
    (query, place)
}

/// A request for all paths.
fn basis(alloc: Global) -> Request {
    let (query, _) = known();
    Request::Basis {
        query,
        filter: Filter::all(alloc),
    }
}

/// A request for the changes to all paths.
fn poll(alloc: Global) -> Request {
    let (query, since) = known();
    Request::Poll {
        query,
        since,
        filter: Filter::all(alloc),
    }
}

/// A request for a file.
fn fetch(alloc: Global) -> Result<Request, Fail> {
    let (query, _) = known();
    let path = path(alloc, "a")?;
    Ok(Request::Fetch { query, path })
}

/// A request for all paths below a directory.
fn list(alloc: Global) -> Result<Request, Fail> {
    let (query, _) = known();
    Ok(Request::List {
        query,
        prefix: path(alloc, "d")?,
        filter: Filter::all(alloc),
    })
}

/// The length of the body of a request's copy.
fn len_of_copy(request: Request) -> Result<u32, Fail> {
    Ok(request.copy()?.body_len())
}

/// The lengths are those with which the known frames begin.
#[test]
fn requests_have_their_lengths(rt: HostRuntime) -> Result<(), Fail> {
    let alloc = rt.alloc();
    assert_eq!(rt; len_of_copy(basis(alloc))?, 0x1b);
    assert_eq!(rt; len_of_copy(poll(alloc))?, 0x3f);
    assert_eq!(rt; len_of_copy(fetch(alloc)?)?, 0x1d);
    assert_eq!(rt; len_of_copy(list(alloc)?)?, 0x1e);
    Ok(())
}

#[test]
fn replies_have_their_lengths(rt: HostRuntime) -> Result<(), Fail> {
    let alloc = rt.alloc();
    let (query, position) = known();
    let mut replies = Vec::new(alloc);
    let basis = Reply::BasisIs {
        query,
        position,
        paths: Sequence::new(alloc),
    };
    replies.push((basis, 0x42))?;
    let changes = Reply::ChangesAre {
        query,
        target: position,
        marked: Sequence::new(alloc),
        prefixes: Sequence::new(alloc),
    };
    replies.push((changes, 0x46))?;
    let content = Reply::ContentIs {
        query,
        position,
        path: path(alloc, "a")?,
        content: None,
    };
    replies.push((content, 0x42))?;
    let ahead = Reply::Refused {
        query,
        cause: Cause::of(SinceFault::Ahead(1))?,
    };
    replies.push((ahead, 0x23))?;
    let list = Reply::ListIs {
        query,
        position,
        prefix: path(alloc, "d")?,
        paths: Sequence::new(alloc),
    };
    replies.push((list, 0x45))?;
    for (reply, len) in replies.iter() {
        assert_eq!(rt; reply.body_len(), Some(*len));
        assert!(rt; reply.copy()?.bounded(query) == *reply);
    }
    Ok(())
}

#[test]
fn a_filter_admits_some_of_the_marked(rt: HostRuntime) -> Result<(), Fail> {
    let alloc = rt.alloc();
    let mut marked = Vec::new(alloc);
    for (at, mark) in [
        ("a", Mark::Created),
        ("b/c", Mark::Removed),
        ("b/d", Mark::Changed),
    ] {
        marked.push(Marked {
            mark,
            path: path(alloc, at)?,
        })?;
    }
    let filter = Filter::parse(alloc, &[b"*/d".as_slice()])?;
    let list = admitted(alloc, Sequence::from_vec(marked), &filter)?.into_vec();
    let last = Marked {
        mark: Mark::Changed,
        path: path(alloc, "b/d")?,
    };
    assert!(rt; list.as_slice() == [last].as_slice());
    Ok(())
}
