//! Calls as a caller makes them, drawn by lot.

use bytes::Bytes;
use eden_globs::Filter;
use eden_history::{Change, Mode, Position};
use eden_ids::{Id, Sequence};
use eden_logs::Call;
use eden_messages::{Query, Request};
use eden_objects::{Object, ObjectType};
use rand_core::utils::NextWord;
use rand_pcg::Pcg32;
use std::alloc::Global;
use std::test::Fail;
use test_kit::{path, remove, rename, write};

/// Paths in each other's places, and beside a slash in byte order.
const PATHS: [&str; 8] = ["a", "a.b", "a/b", "a0", "a/b/c", "b", "d/e", "d"];

/// What files hold.
const TEXTS: [&str; 4] = ["", "x", "y", "xyz"];

/// What one number stands for, which was drawn.
#[derive(Clone, Copy)]
struct Draw {
    path: &'static str,
    other: &'static str,
    text: &'static str,
    commit: Id,
    sequence: u64,
    kind: usize,
}

fn drawn(word: u32, commits: &[Id; 2]) -> Draw {
    let word = word as usize;
    Draw {
        path: PATHS[word % 8],
        other: PATHS[word / 8 % 8],
        text: TEXTS[word / 64 % 4],
        commit: commits[word / 256 % 2],
        sequence: (word / 512 % 1024) as u64,
        kind: word / 524_288 % 16,
    }
}

/// A change, or none.
fn change_of(alloc: Global, draw: Draw) -> Result<Option<Change>, Fail> {
    let commit = draw.commit;
    let mode = Mode::Force;
    Ok(Some(match draw.kind {
        0 => Change::Checkout { commit, mode },
        1 => Change::Reset { commit },
        2 => Change::Flush,
        3 => remove(alloc, draw.path)?,
        4 => rename(alloc, draw.path, draw.other)?,
        5 => {
            let object_type = ObjectType::Blob;
            let payload = Bytes::copy_from_slice(alloc, draw.text.as_bytes())?;
            let objects = Sequence::from_vec(vec![in alloc;
                Object {
                    object_type,
                    payload
                },
            ]?);
            Change::Import { objects }
        }
        6 => Change::RenameDir {
            old: path(alloc, draw.path)?,
            new: path(alloc, draw.other)?,
        },
        7..=10 => write(alloc, draw.path, draw.text)?,
        _ => return Ok(None),
    }))
}

/// A request.
fn request_of(alloc: Global, draw: Draw, query: Query) -> Result<Request, Fail> {
    let filter = Filter::parse(alloc, &[draw.other.as_bytes(), b"a/**".as_slice()])?;
    let since = Position {
        generation: 7,
        sequence: draw.sequence,
        root: draw.commit,
    };
    Ok(match draw.kind {
        11 => Request::Basis { query, filter },
        12 | 13 => Request::Poll {
            query,
            since,
            filter,
        },
        14 => Request::List {
            query,
            prefix: path(alloc, "a")?,
            filter,
        },
        _ => Request::Fetch {
            query,
            path: path(alloc, draw.path)?,
        },
    })
}

/// Returns the call of a caller that a draw stands for.
fn call_of(alloc: Global, draw: Draw, query: Query) -> Result<Call, Fail> {
    Ok(match change_of(alloc, draw)? {
        Some(change) => Call::Change(change),
        None => Call::Ask(request_of(alloc, draw, query)?),
    })
}

/// So many calls of a caller: changes, and what it asks in between. They follow from its number alone.
pub(crate) fn calls_of(
    alloc: Global,
    commits: &[Id; 2],
    caller: u64,
    count: u64,
) -> Result<Vec<Call>, Fail> {
    let mut words = Pcg32::new(caller, 54);
    let mut calls = Vec::new(alloc);
    for number in 0..count {
        let draw = drawn(words.next_word(), commits);
        let query = Query {
            mirror: caller,
            life: 1,
            number,
        };
        calls.push(call_of(alloc, draw, query)?)?;
    }
    Ok(calls)
}
