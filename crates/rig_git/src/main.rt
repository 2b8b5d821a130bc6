//! `rig_git` reads what `git cat-file --batch` writes, puts each object into a store, and prints what the store says of it, for a
//! comparison with Git itself: each object's id, and of each tree the files that a commit of it would have, as `git ls-tree -r`
//! prints them.
//!
//! Objects come in an order in which each stands behind all that it names. Status 0: all were put. 1: an object was refused, or the
//! input is not what Git writes; standard error tells. 3: reading, writing or memory failed.
#![tactic(auto)]

use eden_globs::Filter;
use eden_ids::{GitNaming, Id, Kind};
use eden_objects::{CommitFault, PutFault, Store};
use std::alloc::{AllocError, Global};
use std::io::{Read, Write};
use std::process::ExitCode;
use std::str;
use thiserror::Error;

/// Why the comparison ended early.
#[derive(Debug, Drop, Error)]
enum Fault {
    /// The bytes are not what Git writes.
    #[error("BadInput")]
    BadInput,
    /// The store refused an object.
    #[error("{0}")]
    Refused(PutFault),
    /// The store does not list a commit that it has.
    #[error("{0}")]
    Unlisted(CommitFault),
    /// A growth was refused.
    #[error("NoMemory")]
    NoMemory,
    /// Reading or writing failed.
    #[error("Device")]
    Device,
}

impl From<AllocError> for Fault {
    fn from(_: AllocError) -> Fault {
        Fault::NoMemory
    }
}

/// One object of the input: its word, its payload, and what stands behind it.
#[derive(Clone, Copy)]
struct Batched<'a> {
    word: &'a [u8],
    payload: &'a [u8],
    rest: &'a [u8],
}

/// The bytes before the first `byte`, and those after it.
fn cut(bytes: &[u8], byte: u8) -> Option<(&[u8], &[u8])> {
    let at = bytes.iter().position(|b| *b == byte)?;
    let (before, after) = bytes.split_at_checked(at)?;
    Some((before, after.get(1..)?))
}

/// The object at the front: a line with its id, its word and its length, the payload, and a line feed.
fn first_object(bytes: &[u8]) -> Option<Batched<'_>> {
    let (line, behind) = cut(bytes, b'\n')?;
    let (_, described) = cut(line, b' ')?;
    let (word, length) = cut(described, b' ')?;
    let length: usize = str::from_utf8(length).ok()?.parse().ok()?;
    let (payload, rest) = behind.split_at_checked(length)?;
    Some(Batched {
        word,
        payload,
        rest: rest.get(1..)?,
    })
}

fn put(store: &mut Store<GitNaming>, object: &Batched<'_>) -> Result<Id, Fault> {
    let put = if object.word == b"blob".as_slice() {
        store.put_blob(object.payload)
    } else if object.word == b"tree".as_slice() {
        store.put_tree(object.payload)
    } else if object.word == b"commit".as_slice() {
        store.put_commit(object.payload)
    } else {
        return Err(Fault::BadInput);
    };
    put.map_err(Fault::Refused)
}

fn mode(kind: Kind) -> &'static str {
    match kind {
        Kind::Plain => "100644",
        Kind::Exec => "100755",
        Kind::Link => "120000",
    }
}

/// Appends the files of a commit, a line each.
fn push_files(
    alloc: Global,
    text: &mut Vec<u8>,
    store: &Store<GitNaming>,
    commit: Id,
) -> Result<(), Fault> {
    let everything = Filter::parse(alloc, &[]).map_err(|_| Fault::NoMemory)?;
    let rows = store.list(commit, &everything).map_err(Fault::Unlisted)?;
    for (path, kind, id) in rows.iter() {
        text.extend_from_slice(mode(*kind).as_bytes())?;
        text.extend_from_slice(b" blob ".as_slice())?;
        text.extend_from_slice(id.to_hex().as_slice())?;
        text.extend_from_slice(b"\t".as_slice())?;
        text.extend_from_slice(path.as_bytes())?;
        text.extend_from_slice(b"\n".as_slice())?;
    }
    Ok(())
}

/// What is printed of all objects.
fn compared(alloc: Global, input: &[u8]) -> Result<Vec<u8>, Fault> {
    let mut store = Store::new(alloc, GitNaming);
    let mut text = Vec::new(alloc);
    let mut rest = input;
    // Each object takes bytes, so there are no more objects than bytes.
    for _ in 0..input.len() {
        if rest.is_empty() {
            break;
        }
        let Some(object) = first_object(rest) else {
            return Err(Fault::BadInput);
        };
        let id = put(&mut store, &object)?;
        text.extend_from_slice(object.word)?;
        text.extend_from_slice(b" ".as_slice())?;
        text.extend_from_slice(id.to_hex().as_slice())?;
        text.extend_from_slice(b"\n".as_slice())?;
        if object.word == b"commit".as_slice() {
            push_files(alloc, &mut text, &store, id)?;
        }
        rest = object.rest;
    }
    Ok(text)
}

fn run(rt: &HostRuntime) -> Result<(), Fault> {
    let mut input = Vec::new(rt.alloc());
    rt.stdin()
        .read_to_end(&mut input)
        .map_err(|_| Fault::Device)?;
    let text = compared(rt.alloc(), input.as_slice())?;
    rt.stdout()
        .write_all(text.as_slice())
        .map_err(|_| Fault::Device)
}

fn main(rt: HostRuntime) -> ExitCode {
    match run(&rt) {
        Ok(()) => ExitCode::from(0),
        Err(fault) => {
            let _ = eprintln!(rt; "rig_git: {fault}");
            match fault {
                Fault::NoMemory | Fault::Device => ExitCode::from(3),
                _ => ExitCode::from(1),
            }
        }
    }
}
