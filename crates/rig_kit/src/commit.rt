//! A commit of many files.

use anyhow::Result;
use eden_ids::{GitNaming, Id};
use eden_objects::Store;
use std::alloc::Global;
use test_kit::{commit_of, push_entry};

/// How many directories there are.
const DIRECTORIES: usize = 1_000;

/// How many files each has.
const FILES: usize = 100;

/// Puts a directory whose files have one content, which no other directory has.
fn put_directory(
    alloc: Global,
    store: &mut Store<GitNaming>,
    word: &str,
    number: usize,
) -> Result<Id> {
    let text = format!(in alloc; "{word} {number}")?;
    let blob = store.put_blob(text.as_bytes())?;
    let mut payload = Vec::new(alloc);
    for file in 0..FILES {
        let name = format!(in alloc; "file{file:02}")?;
        push_entry(&mut payload, "100644", name.as_bytes(), blob)?;
    }
    Ok(store.put_tree(payload.as_slice())?)
}

/// Puts a commit of 1,000 directories with 100 files each. Under two words no file of the one commit has the content of the other.
pub fn put_commit(alloc: Global, store: &mut Store<GitNaming>, word: &str) -> Result<Id> {
    let mut payload = Vec::new(alloc);
    for number in 0..DIRECTORIES {
        let id = put_directory(alloc, store, word, number)?;
        let name = format!(in alloc; "dir{number:03}")?;
        push_entry(&mut payload, "40000", name.as_bytes(), id)?;
    }
    let tree = store.put_tree(payload.as_slice())?;
    Ok(store.put_commit(commit_of(alloc, tree, "")?.as_slice())?)
}
