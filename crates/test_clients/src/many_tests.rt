//! More requests and replies than are on their way at once.

use crate::listener::Act;
use crate::talks::talk;
use eden_accumulate::Mount;
use eden_connect::Quiet;
use eden_ids::{GitNaming, Id};
use eden_objects::Store;
use std::alloc::Global;
use std::net::{Net, TcpListener, TcpStream};
use std::process::Abort;
use std::test::Fail;
use std::thread::Threads;
use test_kit::{commit_of, push_entry};

/// How many bytes the largest file has: 8 MiB.
const LARGEST: usize = 8_388_608;

/// The digits in front of whose directories such a file stands.
const LARGE: [usize; 2] = [3, 7];

/// The entries of a directory: ten that are alike.
fn entries(alloc: Global, mode: &str, id: Id) -> Result<Vec<u8>, Fail> {
    let mut payload = Vec::new(alloc);
    for digit in 0..10 {
        push_entry(
            &mut payload,
            mode,
            format!(in alloc; "{digit}")?.as_bytes(),
            id,
        )?;
    }
    Ok(payload)
}

/// The entries of the root: ten directories, and the largest files.
fn root_entries(alloc: Global, directory: Id, large: Id) -> Result<Vec<u8>, Fail> {
    let mut payload = Vec::new(alloc);
    for digit in 0..10 {
        if LARGE.contains(&digit) {
            let name = format!(in alloc; "{digit} large")?;
            push_entry(&mut payload, "100644", name.as_bytes(), large)?;
        }
        push_entry(
            &mut payload,
            "40000",
            format!(in alloc; "{digit}")?.as_bytes(),
            directory,
        )?;
    }
    Ok(payload)
}

/// Puts the commit of 10,000 small files, each below three directories, and of the largest ones.
fn put_commit(alloc: Global, store: &mut Store<GitNaming>) -> Result<Id, Fail> {
    let small = store.put_blob(b"small".as_slice())?;
    let large = store.put_blob(vec![in alloc; b'x'; LARGEST]?.as_slice())?;
    let mut directory = store.put_tree(entries(alloc, "100644", small)?.as_slice())?;
    for _ in 0..2 {
        directory = store.put_tree(entries(alloc, "40000", directory)?.as_slice())?;
    }
    let root = store.put_tree(root_entries(alloc, directory, large)?.as_slice())?;
    Ok(store.put_commit(commit_of(alloc, root, "")?.as_slice())?)
}

/// The line of a small file, and that of the largest one which may stand in front of it.
fn lines_of(alloc: Global, number: usize) -> Result<String, Fail> {
    let (first, rest) = (number / 1_000, number % 1_000);
    let (second, third, fourth) = (rest / 100, rest / 10 % 10, rest % 10);
    let line = format!(in alloc; "plain 5 {first}/{second}/{third}/{fourth}\n")?;
    if rest == 0 && LARGE.contains(&first) {
        return Ok(format!(in alloc; "plain 8388608 {first}\\slarge\n{line}")?);
    }
    Ok(line)
}

/// What is to be written.
fn told(alloc: Global, commit: Id) -> Result<Vec<u8>, Fail> {
    let mut text = Vec::new(alloc);
    text.extend_from_slice(b"placed 7 1 ")?;
    text.extend_from_slice(commit.to_hex().as_slice())?;
    text.extend_from_slice(b"\nfiles 10002\n")?;
    for number in 0..10_000 {
        text.extend_from_slice(lines_of(alloc, number)?.as_bytes())?;
    }
    Ok(text)
}

/// A mount of that commit.
fn mount_of_many(alloc: Global) -> Result<Mount<GitNaming>, Fail> {
    let mut store = Store::new(alloc, GitNaming);
    let commit = put_commit(alloc, &mut store)?;
    Ok(Mount::mount(alloc, store, commit, 7, 100_000)?)
}

/// Checks what a client writes that fetches all files of a mount.
fn fetches_all<R>(rt: &R, alloc: Global, mount: &mut Mount<GitNaming>) -> Result<(), Fail>
where
    R: Net<Listener = TcpListener, Stream = TcpStream> + Threads + Abort + Sync,
{
    let (ended, output) = talk(rt, alloc, mount, &[Act::Serve], 1, &mut Quiet)?;
    assert_eq!(rt; ended, Ok(()));
    assert!(rt; output == told(alloc, mount.position().root)?);
    Ok(())
}

#[test]
fn many_fetches(rt: HostRuntime) -> Result<(), Fail> {
    let alloc = rt.alloc();
    let mut mount = mount_of_many(alloc)?;
    fetches_all(&rt, alloc, &mut mount)
}
