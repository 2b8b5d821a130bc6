//! What a store costs that grows while it is mounted: imports beside puts, copies, and look-ups. See bench/README.md.
//!
//! Standard output tells how many objects were found, and standard error what processor time each took.
#![tactic(auto)]

use anyhow::Result;
use bytes::Bytes;
use eden_accumulate::Mount;
use eden_ids::{GitNaming, Id, Naming, Path};
use eden_objects::{Object, ObjectType, Store};
use rig_kit::{each, scattered};
use std::alloc::Global;
use std::hint::black_box;
use std::time::{CpuClock, Duration};
use test_kit::{commit_of, push_entry};

/// How many blobs are put or imported.
const BLOBS: u64 = 100_000;

/// How many times something short is done.
const TURNS: u64 = 1_000_000;

/// The directories of the commit whose files are looked up, and the files of each.
const DIRECTORIES: u64 = 100;

const FILES: u64 = 100;

/// The bytes of a numbered blob: some 30 of them.
fn blob(alloc: Global, number: u64) -> Result<Vec<u8>> {
    Ok(format!(in alloc; "the contents of blob {number:09}\n")?.into_bytes())
}

/// A store of so many blobs.
fn filled(alloc: Global, count: u64) -> Result<Store<GitNaming>> {
    let mut store = Store::new(alloc, GitNaming);
    for number in 0..count {
        store.put_blob(blob(alloc, number)?.as_slice())?;
    }
    Ok(store)
}

/// How many of the first blobs a store has.
fn found_all(alloc: Global, store: &Store<GitNaming>, count: u64) -> Result<u64> {
    let mut found = 0u64;
    for number in 0..count {
        let payload = blob(alloc, number)?;
        let id = GitNaming.id_of(b"blob".as_slice(), payload.as_slice());
        if store.blob(id) == Some(payload.as_slice()) {
            found = found.saturating_add(1);
        }
    }
    Ok(found)
}

/// Puts the blobs before there is a mount.
fn put_all(rt: &HostRuntime) -> Result<()> {
    let alloc = rt.alloc();
    let mut payloads = Vec::new(alloc);
    for number in 0..BLOBS {
        payloads.push(blob(alloc, number)?)?;
    }
    let mut store = Store::new(alloc, GitNaming);
    let start = rt.thread_cpu_time()?;
    for payload in &payloads {
        store.put_blob(payload.as_slice())?;
    }
    let time = rt.thread_cpu_time()?.saturating_sub(start);
    println!(rt; "put: {} found", found_all(alloc, &store, BLOBS)?)?;
    eprintln!(rt;
        "{BLOBS} blobs put before the mount: {} ns a blob",
        each(time, BLOBS)
    )?;
    Ok(())
}

/// The objects of a batch.
fn batch(alloc: Global, from: u64, size: u64) -> Result<Vec<Object>> {
    let mut objects = Vec::new(alloc);
    for number in from..from.saturating_add(size) {
        let payload = Bytes::copy_from_slice(alloc, blob(alloc, number)?.as_slice())?;
        let object_type = ObjectType::Blob;
        objects.push(Object {
            object_type,
            payload,
        })?;
    }
    Ok(objects)
}

/// A mount of the empty commit over a store without objects.
fn mounted(alloc: Global) -> Result<Mount<GitNaming>> {
    let store = Store::new(alloc, GitNaming);
    Ok(Mount::mount(alloc, store, Id::ZERO, 1, 0)?)
}

/// Imports one batch into a mount, and tells what time that took.
fn import_batch(
    rt: &HostRuntime,
    mount: &mut Mount<GitNaming>,
    objects: &[Object],
) -> Result<Duration> {
    let start = rt.thread_cpu_time()?;
    mount.import(objects)?;
    Ok(rt.thread_cpu_time()?.saturating_sub(start))
}

/// Imports the blobs into a mount in so many batches. Tells what time all of them took, and the longest.
fn import_batches(
    rt: &HostRuntime,
    mount: &mut Mount<GitNaming>,
    batches: u64,
) -> Result<(Duration, Duration)> {
    let size = BLOBS.checked_div(batches).unwrap_or(0);
    let mut all = Duration::ZERO;
    let mut longest = Duration::ZERO;
    for number in 0..batches {
        let objects = batch(rt.alloc(), number.saturating_mul(size), size)?;
        let time = import_batch(rt, mount, objects.as_slice())?;
        all = all.saturating_add(time);
        longest = longest.max(time);
    }
    Ok((all, longest))
}

/// Imports the blobs in so many batches.
fn import_all(rt: &HostRuntime, batches: u64) -> Result<()> {
    let mut mount = mounted(rt.alloc())?;
    let (all, longest) = import_batches(rt, &mut mount, batches)?;
    let found = found_all(rt.alloc(), mount.store(), BLOBS)?;
    println!(rt; "{batches} batches: {found} found")?;
    eprintln!(rt;
        "{BLOBS} blobs imported in {batches} batches: {} ns a blob, {} ns the longest batch",
        each(all, BLOBS),
        each(longest, 1)
    )?;
    Ok(())
}

/// A copy of a store.
fn copy(store: &mut Store<GitNaming>) -> Result<Store<GitNaming>> {
    Ok(store.share()?)
}

/// The time of so many copies, between which nothing is put.
fn same_copies(rt: &HostRuntime, store: &mut Store<GitNaming>) -> Result<Duration> {
    let start = rt.thread_cpu_time()?;
    for _ in 0..TURNS {
        black_box(copy(store)?);
    }
    Ok(rt.thread_cpu_time()?.saturating_sub(start))
}

/// Imports one blob more.
fn import_one(alloc: Global, store: &mut Store<GitNaming>, number: u64) -> Result<()> {
    let objects = batch(alloc, number, 1)?;
    Ok(store.import(objects.as_slice())?)
}

/// A copy after an import of one blob, and what time the copy took.
fn grown_copy(
    rt: &HostRuntime,
    store: &mut Store<GitNaming>,
    number: u64,
) -> Result<(Store<GitNaming>, Duration)> {
    import_one(rt.alloc(), store, number)?;
    let start = rt.thread_cpu_time()?;
    let copy = copy(store)?;
    Ok((copy, rt.thread_cpu_time()?.saturating_sub(start)))
}

/// The time of a thousand copies, each after an import of one blob; the last copy is kept until the next is taken.
fn grown_copies(rt: &HostRuntime, store: &mut Store<GitNaming>, count: u64) -> Result<Duration> {
    let mut all = Duration::ZERO;
    let mut kept = copy(store)?;
    for number in 0..1_000 {
        let (copy, time) = grown_copy(rt, store, count.saturating_add(number))?;
        kept = copy;
        all = all.saturating_add(time);
    }
    black_box(kept);
    Ok(all)
}

/// Copies of a store of so many blobs: where nothing was put since the last, and where one blob was imported.
fn copies(rt: &HostRuntime, count: u64) -> Result<()> {
    let mut store = filled(rt.alloc(), count)?;
    let same = same_copies(rt, &mut store)?;
    let grown = grown_copies(rt, &mut store, count)?;
    let more = count.saturating_add(1_000);
    let found = found_all(rt.alloc(), &copy(&mut store)?, more)?;
    println!(rt; "a copy: {found} of {more} found")?;
    eprintln!(rt;
        "a copy of {count} objects: {} ns; after each of 1,000 imports of one more: {} ns",
        each(same, TURNS),
        each(grown, 1_000)
    )?;
    Ok(())
}

/// Puts a directory of numbered files.
fn put_directory(alloc: Global, store: &mut Store<GitNaming>, from: u64) -> Result<Id> {
    let mut payload = Vec::new(alloc);
    for file in 0..FILES {
        let bytes = blob(alloc, from.saturating_add(file))?;
        let id = store.put_blob(bytes.as_slice())?;
        let name = format!(in alloc; "file{file:02}")?;
        push_entry(&mut payload, "100644", name.as_bytes(), id)?;
    }
    Ok(store.put_tree(payload.as_slice())?)
}

/// Puts a commit of 100 directories with 100 files each.
fn put_commit(alloc: Global, store: &mut Store<GitNaming>) -> Result<Id> {
    let mut root = Vec::new(alloc);
    for directory in 0..DIRECTORIES {
        let tree = put_directory(alloc, store, directory.saturating_mul(FILES))?;
        let name = format!(in alloc; "directory{directory:02}")?;
        push_entry(&mut root, "40000", name.as_bytes(), tree)?;
    }
    let root = store.put_tree(root.as_slice())?;
    Ok(store.put_commit(commit_of(alloc, root, "")?.as_slice())?)
}

/// The paths of the files, scattered.
fn paths(alloc: Global) -> Result<Vec<Path>> {
    let count = DIRECTORIES.saturating_mul(FILES);
    let mut paths = Vec::new(alloc);
    for turn in 0..count {
        let number = scattered(turn, count);
        let (directory, file) = (number / FILES, number % FILES);
        let text = format!(in alloc; "directory{directory:02}/file{file:02}")?;
        paths.push(Path::parse(alloc, text.as_bytes())?)?;
    }
    Ok(paths)
}

/// Looks up each path of the commit a hundred times.
fn look_up(rt: &HostRuntime, name: &str, store: &Store<GitNaming>, commit: Id) -> Result<()> {
    let paths = paths(rt.alloc())?;
    let mut found = 0u64;
    let start = rt.thread_cpu_time()?;
    for _ in 0..100 {
        for path in &paths {
            if store.lookup(commit, path)?.is_some() {
                found = found.saturating_add(1);
            }
        }
    }
    let time = rt.thread_cpu_time()?.saturating_sub(start);
    println!(rt; "{name}: {found} files found")?;
    eprintln!(rt; "a file of a commit, {name}: {} ns", each(time, found))?;
    Ok(())
}

/// Reads the first byte of a million scattered blobs, or asks their lengths alone.
fn read_blobs(rt: &HostRuntime, name: &str, store: &Store<GitNaming>, ids: &[Id]) -> Result<()> {
    let mut sum = 0u64;
    let count = ids.len() as u64;
    let start = rt.thread_cpu_time()?;
    for turn in 0..TURNS {
        let id = ids.get(scattered(turn, count) as usize).copied();
        let bytes = store.blob(id.unwrap_or(Id::ZERO)).unwrap_or(b"".as_slice());
        sum = sum.wrapping_add(u64::from(bytes.first().copied().unwrap_or(0)));
    }
    let bytes = rt.thread_cpu_time()?;
    for turn in 0..TURNS {
        let id = ids.get(scattered(turn, count) as usize).copied();
        let bytes = store.blob(id.unwrap_or(Id::ZERO)).unwrap_or(b"".as_slice());
        sum = sum.wrapping_add(bytes.len() as u64);
    }
    let lengths = rt.thread_cpu_time()?;
    println!(rt; "{name}: sum {sum}")?;
    eprintln!(rt;
        "a blob, {name}: {} ns with its first byte, {} ns its length alone",
        each(bytes.saturating_sub(start), TURNS),
        each(lengths.saturating_sub(bytes), TURNS)
    )?;
    Ok(())
}

/// The ids of the first blobs.
fn ids(alloc: Global, count: u64) -> Result<Vec<Id>> {
    let mut ids = Vec::new(alloc);
    for number in 0..count {
        let payload = blob(alloc, number)?;
        ids.push(GitNaming.id_of(b"blob".as_slice(), payload.as_slice()))?;
    }
    Ok(ids)
}

/// Look-ups in a store as it was put, and after 1,000 imports of one blob.
fn look_ups(rt: &HostRuntime) -> Result<()> {
    let alloc = rt.alloc();
    let mut store = Store::new(alloc, GitNaming);
    let commit = put_commit(alloc, &mut store)?;
    for number in 0..BLOBS {
        store.put_blob(blob(alloc, number)?.as_slice())?;
    }
    let ids = ids(alloc, BLOBS)?;
    look_up(rt, "as put", &store, commit)?;
    read_blobs(rt, "as put", &store, ids.as_slice())?;
    for number in 0..1_000 {
        import_one(alloc, &mut store, BLOBS.saturating_add(number))?;
    }
    look_up(rt, "after 1,000 imports", &store, commit)?;
    read_blobs(rt, "after 1,000 imports", &store, ids.as_slice())
}

fn main(rt: HostRuntime) -> Result<()> {
    put_all(&rt)?;
    for batches in [1, 1_000, BLOBS] {
        import_all(&rt, batches)?;
    }
    for count in [1_000, 100_000, 1_000_000] {
        copies(&rt, count)?;
    }
    look_ups(&rt)
}
