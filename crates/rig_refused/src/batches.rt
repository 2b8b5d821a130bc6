//! Objects as Git prints them, read into a store and into a mount.

use crate::mounted::empty_mount;
use crate::objects::tell_id;
use crate::refusals::{Refusals, again};
use anyhow::{Result, bail};
use eden_accumulate::Mount;
use eden_batch::{ObjectsFault, read_objects};
use eden_ids::{GitNaming, Id, Sequence};
use eden_objects::{Importer, Store};
use eden_stream::Counted;
use std::alloc::Global;
use test_kit::{GIT_PRINTED, GIT_PRINTED_IDS};

/// Reads the batch into a store, or a mount.
fn read<I: Importer>(alloc: Global, into: &mut I) -> Result<Sequence<Id>, ObjectsFault> {
    read_objects(alloc, &mut Counted::new(GIT_PRINTED), into)
}

/// The ids of the batch's objects.
fn ids(alloc: Global) -> Result<Vec<Id>> {
    let mut ids = Vec::new(alloc);
    for word in GIT_PRINTED_IDS.split_ascii_whitespace() {
        ids.push(Id::from_hex(word.as_bytes())?)?;
    }
    Ok(ids)
}

/// Whether a store has an object of an id.
fn has(store: &Store<GitNaming>, id: Id) -> bool {
    store.blob(id).is_some() || store.tree(id).is_some() || store.has_commit(id)
}

/// All objects before the one of this number, from 1, are there, and of it and those behind it one at the most.
fn is_front(store: &Store<GitNaming>, ids: &[Id], number: u64) -> bool {
    let before = number.saturating_sub(1) as usize;
    let there = ids.iter().filter(|id| has(store, **id)).count();
    let kept = ids.iter().take(before).all(|id| has(store, *id));
    kept && there <= before.saturating_add(1)
}

/// The batch was read, or is to be read anew, where memory was refused before an object was put.
fn is_read(
    read: Result<Sequence<Id>, ObjectsFault>,
    store: &Store<GitNaming>,
    ids: &[Id],
) -> Result<bool> {
    match read {
        Err(ObjectsFault::NoMemory { number }) => {
            if !is_front(store, ids, number) {
                bail!("other objects are there than those before the refusal");
            }
            Ok(false)
        }
        Err(fault) => Err(fault.into()),
        Ok(read) => {
            if read.as_slice() != ids {
                bail!("other ids are told than Git's");
            }
            Ok(true)
        }
    }
}

/// A store into which the batch was read, anew where memory was refused.
fn read_store(alloc: Global, refusals: &mut Refusals, ids: &[Id]) -> Result<Store<GitNaming>> {
    let mut store = Store::new(alloc, GitNaming);
    let first = read(alloc, &mut store);
    if !is_read(first, &store, ids)? {
        refusals.add();
        let second = read(alloc, &mut store);
        let _ = is_read(second, &store, ids)?;
    }
    Ok(store)
}

/// A mount into which the batch was read, anew where memory was refused.
fn read_mount(alloc: Global, refusals: &mut Refusals, ids: &[Id]) -> Result<Mount<GitNaming>> {
    let mut mount = empty_mount(alloc)?;
    let first = read(alloc, &mut mount);
    if !is_read(first, mount.store(), ids)? {
        refusals.add();
        let second = read(alloc, &mut mount);
        let _ = is_read(second, mount.store(), ids)?;
    }
    Ok(mount)
}

/// Tells which of these objects both have.
fn tell_both(
    rt: &HostRuntime,
    store: &Store<GitNaming>,
    mounted: &Store<GitNaming>,
    ids: &[Id],
) -> Result<()> {
    for id in ids {
        let both = has(store, *id) && has(mounted, *id);
        tell_id(rt, if both { "has" } else { "lacks" }, *id)?;
    }
    Ok(())
}

/// Reads the batch into a store and into a mount, and tells which of its objects both have.
fn read_both(rt: &HostRuntime, refusals: &mut Refusals, ids: &[Id]) -> Result<()> {
    let alloc = rt.alloc();
    let store = read_store(alloc, refusals, ids)?;
    let mount = read_mount(alloc, refusals, ids)?;
    tell_both(rt, &store, mount.store(), ids)
}

/// Reads the batch where each growth may be refused.
pub(crate) fn read_batch(rt: &HostRuntime) -> Result<u64> {
    let mut refusals = Refusals::new();
    let ids = again!(refusals, _, ids(rt.alloc()));
    read_both(rt, &mut refusals, ids.as_slice())?;
    Ok(refusals.count())
}
