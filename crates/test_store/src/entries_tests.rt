//! The entries of a tree, as a list and by rows, and the tree of a commit.

use eden_ids::{GitNaming, Id, Kind};
use eden_objects::{Entry, Store, next_entry};
use std::alloc::Global;
use std::process::Abort;
use std::test::Fail;
use test_kit::Objects;

/// An empty file and a directory, whose name is compared with a slash behind it; and a commit of both.
const TWO: &str = "blob x x;tree e;tree t 100755 a.b x 40000 a e;commit c t";

/// What an entry tells: its name, its kind and its id.
type Told<'a> = (&'a [u8], Option<Kind>, Id);

fn tree(store: &Store<GitNaming>, id: Id) -> Option<&[u8]> {
    store.tree(id)
}

/// The first entry of a payload, and what stands behind it.
fn first_of(payload: &[u8]) -> Option<(Told<'_>, &[u8])> {
    let (entry, rest) = next_entry(payload)?;
    Some(((entry.name, entry.kind, entry.id), rest))
}

fn entries(store: &Store<GitNaming>, id: Id) -> Result<Option<Vec<Entry>>, Fail> {
    Ok(store.entries(id)?)
}

/// The entries that tell this, in their order.
fn wanted(alloc: Global, rows: &[Told<'_>]) -> Result<Vec<Entry>, Fail> {
    let mut entries = Vec::new(alloc);
    for (name, kind, id) in rows {
        let (name, kind, id) = (name.to_vec(alloc)?, *kind, *id);
        entries.push(Entry { name, kind, id })?;
    }
    Ok(entries)
}

/// Checks the entries of the tree `t`, one by one and as a list, and that other objects have none.
fn check_entries(rt: &impl Abort, alloc: Global, objects: &Objects) -> Result<(), Fail> {
    let store = &objects.store;
    let (blob, empty) = (objects.id("x"), objects.id("e"));
    let rows = [
        (b"a.b".as_slice(), Some(Kind::Exec), blob),
        (b"a".as_slice(), None, empty),
    ];
    let mut left = tree(store, objects.id("t")).ok_or("no tree")?;
    for row in &rows {
        let (read, rest) = first_of(left).ok_or("a tree has its entries")?;
        assert!(rt; read == *row);
        left = rest;
    }
    assert!(rt; left.is_empty() && first_of(left).is_none());
    let wanted = wanted(alloc, &rows)?;
    assert!(rt; entries(store, objects.id("t"))? == Some(wanted));
    assert!(rt; entries(store, empty)? == Some(Vec::new(alloc)));
    assert!(rt; entries(store, blob)?.is_none());
    assert!(rt; tree(store, blob).is_none());
    Ok(())
}

#[test]
fn entries_in_their_order(rt: HostRuntime) -> Result<(), Fail> {
    let objects = Objects::of(rt.alloc(), TWO)?;
    check_entries(&rt, rt.alloc(), &objects)
}

/// Of the rows of a tree: how many they are, the name at the second one, the ids at the first two, and all kinds.
type Rows<'a> = (usize, Option<&'a [u8]>, [Option<Id>; 2], &'a [u8]);

fn rows_of(store: &Store<GitNaming>, id: Id) -> Option<Rows<'_>> {
    let rows = store.rows(id)?;
    let name = rows.entry(1).map(|entry| entry.name);
    let ids = [rows.ids().get(0), rows.ids().get(1)];
    Some((rows.len(), name, ids, rows.kinds()))
}

fn tree_of(store: &Store<GitNaming>, id: Id) -> Option<Id> {
    store.tree_of(id)
}

#[test]
fn entries_by_rows(rt: HostRuntime) -> Result<(), Fail> {
    let objects = Objects::of(rt.alloc(), TWO)?;
    let store = &objects.store;
    let ids = [Some(objects.id("x")), Some(objects.id("e"))];
    let two = (2, Some(b"a".as_slice()), ids, [2, 0].as_slice());
    assert!(rt; rows_of(store, objects.id("t")) == Some(two));
    let none = (0, None, [None; 2], [].as_slice());
    assert!(rt; rows_of(store, objects.id("e")) == Some(none));
    for id in [objects.id("x"), Id([1; 20])] {
        assert!(rt; rows_of(store, id).is_none());
    }
    assert!(rt; tree_of(store, objects.id("c")) == Some(objects.id("t")));
    for name in &["empty", "t", "x", "unknown"] {
        assert!(rt; tree_of(store, objects.id(name)).is_none(), "{name}");
    }
    Ok(())
}
