//! Git's format: entries of trees one by one and by rows, and what a commit names.

use eden_git::{
    Columns, EntryFault, ObjectType, RawEntry, Rows, cut, key_order, next_entry, read_entry,
    same_type, tree_named,
};
use eden_ids::{Id, Kind};
use std::alloc::Global;
use std::cmp::Ordering;
use std::test::Fail;
use test_kit::push_entry;

/// An executable file, a directory and a link, each with the byte of which its id has twenty.
const ENTRIES: &[(&str, &str, Option<Kind>, u8)] = &[
    ("100755", "a.b", Some(Kind::Exec), 1),
    ("40000", "a", None, 2),
    ("120000", "a link", Some(Kind::Link), 3),
];

/// The bytes of the first of these entries, so many.
fn first_entries(alloc: Global, count: usize) -> Result<Vec<u8>, Fail> {
    let mut payload = Vec::new(alloc);
    for (mode, name, _, byte) in ENTRIES.iter().take(count) {
        push_entry(&mut payload, mode, name.as_bytes(), Id([*byte; 20]))?;
    }
    Ok(payload)
}

/// What an entry tells: its name, its kind and its id.
type Told<'a> = (&'a [u8], Option<Kind>, Id);

/// The first entry of a payload, and what stands behind it.
fn first_of(payload: &[u8]) -> Option<(Told<'_>, &[u8])> {
    let (entry, rest) = next_entry(payload)?;
    Some(((entry.name, entry.kind, entry.id), rest))
}

/// The entry at a row, if its id is the one that stands in the column of ids.
fn entry_at<'a>(rows: &Rows<'a>, row: usize) -> Option<Told<'a>> {
    let entry = rows.entry(row)?;
    if rows.ids().get(row)? != entry.id {
        return None;
    }
    Some((entry.name, entry.kind, entry.id))
}

/// What is left of a payload behind the first of these entries, so many, if each is told as it is.
fn left_behind(payload: &[u8], count: usize) -> Option<&[u8]> {
    let mut left = payload;
    for (_, name, kind, byte) in ENTRIES.iter().take(count) {
        let (one, rest) = first_of(left)?;
        if one != (name.as_bytes(), *kind, Id([*byte; 20])) {
            return None;
        }
        left = rest;
    }
    Some(left)
}

/// Whether rows begin with the first of these entries, so many, and end behind them.
fn are_rows(rows: &Rows<'_>, count: usize) -> bool {
    let alike = ENTRIES.iter().take(count).enumerate().all(|(row, entry)| {
        let (_, name, kind, byte) = entry;
        entry_at(rows, row) == Some((name.as_bytes(), *kind, Id([*byte; 20])))
    });
    alike && entry_at(rows, count).is_none()
}

// Behind them are bytes that are no entry, or none.
#[test]
fn entries_one_by_one_and_by_rows(rt: HostRuntime) -> Result<(), Fail> {
    let alloc = rt.alloc();
    for (count, behind) in &[(2, ""), (3, "100644 cut")] {
        let behind = behind.as_bytes();
        let mut payload = first_entries(alloc, *count)?;
        payload.extend_from_slice(behind)?;
        let payload = &payload[..payload.len().min(200)];
        assert!(rt; left_behind(payload, *count) == Some(behind) && first_of(behind).is_none());
        let columns = Columns::of(alloc, payload)?;
        let rows = Rows::new(payload, &columns);
        assert!(rt; are_rows(&rows, *count));
        assert!(rt; (rows.len(), rows.ids().len()) == (*count, *count));
        assert!(rt; rows.kinds().starts_with([2, 0].as_slice()));
    }
    Ok(())
}

/// The bytes of plain files with these names, each with an id of its place.
fn files(alloc: Global, names: &str) -> Result<Vec<u8>, Fail> {
    let mut payload = Vec::new(alloc);
    for (place, name) in names.split(' ').enumerate().take(100) {
        push_entry(
            &mut payload,
            "100644",
            name.as_bytes(),
            Id([place as u8; 20]),
        )?;
    }
    Ok(payload)
}

/// Whether the trees of plain files with these names have the same names.
fn have_same_names(alloc: Global, names: &str, others: &str) -> Result<bool, Fail> {
    let (payload, other) = (files(alloc, names)?, files(alloc, others)?);
    let payload = &payload[..payload.len().min(1000)];
    let other = &other[..other.len().min(1000)];
    let (columns, beside) = (Columns::of(alloc, payload)?, Columns::of(alloc, other)?);
    Ok(Rows::new(payload, &columns).has_names_of(&Rows::new(other, &beside)))
}

/// The names of two trees, and whether they are the same.
const NAMES: &[(&str, &str, bool)] = &[
    ("a b.c d", "a b.c d", true),
    ("a b.c d", "a b.c e", false),
    ("a b.c d", "a b.cd", false),
    ("ab c", "a bc", false),
    ("a b", "a", false),
    ("a", "a b", false),
];

#[test]
fn names_of_two_trees(rt: HostRuntime) -> Result<(), Fail> {
    for (names, others, same) in NAMES {
        let told = have_same_names(rt.alloc(), names, others)?;
        assert!(rt; told == *same, "{names}, {others}");
    }
    Ok(())
}

/// Bytes that are no entry, and why.
const FAULTS: &[(&str, EntryFault)] = &[
    ("100755", EntryFault::CutShort),
    ("100755 a", EntryFault::CutShort),
    ("160000 a", EntryFault::BadMode),
    ("040000 a\0", EntryFault::BadMode),
    ("100644 \0", EntryFault::BadName),
    ("100644 ..\0", EntryFault::BadName),
    ("100644 a/b\0", EntryFault::BadName),
    ("100644 a\0", EntryFault::CutShort),
];

#[test]
fn entries_that_cannot_be_read(rt: HostRuntime) -> Result<(), Fail> {
    let payload = first_entries(rt.alloc(), 2)?;
    for length in [0, 5, 10, 11, 30] {
        let cut = &payload[..length.min(payload.len())];
        assert!(rt;
            read_entry(cut).err() == Some(EntryFault::CutShort),
            "at {length}"
        );
    }
    for (text, fault) in FAULTS {
        let fault_of = read_entry(text.as_bytes()).err();
        assert!(rt; fault_of == Some(*fault), "at {text}");
    }
    Ok(())
}

/// How a directory `a` is ordered beside a file of a name.
fn order_beside(name: &[u8]) -> Ordering {
    let id = Id([1; 20]);
    let directory = RawEntry {
        name: b"a".as_slice(),
        kind: None,
        id,
    };
    let kind = Some(Kind::Plain);
    key_order(&directory, &RawEntry { name, kind, id })
}

#[test]
fn a_directory_is_compared_with_its_slash(rt: HostRuntime) {
    assert!(rt; order_beside(b"a.b".as_slice()) == Ordering::Greater);
    assert!(rt; order_beside(b"a0".as_slice()) == Ordering::Less);
    assert!(rt; order_beside(b"a".as_slice()) == Ordering::Greater);
}

#[test]
fn what_a_commit_names(rt: HostRuntime) -> Result<(), Fail> {
    let text = b"tree ce013625030ba8dba906f756967f9e9ca394464a\nauthor a\n".as_slice();
    let id = Id::from_hex(b"ce013625030ba8dba906f756967f9e9ca394464a".as_slice())?;
    assert_eq!(rt; tree_named(text), Some(id));
    assert_eq!(rt; tree_named(&text[..45.min(text.len())]), None);
    assert_eq!(rt; tree_named(&text[1..]), None);
    Ok(())
}

/// The words, and their texts.
const OBJECT_TYPES: &[(ObjectType, &str)] = &[
    (ObjectType::Blob, "blob"),
    (ObjectType::Tree, "tree"),
    (ObjectType::Commit, "commit"),
];

#[test]
fn words_and_cuts(rt: HostRuntime) {
    for (object_type, text) in OBJECT_TYPES {
        assert!(rt; object_type.text() == text.as_bytes(), "{text}");
        for (other, _) in OBJECT_TYPES {
            assert!(rt;
                same_type(*object_type, *other) == (object_type == other),
                "{text}"
            );
        }
    }
    let parts = cut(b"d/e/f".as_slice(), b'/');
    assert!(rt; parts == Some((b"d".as_slice(), b"e/f".as_slice())));
    assert!(rt; cut(b"f".as_slice(), b'/').is_none());
}
