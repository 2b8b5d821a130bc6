//! Imports of several objects, and what copies of a store keep while it grows.

use bytes::Bytes;
use eden_ids::{GitNaming, Id, Kind, Naming, NoMemory};
use eden_objects::{ImportFault, Object, ObjectType, PutFault, Store};
use std::alloc::Global;
use std::process::Abort;
use std::test::Fail;
use test_kit::{FirstByte, push_entry};

/// An object that is imported: its kind and its payload.
type Part = (ObjectType, &'static [u8]);

/// The objects of these kinds and payloads.
fn objects_of(alloc: Global, parts: &[Part]) -> Result<Vec<Object>, Fail> {
    let mut objects = Vec::new(alloc);
    for (object_type, payload) in parts {
        let payload = Bytes::copy_from_slice(alloc, payload)?;
        objects.push(Object {
            object_type: *object_type,
            payload,
        })?;
    }
    Ok(objects)
}

/// The place of an object that is refused, and why.
type Bad = (u64, PutFault);

fn imported<N: Naming + Drop>(store: &mut Store<N>, objects: &[Object]) -> Result<(), ImportFault> {
    store.import(objects)
}

/// Imports these objects. Tells which is refused, if one is.
fn import<N: Naming + Drop>(store: &mut Store<N>, objects: &[Object]) -> Result<Option<Bad>, Fail> {
    match imported(store, objects) {
        Ok(()) => Ok(None),
        Err(ImportFault::BadObject { place, fault }) => Ok(Some((place, fault))),
        Err(fault) => Err(Fail::from(fault)),
    }
}

fn import_parts<N: Naming + Drop>(
    store: &mut Store<N>,
    parts: &[Part],
) -> Result<Option<Bad>, Fail> {
    let objects = objects_of(store.allocator(), parts)?;
    import(store, objects.as_slice())
}

/// The blobs of a store in which an id has twenty copies of one letter: the payloads of `a`, `b` and `c`.
type Blobs<'a> = [Option<&'a [u8]>; 3];

fn blob<N: Naming + Drop>(store: &Store<N>, id: Id) -> Option<&[u8]> {
    store.blob(id)
}

fn blobs(store: &Store<FirstByte>) -> Blobs<'_> {
    [
        blob(store, Id([b'a'; 20])),
        blob(store, Id([b'b'; 20])),
        blob(store, Id([b'c'; 20])),
    ]
}

const AB: Part = (ObjectType::Blob, b"ab");

const AC: Part = (ObjectType::Blob, b"ac");

const B: Part = (ObjectType::Blob, b"b");

const C: Part = (ObjectType::Blob, b"c");

const NONE: Part = (ObjectType::Blob, b"");

/// The tree without entries has no first byte.
const EMPTY: Part = (ObjectType::Tree, b"");

/// Another kind of object is another object.
const CUT: Part = (ObjectType::Tree, b"ab");

const NO_BLOB: Blobs<'static> = [None; 3];

const ONE_BLOB: Blobs<'static> = [Some(b"ab"), None, None];

const TWO_BLOBS: Blobs<'static> = [Some(b"ab"), Some(b"b"), None];

/// Imports into one store, one after another: the objects, the first one that is refused, and the blobs then.
const IMPORTS: [(&[Part], Option<Bad>, Blobs<'static>); 11] = [
    (&[], None, NO_BLOB),
    (&[AB, AC], Some((1, PutFault::IdTaken)), NO_BLOB),
    // The first fault is told.
    (&[B, NONE, AB, AC], Some((1, PutFault::ZeroId)), NO_BLOB),
    (&[AB], None, ONE_BLOB),
    (&[AB, AB], None, ONE_BLOB),
    (&[AC], Some((0, PutFault::IdTaken)), ONE_BLOB),
    (
        &[AB, B, AB, C, AC, NONE],
        Some((4, PutFault::IdTaken)),
        ONE_BLOB,
    ),
    (&[EMPTY], Some((0, PutFault::ZeroId)), ONE_BLOB),
    (&[B, CUT], Some((1, PutFault::CutShort)), ONE_BLOB),
    (&[AB, B, AB], None, TWO_BLOBS),
    (&[], None, TWO_BLOBS),
];

#[test]
fn import_refusals(rt: HostRuntime) -> Result<(), Fail> {
    let mut store = Store::new(rt.alloc(), FirstByte);
    for (parts, bad, held) in &IMPORTS {
        assert!(rt; import_parts(&mut store, parts)? == *bad, "{parts:?}");
        assert!(rt; blobs(&store) == *held, "{parts:?}");
    }
    Ok(())
}

// Here the ids are those that `git hash-object` and `git mktree` give to the same bytes.

/// Two files.
const X: Part = (ObjectType::Blob, b"x");

const Y: Part = (ObjectType::Blob, b"y");

/// A tree that has the first one as `a`, and a tree that has this tree as `d`.
const A: Part = (
    ObjectType::Tree,
    b"100644 a\0\xc1\xb0\x73\x0e\x01\x33\x44\x7b\xad\xcf\xd4\x7f\xd1\x44\xe2\x54\x80\x7b\x06\xe1",
);

const D: Part = (
    ObjectType::Tree,
    b"40000 d\0\xae\xbd\xa9\xdc\x3b\xa9\xfc\xf1\x57\xd9\x84\xe4\x87\x50\x52\xd3\x13\xf5\x1a\x60",
);

/// The commits of both trees, and what would be one of a file.
const OF_A: Part = (
    ObjectType::Commit,
    b"tree aebda9dc3ba9fcf157d984e4875052d313f51a60\n",
);

const OF_D: Part = (
    ObjectType::Commit,
    b"tree 5ab25eb7b77ecd6c06f51efc523e84c74fb24ddb\n",
);

const OF_X: Part = (ObjectType::Commit, TREE_X);

const TREE_X: &[u8] = b"tree c1b0730e0133447badcfd47fd144e254807b06e1\n";

/// A letter for each of the files, the trees and the commits, and its id.
const IDS: &[(u8, &str)] = &[
    (b'x', "c1b0730e0133447badcfd47fd144e254807b06e1"),
    (b'y', "e25f1814e51579d5f55c0f1fe0135ddb28a47f4a"),
    (b'a', "aebda9dc3ba9fcf157d984e4875052d313f51a60"),
    (b'd', "5ab25eb7b77ecd6c06f51efc523e84c74fb24ddb"),
    (b'r', "a5f432733ca9696dcb3c9e4a29d95e17adf94972"),
    (b's', "862425d64e2c4c77cd19109249b680588db47326"),
];

fn id_of(text: &str) -> Result<Id, Fail> {
    Ok(Id::from_hex(text.as_bytes())?)
}

fn has_object(store: &Store<GitNaming>, id: Id) -> bool {
    store.blob(id).is_some() || store.tree(id).is_some() || store.has_commit(id)
}

/// The letters of those that a store has.
fn letters(alloc: Global, store: &Store<GitNaming>) -> Result<Vec<u8>, Fail> {
    let mut letters = Vec::new(alloc);
    for (letter, text) in IDS {
        if has_object(store, id_of(text)?) {
            letters.push(*letter)?;
        }
    }
    Ok(letters)
}

/// Imports into one store, one after another: the objects, the first one that is refused, and the letters of those that there are then.
const IMPORTS_OF_KINDS: &[(&[Part], Option<Bad>, &str)] = &[
    (&[], None, ""),
    (&[A], Some((0, PutFault::MissingChild)), ""),
    (&[X, OF_A, A], Some((1, PutFault::MissingChild)), ""),
    (&[Y, X, D, A], Some((2, PutFault::MissingChild)), ""),
    (
        &[X, A, OF_A, OF_X, OF_D],
        Some((3, PutFault::WrongChildKind)),
        "",
    ),
    (&[X, A, OF_A], None, "xar"),
    (&[X, A, OF_A], None, "xar"),
    (&[OF_A], None, "xar"),
    (&[Y, OF_D, D], Some((1, PutFault::MissingChild)), "xar"),
    (&[D, Y, OF_D, D], None, "xyadrs"),
    (
        &[OF_D, X, OF_X],
        Some((2, PutFault::WrongChildKind)),
        "xyadrs",
    ),
];

/// Checks each import of the table, and at last the file at `d/a` of the commit of both trees.
fn check_imports(rt: &impl Abort, store: &mut Store<GitNaming>) -> Result<(), Fail> {
    for (parts, bad, held) in IMPORTS_OF_KINDS {
        assert!(rt; import_parts(store, parts)? == *bad, "{parts:?}");
        let letters = letters(store.allocator(), store)?;
        assert!(rt; letters.as_slice() == held.as_bytes(), "{parts:?}");
    }
    let file = store.file(id_of(IDS[5].1)?, b"d/a".as_slice());
    assert!(rt;
        file.is_some_and(|(kind, bytes)| kind == Kind::Plain && bytes.as_slice() == b"x".as_slice())
    );
    Ok(())
}

#[test]
fn imports_of_each_kind(rt: HostRuntime) -> Result<(), Fail> {
    let mut store = Store::new(rt.alloc(), GitNaming);
    check_imports(&rt, &mut store)
}

/// The fault of the third object, if the import is refused for it and leaves the store without objects.
fn fault_in(store: &mut Store<GitNaming>, objects: &[Object]) -> Result<Option<PutFault>, Fail> {
    let bad = import(store, objects)?;
    let is_empty = letters(store.allocator(), store)?.is_empty();
    match bad {
        Some((2, fault)) if is_empty => Ok(Some(fault)),
        _ => Ok(None),
    }
}

/// The fault of an object behind two others that are not refused, if that is told of the third place and nothing is imported.
fn fault_of_third(
    alloc: Global,
    object_type: ObjectType,
    payload: Vec<u8>,
) -> Result<Option<PutFault>, Fail> {
    let mut objects = objects_of(alloc, [X, A].as_slice())?;
    let payload = Bytes::copy_from_slice(alloc, payload.as_slice())?;
    objects.push(Object {
        object_type,
        payload,
    })?;
    let mut store = Store::new(alloc, GitNaming);
    fault_in(&mut store, objects.as_slice())
}

/// An entry of a tree: its mode, its name, and the letter of what it names.
type Entry = (&'static str, &'static str, u8);

/// Entries that no tree has, and why. No object has the letter `z`.
const BAD_TREES: &[(&[Entry], PutFault)] = &[
    (&[("160000", "a", b'x')], PutFault::BadMode),
    (&[("100644", "..", b'x')], PutFault::BadName),
    (
        &[("100644", "b", b'x'), ("100644", "a", b'x')],
        PutFault::OutOfOrder,
    ),
    (
        &[("100644", "b", b'x'), ("40000", "b", b'a')],
        PutFault::Duplicate,
    ),
    (&[("100644", "b", b'z')], PutFault::MissingChild),
    (&[("100644", "b", b'a')], PutFault::WrongChildKind),
];

/// The id of a letter, or one that no object has.
fn id_of_letter(named: u8) -> Result<Id, Fail> {
    match IDS.iter().find(|(letter, _)| *letter == named) {
        Some((_, text)) => id_of(text),
        None => Ok(Id([1; 20])),
    }
}

/// The payload of a tree.
fn entries_of(alloc: Global, entries: &[Entry]) -> Result<Vec<u8>, Fail> {
    let mut payload = Vec::new(alloc);
    for (mode, name, named) in entries {
        push_entry(&mut payload, mode, name.as_bytes(), id_of_letter(*named)?)?;
    }
    Ok(payload)
}

/// Payloads that no object has, and why.
const BAD_PAYLOADS: &[(ObjectType, &[u8], PutFault)] = &[
    (ObjectType::Tree, b"100644 b", PutFault::CutShort),
    (ObjectType::Commit, b"tree ", PutFault::CutShort),
    (ObjectType::Commit, &[b't'; 46], PutFault::BadCommit),
    (ObjectType::Commit, TREE_X, PutFault::WrongChildKind),
];

/// The row of the first tree that is not refused as it says.
fn first_wrong_tree(alloc: Global) -> Result<Option<usize>, Fail> {
    for (row, (entries, fault)) in BAD_TREES.iter().enumerate() {
        let payload = entries_of(alloc, entries)?;
        if fault_of_third(alloc, ObjectType::Tree, payload)? != Some(*fault) {
            return Ok(Some(row));
        }
    }
    Ok(None)
}

/// The row of the first payload that is not.
fn first_wrong_payload(alloc: Global) -> Result<Option<usize>, Fail> {
    for (row, (object_type, payload, fault)) in BAD_PAYLOADS.iter().enumerate() {
        let payload = payload.to_vec(alloc)?;
        if fault_of_third(alloc, *object_type, payload)? != Some(*fault) {
            return Ok(Some(row));
        }
    }
    Ok(None)
}

#[test]
fn imports_are_refused_for_each_fault(rt: HostRuntime) -> Result<(), Fail> {
    let alloc = rt.alloc();
    assert_eq!(rt; first_wrong_tree(alloc)?, None);
    assert_eq!(rt; first_wrong_payload(alloc)?, None);
    for object_type in &[ObjectType::Blob, ObjectType::Tree, ObjectType::Commit] {
        let large = vec![in alloc; b'a'; 8_388_609]?;
        let fault = fault_of_third(alloc, *object_type, large)?;
        assert!(rt; fault == Some(PutFault::TooLarge), "{object_type:?}");
    }
    Ok(())
}

/// A tree that has one entry, and its id.
fn only(alloc: Global, mode: &str, name: &[u8], id: Id) -> Result<(Object, Id), Fail> {
    let mut payload = Vec::new(alloc);
    push_entry(&mut payload, mode, name, id)?;
    let id = GitNaming.id_of(b"tree".as_slice(), payload.as_slice());
    let payload = Bytes::copy_from_slice(alloc, payload.as_slice())?;
    let object_type = ObjectType::Tree;
    Ok((
        Object {
            object_type,
            payload,
        },
        id,
    ))
}

/// A file and so many trees, each of which has the one before as its only entry, with a name of this length.
fn levels_of(alloc: Global, levels: usize, length: usize) -> Result<Vec<Object>, Fail> {
    let mut objects = objects_of(alloc, [X].as_slice())?;
    let name = vec![in alloc; b'd'; length]?;
    let (mut mode, mut id) = ("100644", id_of(IDS[0].1)?);
    for _ in 0..levels {
        let (object, tree) = only(alloc, mode, name.as_slice(), id)?;
        objects.push(object)?;
        (mode, id) = ("40000", tree);
    }
    Ok(objects)
}

/// How many levels, the length of each name, and which object is refused.
const LEVELS: &[(usize, usize, Option<Bad>)] = &[
    (65, 1, Some((65, PutFault::TooDeep))),
    (64, 1, None),
    // 64 names of 15 bytes and the slashes between them have 1,023 bytes, and four names of 256 are too long at once.
    (64, 15, None),
    (5, 255, Some((5, PutFault::PathTooLong))),
    (4, 255, None),
];

/// What an import into a store is answered with, and the letters of those that the store has then.
fn answer_and_letters(
    store: &mut Store<GitNaming>,
    objects: &[Object],
) -> Result<(Option<Bad>, Vec<u8>), Fail> {
    let bad = import(store, objects)?;
    Ok((bad, letters(store.allocator(), store)?))
}

#[test]
fn imports_of_deep_trees(rt: HostRuntime) -> Result<(), Fail> {
    let alloc = rt.alloc();
    for (levels, length, bad) in LEVELS {
        let objects = levels_of(alloc, *levels, *length)?;
        let mut store = Store::new(alloc, GitNaming);
        let (told, letters) = answer_and_letters(&mut store, objects.as_slice())?;
        assert!(rt; told == *bad, "{levels} levels");
        let held: &[u8] = if bad.is_none() { b"x" } else { b"" };
        assert!(rt; letters.as_slice() == held, "{levels} levels");
    }
    Ok(())
}

/// How many objects are put one by one, a copy being taken behind each.
const BLOBS: u8 = 40;

fn put(store: &mut Store<FirstByte>, first: u8, second: u8) -> Result<Id, PutFault> {
    store.put_blob([first, second].as_slice())
}

/// Whether a store has the object of this first byte that has a `b` behind it: no other object takes its id.
fn keeps(store: &mut Store<FirstByte>, first: u8) -> bool {
    let id = Id([first; 20]);
    put(store, first, b'b') == Ok(id)
        && put(store, first, b'c') == Err(PutFault::IdTaken)
        && store.blob(id) == Some([first, b'b'].as_slice())
}

/// Whether it has just those of these first bytes.
fn keeps_first(store: &mut Store<FirstByte>, count: u8) -> bool {
    (1..=count).all(|first| keeps(store, first))
}

fn copy_of<N: Naming + Drop>(store: &mut Store<N>) -> Result<Store<N>, NoMemory> {
    store.share()
}

/// Puts the object of a first byte. Gives a copy of the store, if that has just the objects up to this one.
fn put_next(store: &mut Store<FirstByte>, first: u8) -> Result<Option<Store<FirstByte>>, Fail> {
    if put(store, first, b'b') != Ok(Id([first; 20])) {
        return Ok(None);
    }
    let copy = copy_of(store)?;
    Ok(if keeps_first(store, first) {
        Some(copy)
    } else {
        None
    })
}

/// Whether a copy has just so many objects, also behind another one: there the id of a later object is still to be had.
fn keeps_apart(copy: &mut Store<FirstByte>, count: u8) -> bool {
    let next = count.wrapping_add(1);
    keeps_first(copy, count)
        && put(copy, next, b'c') == Ok(Id([next; 20]))
        && keeps_first(copy, count)
}

/// Puts the objects one by one, and adds a copy of the store after each.
fn add_copies(
    store: &mut Store<FirstByte>,
    copies: &mut Vec<Store<FirstByte>>,
) -> Result<(), Fail> {
    for first in 1..=BLOBS {
        copies.push(put_next(store, first)?.ok_or("an object is replaced")?)?;
    }
    Ok(())
}

#[test]
fn object_replaced(rt: HostRuntime) -> Result<(), Fail> {
    let mut store = Store::new(rt.alloc(), FirstByte);
    let mut copies = Vec::new(rt.alloc());
    add_copies(&mut store, &mut copies)?;
    for (copy, count) in copies.iter_mut().zip(1..=BLOBS) {
        assert!(rt; keeps_apart(copy, count), "{count} objects");
    }
    assert!(rt; keeps_first(&mut store, BLOBS));
    Ok(())
}

/// How many objects are imported, three at a time.
const IMPORTED: usize = 100;

/// Adds files that hold the numbers up to that one, and their ids.
fn add_numbered(alloc: Global, objects: &mut Vec<Object>, ids: &mut Vec<Id>) -> Result<(), Fail> {
    for number in 0..=IMPORTED {
        let text = format!(in alloc; "{number}")?;
        ids.push(GitNaming.id_of(b"blob".as_slice(), text.as_bytes()))?;
        let payload = Bytes::copy_from_slice(alloc, text.as_bytes())?;
        objects.push(Object {
            object_type: ObjectType::Blob,
            payload,
        })?;
    }
    Ok(())
}

/// Whether a store has just the first ones of these objects.
fn has_just(store: &Store<GitNaming>, ids: &[Id], count: usize) -> bool {
    ids.iter().enumerate().all(|(number, id)| blob(store, *id).is_some() == (number < count))
}

/// Imports these objects into a store that has so many. Where a growth is refused nothing is changed, and they are imported once more.
fn import_some(
    rt: &impl Abort,
    store: &mut Store<GitNaming>,
    objects: &[Object],
    ids: &[Id],
    count: usize,
) -> Result<(), Fail> {
    match imported(store, objects) {
        Err(ImportFault::NoMemory) => {
            assert!(rt;
                has_just(store, ids, count),
                "half an import behind {count} objects"
            );
            Ok(imported(store, objects)?)
        }
        told => Ok(told?),
    }
}

/// A copy of a store that has so many objects. Where a growth is refused nothing is changed, and it is taken once more.
fn copied(
    rt: &impl Abort,
    store: &mut Store<GitNaming>,
    ids: &[Id],
    count: usize,
) -> Result<Store<GitNaming>, Fail> {
    match copy_of(store) {
        Err(NoMemory) => {
            assert!(rt;
                has_just(store, ids, count),
                "another store of {count} objects"
            );
            Ok(copy_of(store)?)
        }
        Ok(copy) => Ok(copy),
    }
}

/// Copies of a store, and how many objects each has.
type Copies = Vec<(Store<GitNaming>, usize)>;

/// Imports these objects into an empty store, three at a time. Adds a copy of the store after each import.
fn import_by_threes(
    rt: &impl Abort,
    store: &mut Store<GitNaming>,
    copies: &mut Copies,
    objects: &[Object],
    ids: &[Id],
) -> Result<(), Fail> {
    let mut count = 0usize;
    for some in objects.chunks(3) {
        import_some(rt, store, some, ids, count)?;
        count = count.saturating_add(some.len());
        copies.push((copied(rt, store, ids, count)?, count))?;
    }
    assert_eq!(rt; count, IMPORTED);
    Ok(())
}

/// What is imported into a copy is there behind all others.
fn grow_apart(
    rt: &impl Abort,
    copies: &mut [(Store<GitNaming>, usize)],
    last: &[Object],
    ids: &[Id],
) -> Result<(), Fail> {
    let (copy, _) = copies.last_mut().ok_or("no copy was taken")?;
    imported(copy, last)?;
    assert!(rt; has_just(copy, ids, IMPORTED + 1));
    Ok(())
}

/// Checks what each copy has of these objects, of which the last one is imported into the last copy alone.
fn check_copies(
    rt: &impl Abort,
    store: &mut Store<GitNaming>,
    copies: &mut Copies,
    objects: &[Object],
    ids: &[Id],
) -> Result<(), Fail> {
    let (Some(first), Some(last)) = (objects.get(..IMPORTED), objects.get(IMPORTED..)) else {
        return Err(Fail::new("an object is missing"));
    };
    import_by_threes(rt, store, copies, first, ids)?;
    for (copy, count) in copies.iter() {
        assert!(rt; has_just(copy, ids, *count), "a copy of {count} objects");
    }
    // It is not in the store, nor in another copy.
    grow_apart(rt, copies.as_mut_slice(), last, ids)?;
    assert!(rt; has_just(store, ids, IMPORTED));
    Ok(())
}

// With `rt try --fail-alloc` each growth is refused in turn.
#[test]
fn copies_keep_their_objects(rt: HostRuntime) -> Result<(), Fail> {
    let alloc = rt.alloc();
    let (mut objects, mut ids) = (Vec::new(alloc), Vec::new(alloc));
    add_numbered(alloc, &mut objects, &mut ids)?;
    let (mut store, mut copies) = (Store::new(alloc, GitNaming), Vec::new(alloc));
    check_copies(
        &rt,
        &mut store,
        &mut copies,
        objects.as_slice(),
        ids.as_slice(),
    )
}
