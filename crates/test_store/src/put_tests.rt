//! Objects that are put, and those that are refused: each fault, and which of two comes first.

ghost use Rattle.std.specs.Prelude.{◌≡◌, ◌||◌, nat_eq, slice_index};

use eden_ids::{GitNaming, Id, Naming};
use eden_objects::{ObjectType, PutFault, Store};
use std::alloc::Global;
use std::process::Abort;
use std::test::Fail;
use test_kit::{FirstByte, Objects, commit_of, push_entry, tree_of};

/// Puts an object of a kind.
fn put<N: Naming + Drop>(
    store: &mut Store<N>,
    object_type: ObjectType,
    payload: &[u8],
) -> Result<Id, PutFault> {
    match object_type {
        ObjectType::Blob => store.put_blob(payload),
        ObjectType::Tree => store.put_tree(payload),
        ObjectType::Commit => store.put_commit(payload),
    }
}

/// Objects that are put one after another, and their ids or why they are refused.
const COLLIDING: &[(ObjectType, &[u8], Result<Id, PutFault>)] = &[
    (ObjectType::Blob, b"ab", Ok(Id([b'a'; 20]))),
    (ObjectType::Blob, b"ac", Err(PutFault::IdTaken)),
    (ObjectType::Blob, b"", Err(PutFault::ZeroId)),
    (ObjectType::Blob, b"ab", Ok(Id([b'a'; 20]))),
    // The empty tree's id is zero too, and another kind of object is another object.
    (ObjectType::Tree, b"", Err(PutFault::ZeroId)),
];

#[test]
fn colliding_naming(rt: HostRuntime) {
    let mut store = Store::new(rt.alloc(), FirstByte);
    for (row, (object_type, payload, answer)) in COLLIDING.iter().enumerate() {
        assert!(rt;
            put(&mut store, *object_type, payload) == *answer,
            "row {row}"
        );
    }
}

#[test]
fn too_large_comes_first(rt: HostRuntime) -> Result<(), Fail> {
    let alloc = rt.alloc();
    let largest = vec![in alloc; b'a'; 8_388_608]?;
    let mut store = Store::new(alloc, FirstByte);
    assert!(rt; put(&mut store, ObjectType::Blob, largest.as_slice()) == Ok(Id([b'a'; 20])));
    for byte in [0, b'a'] {
        let larger = vec![in alloc; byte; 8_388_609]?;
        for object_type in &[ObjectType::Blob, ObjectType::Tree, ObjectType::Commit] {
            let answer = put(&mut store, *object_type, larger.as_slice());
            assert!(rt;
                answer == Err(PutFault::TooLarge),
                "{object_type:?} of {byte}"
            );
        }
    }
    Ok(())
}

/// A blob, a tree of it and a commit of that tree.
const SMALL: &str = "blob b x;tree t 100644 x b;commit c t";

/// An entry of a tree: its mode, its name and the label of what it names.
type Entry = (&'static str, &'static str, &'static str);

/// The payload of a tree of these entries.
fn entries_of(alloc: Global, objects: &Objects, entries: &[Entry]) -> Result<Vec<u8>, Fail> {
    let mut payload = Vec::new(alloc);
    for (mode, name, label) in entries {
        push_entry(&mut payload, mode, name.as_bytes(), objects.id(label))?;
    }
    Ok(payload)
}

/// An executable file, a link and a directory: their entries end behind 31, 64 and 92 bytes.
const WHOLE: &[Entry] = &[
    ("100755", "run", "b"),
    ("120000", "there", "b"),
    ("40000", "z", "t"),
];

/// Entries of trees that lack their last byte, and why they are refused. A bad mode or name is told before the end that comes too early,
/// and that before what the entry names.
const CUT: &[(&[Entry], PutFault)] = &[
    (&[("160000", "a", "b")], PutFault::BadMode),
    (&[("100644", "..", "b")], PutFault::BadName),
    (
        &[("100644", "b", "b"), ("100644", "b", "b")],
        PutFault::CutShort,
    ),
    (
        &[("100644", "b", "b"), ("100644", "a", "b")],
        PutFault::CutShort,
    ),
    (&[("100644", "a", "missing")], PutFault::CutShort),
];

/// The first length of a front of a payload that is not refused as it is cut short, of those that are no end of an entry.
fn first_whole(
    store: &mut Store<GitNaming>,
    object_type: ObjectType,
    payload: &[u8],
    ends: &[usize],
) -> Option<usize> {
    for length in 1..payload.len() {
        if !ends.contains(&length)
            && put(store, object_type, &payload[..length]) != Err(PutFault::CutShort)
        {
            return Some(length);
        }
    }
    None
}

/// Checks that a tree is put whole, that no front of it is, and each row of the table.
fn check_cut_trees(rt: &impl Abort, alloc: Global, objects: &mut Objects) -> Result<(), Fail> {
    let whole = entries_of(alloc, objects, WHOLE)?;
    assert!(rt; whole.len() == 92);
    assert!(rt; put(&mut objects.store, ObjectType::Tree, whole.as_slice()).is_ok());
    let wrong = first_whole(
        &mut objects.store,
        ObjectType::Tree,
        whole.as_slice(),
        &[31, 64],
    );
    assert!(rt; wrong.is_none(), "at {wrong:?}");
    for (entries, fault) in CUT {
        let payload = entries_of(alloc, objects, entries)?;
        let cut = &payload[..payload.len().saturating_sub(1)];
        let answer = put(&mut objects.store, ObjectType::Tree, cut);
        assert!(rt; answer == Err(*fault), "{entries:?}");
    }
    let mode = put(&mut objects.store, ObjectType::Tree, b"160000 a".as_slice());
    assert!(rt; mode == Err(PutFault::BadMode));
    Ok(())
}

#[test]
fn trees_cut_short(rt: HostRuntime) -> Result<(), Fail> {
    let mut objects = Objects::of(rt.alloc(), SMALL)?;
    check_cut_trees(&rt, rt.alloc(), &mut objects)
}

/// A place in a commit, and a byte that may not stand there.
const BYTES: &[(usize, u8)] = &[(0, b'T'), (4, b'\t'), (5, b'A'), (44, b'g'), (45, b'\r')];

/// Bytes with another one at a place.
fn with_byte(bytes: &[u8], alloc: Global, place: usize, byte: u8) -> Result<Vec<u8>, Fail> {
    let mut bytes = bytes.to_vec(alloc)?;
    if let Some(slot) = bytes.get_mut(place) {
        *slot = byte;
    }
    Ok(bytes)
}

/// What a commit names as its tree, and why it is refused. No object is the empty commit, so none is its tree.
const NAMED: &[(&str, PutFault)] = &[
    ("missing", PutFault::MissingChild),
    ("empty", PutFault::MissingChild),
    ("b", PutFault::WrongChildKind),
    ("c", PutFault::WrongChildKind),
];

/// The commit of the tree of that script, with text behind its first line, which has 46 bytes.
fn whole_commit(alloc: Global, objects: &Objects) -> Result<Vec<u8>, Fail> {
    Ok(commit_of(alloc, objects.id("t"), "author a\n")?)
}

#[test]
fn commits_cut_short(rt: HostRuntime) -> Result<(), Fail> {
    let mut objects = Objects::of(rt.alloc(), SMALL)?;
    let whole = whole_commit(rt.alloc(), &objects)?;
    let store = &mut objects.store;
    let (line, whole) = (&whole[..46.min(whole.len())], whole.as_slice());
    assert!(rt; put(store, ObjectType::Commit, b"".as_slice()) == Err(PutFault::CutShort));
    let wrong = first_whole(store, ObjectType::Commit, line, &[]);
    assert!(rt; wrong.is_none(), "at {wrong:?}");
    for payload in [line, whole] {
        assert!(rt; put(store, ObjectType::Commit, payload).is_ok());
    }
    Ok(())
}

/// Checks the commits with another byte at a place, and those of what is no tree.
fn check_commits(rt: &impl Abort, alloc: Global, objects: &mut Objects) -> Result<(), Fail> {
    let whole = whole_commit(alloc, objects)?;
    for (place, byte) in BYTES {
        let payload = with_byte(whole.as_slice(), alloc, *place, *byte)?;
        let answer = put(&mut objects.store, ObjectType::Commit, payload.as_slice());
        assert!(rt; answer == Err(PutFault::BadCommit), "at {place}");
    }
    for (name, fault) in NAMED {
        let payload = commit_of(alloc, objects.id(name), "")?;
        let answer = put(&mut objects.store, ObjectType::Commit, payload.as_slice());
        assert!(rt; answer == Err(*fault), "{name}");
    }
    Ok(())
}

#[test]
fn commit_refusals(rt: HostRuntime) -> Result<(), Fail> {
    let mut objects = Objects::of(rt.alloc(), SMALL)?;
    check_commits(&rt, rt.alloc(), &mut objects)
}

/// Whether the byte stands where a directory's name begins, or behind a commit's first line.
fn is_marked(payload: &[u8], byte: u8) -> bool
    ensures { result ≡ (nat_eq (slice_index payload.now 6) byte || nat_eq (slice_index payload.now 46) byte) }
{
    payload.get(6).copied().unwrap_or(0) == byte || payload.get(46).copied().unwrap_or(0) == byte
}

/// Zero where the payload is marked with a `Z`, the id of twenty bytes `Y` where it is with a `Y`, and else Git's.
#[derive(Clone, Copy)]
struct Marked;

impl Naming for Marked {
    ghost use Rattle.std.specs.Prelude.{◌||◌, if◌then◌else◌, replicate, nat_eq, slice_index};
    ghost use Rattle.eden_ids.specs.Naming.{git_name};

    ghost id = { λ object_type payload. if nat_eq (slice_index payload 6) 90 || nat_eq (slice_index payload 46) 90 then record { 0 = replicate 20 0 }
        else if nat_eq (slice_index payload 6) 89 || nat_eq (slice_index payload 46) 89 then record { 0 = replicate 20 89 }
        else git_name object_type payload };

    fn id_of(&self, object_type: &[u8], payload: &[u8]) -> Id {
        if is_marked(payload, b'Z') {
            Id([0; 20])
        } else if is_marked(payload, b'Y') {
            Id([b'Y'; 20])
        } else {
            GitNaming.id_of(object_type, payload)
        }
    }
}

/// A tree of one entry.
fn only(alloc: Global, mode: &str, name: &[u8], id: Id) -> Result<Vec<u8>, Fail> {
    let mut payload = Vec::new(alloc);
    push_entry(&mut payload, mode, name, id)?;
    Ok(payload)
}

/// Puts a blob, a tree of it, and the blob whose id has twenty bytes `Y`. Returns the ids of the first two.
fn put_marked(alloc: Global, store: &mut Store<Marked>) -> Result<(Id, Id), Fail> {
    let blob = put(store, ObjectType::Blob, b"x".as_slice())?;
    let payload = only(alloc, "100644", b"x".as_slice(), blob)?;
    let tree = put(store, ObjectType::Tree, payload.as_slice())?;
    let taken = put(store, ObjectType::Blob, b"blob: Y".as_slice())?;
    if taken == Id([b'Y'; 20]) {
        return Ok((blob, tree));
    }
    Err(Fail::new("the mark is not seen"))
}

/// Puts a tree whose only entry is a directory.
fn put_above(
    alloc: Global,
    store: &mut Store<Marked>,
    name: &[u8],
    child: Id,
) -> Result<Result<Id, PutFault>, Fail> {
    let payload = only(alloc, "40000", name, child)?;
    Ok(put(store, ObjectType::Tree, payload.as_slice()))
}

/// Puts trees, each of which has the one before as its only entry, with this name.
fn nested(
    alloc: Global,
    store: &mut Store<Marked>,
    tree: Id,
    count: usize,
    name: &[u8],
) -> Result<Id, Fail> {
    let mut top = tree;
    for _ in 0..count {
        top = put_above(alloc, store, name, top)??;
    }
    Ok(top)
}

/// Why no tree is put whose only entry is a directory.
fn fault_of(
    alloc: Global,
    store: &mut Store<Marked>,
    name: &[u8],
    child: Id,
) -> Result<Option<PutFault>, Fail> {
    Ok(put_above(alloc, store, name, child)?.err())
}

/// The name of each of sixty-four levels of directories, and the names of one more above them. One is too long too: the levels reach 15 bytes
/// for each component but the last.
const DEEP: &[(&[u8], &[&[u8]])] = &[
    (b"d", &[b"d", b"Z", b"Y"]),
    (b"ddddddddddddddd", &[&[b'd'; 255]]),
];

/// Checks a row of the table.
fn check_deep(
    rt: &impl Abort,
    alloc: Global,
    store: &mut Store<Marked>,
    level: &[u8],
    names: &[&[u8]],
) -> Result<(), Fail> {
    let (_, tree) = put_marked(alloc, store)?;
    let deepest = nested(alloc, store, tree, 63, level)?;
    for name in names {
        let fault = fault_of(alloc, store, name, deepest)?;
        assert!(rt; fault == Some(PutFault::TooDeep), "{name:?}");
    }
    // A fault of an entry comes before the depth.
    let entries = [("40000", "d", deepest), ("100644", "e", Id([1; 20]))];
    let payload = tree_of(alloc, &entries)?;
    let answer = put(store, ObjectType::Tree, payload.as_slice());
    assert!(rt; answer == Err(PutFault::MissingChild));
    Ok(())
}

#[test]
fn deep_trees(rt: HostRuntime) -> Result<(), Fail> {
    for (level, names) in DEEP {
        let mut store = Store::new(rt.alloc(), Marked);
        check_deep(&rt, rt.alloc(), &mut store, level, names)?;
    }
    Ok(())
}

/// How long a file's name is, and why the tree above three more is refused, as `d`, `Z` and `Y`.
const LENGTHS: [(usize, [Option<PutFault>; 3]); 2] = [
    (255, [Some(PutFault::PathTooLong); 3]),
    (254, [None, Some(PutFault::ZeroId), Some(PutFault::IdTaken)]),
];

/// Puts three directories, one in another, each with a name of 255 bytes, above a file with a name of this length. Returns the top.
fn put_long(alloc: Global, store: &mut Store<Marked>, length: usize) -> Result<Id, Fail> {
    let (blob, _) = put_marked(alloc, store)?;
    let name = vec![in alloc; b'f'; length]?;
    let payload = only(alloc, "100644", name.as_slice(), blob)?;
    let file = put(store, ObjectType::Tree, payload.as_slice())?;
    nested(alloc, store, file, 3, &[b'd'; 255])
}

/// Checks a row of the table.
fn check_long(
    rt: &impl Abort,
    alloc: Global,
    store: &mut Store<Marked>,
    length: usize,
    answers: &[Option<PutFault>; 3],
) -> Result<(), Fail> {
    let top = put_long(alloc, store, length)?;
    for (name, answer) in ["d", "Z", "Y"].iter().zip(answers) {
        let fault = fault_of(alloc, store, name.as_bytes(), top)?;
        assert!(rt; fault == *answer, "{name}");
    }
    Ok(())
}

#[test]
fn long_paths(rt: HostRuntime) -> Result<(), Fail> {
    for (length, answers) in &LENGTHS {
        let mut store = Store::new(rt.alloc(), Marked);
        check_long(&rt, rt.alloc(), &mut store, *length, answers)?;
    }
    Ok(())
}

/// Why no tree and no commit of an object is put, with a mark, if both are refused alike.
fn fault_above(
    alloc: Global,
    store: &mut Store<Marked>,
    mark: &str,
    child: Id,
) -> Result<Option<PutFault>, Fail> {
    let payload = commit_of(alloc, child, mark)?;
    let commit = put(store, ObjectType::Commit, payload.as_slice()).err();
    let tree = fault_of(alloc, store, mark.as_bytes(), child)?;
    Ok(if commit == tree { tree } else { None })
}

/// Checks that a fault of what a tree or a commit names comes before one of its id.
fn check_order(rt: &impl Abort, alloc: Global, store: &mut Store<Marked>) -> Result<(), Fail> {
    let (blob, tree) = put_marked(alloc, store)?;
    for (mark, answer) in &[("Z", PutFault::ZeroId), ("Y", PutFault::IdTaken)] {
        for (child, fault) in [
            (Id([1; 20]), PutFault::MissingChild),
            (blob, PutFault::WrongChildKind),
            (tree, *answer),
        ] {
            let told = fault_above(alloc, store, mark, child)?;
            assert!(rt; told == Some(fault), "{mark}");
        }
        for (times, fault) in [(1, PutFault::CutShort), (46, PutFault::BadCommit)] {
            let payload = mark.repeat(alloc, times)?;
            let answer = put(store, ObjectType::Commit, payload.as_bytes());
            assert!(rt; answer == Err(fault), "{mark}");
        }
    }
    Ok(())
}

#[test]
fn what_is_named_comes_before_the_id(rt: HostRuntime) -> Result<(), Fail> {
    let mut store = Store::new(rt.alloc(), Marked);
    check_order(&rt, rt.alloc(), &mut store)
}
