//! A batch that Git printed, and streams that are none.

use eden_batch::{ObjectFault, ObjectsFault, read_objects};
use eden_ids::{GitNaming, Id, Kind, Sequence};
use eden_objects::{PutFault, Store};
use eden_stream::{Counted, Faults};
use std::alloc::Global;
use std::io::Read;
use std::test::Fail;
use test_devices::{Endless, Source};
use test_kit::{GIT_PRINTED, GIT_PRINTED_IDS};

/// The ids of these words.
fn ids_of(alloc: Global, text: &str) -> Result<Vec<Id>, Fail> {
    let mut ids = Vec::new(alloc);
    for word in text.split_ascii_whitespace() {
        ids.push(Id::from_hex(word.as_bytes())?)?;
    }
    Ok(ids)
}

/// Reads what the source gives into the store. Gives the ids, or why the reading ended before the stream, and how many calls were made.
fn read<R: Read + Drop>(
    alloc: Global,
    source: R,
    store: &mut Store<GitNaming>,
) -> (Result<Sequence<Id>, ObjectsFault>, u64) {
    let mut reader = Counted::new(source);
    let ids = read_objects(alloc, &mut reader, store);
    (ids, reader.calls())
}

#[test]
fn what_git_printed(rt: HostRuntime) -> Result<(), Fail> {
    let alloc = rt.alloc();
    let wanted = ids_of(alloc, GIT_PRINTED_IDS)?;
    for most in [usize::MAX, 100, 1] {
        let source = Source::in_pieces(GIT_PRINTED, most, usize::MAX, false);
        let mut store = Store::new(alloc, GitNaming);
        let ids = read(alloc, source, &mut store).0?;
        assert!(rt; ids.as_slice() == wanted.as_slice(), "{most} bytes a read");
        let commit = ids.as_slice().last().copied().unwrap_or(Id::ZERO);
        let readme = store.file(commit, b"README".as_slice());
        assert!(rt;
            readme.is_some_and(|(kind, bytes)| kind == Kind::Plain
                && bytes.as_slice() == b"hello\n".as_slice())
        );
    }
    Ok(())
}

/// A stream, the blobs that are held at last, and at which object its reading ends and why, if it does before the stream.
type Case = (&'static [u8], &'static str, Option<(u64, ObjectFault)>);

/// The id of a file of `hello` and a line feed, and that of an empty one.
const HELLO: &str = "ce013625030ba8dba906f756967f9e9ca394464a";

const EMPTY: &str = "e69de29bb2d1d6434b8b29ae775ad8c2e48c5391";

const BOTH: &str =
    "e69de29bb2d1d6434b8b29ae775ad8c2e48c5391 ce013625030ba8dba906f756967f9e9ca394464a";

const TWICE: &str =
    "e69de29bb2d1d6434b8b29ae775ad8c2e48c5391 e69de29bb2d1d6434b8b29ae775ad8c2e48c5391";

/// Batches that are read to their ends.
const WHOLE_BATCHES: &[Case] = &[
    (b"", "", None),
    (
        b"e69de29bb2d1d6434b8b29ae775ad8c2e48c5391 blob 0\n\n",
        EMPTY,
        None,
    ),
    (
        b"e69de29bb2d1d6434b8b29ae775ad8c2e48c5391 blob 0\n\n\
          ce013625030ba8dba906f756967f9e9ca394464a blob 6\nhello\n\n",
        BOTH,
        None,
    ),
    (
        b"e69de29bb2d1d6434b8b29ae775ad8c2e48c5391 blob 0\n\n\
          e69de29bb2d1d6434b8b29ae775ad8c2e48c5391 blob 0\n\n",
        TWICE,
        None,
    ),
];

/// Streams that end within an object, or whose next bytes are no header.
const BAD_FORMS: &[Case] = &[
    (b"e", "", Some((1, ObjectFault::CutShort))),
    (b"g", "", Some((1, ObjectFault::BadHeader))),
    (
        b"E69de29bb2d1d6434b8b29ae775ad8c2e48c5391 blob 0\n\n",
        "",
        Some((1, ObjectFault::BadHeader)),
    ),
    (
        b"e69de29bb2d1d6434b8b29ae775ad8c2e48c5391",
        "",
        Some((1, ObjectFault::CutShort)),
    ),
    (
        b"e69de29bb2d1d6434b8b29ae775ad8c2e48c5391\n",
        "",
        Some((1, ObjectFault::BadHeader)),
    ),
    (
        b"e69de29bb2d1d6434b8b29ae775ad8c2e48c5391 missing\n",
        "",
        Some((1, ObjectFault::BadHeader)),
    ),
    (
        b"e69de29bb2d1d6434b8b29ae775ad8c2e48c5391 tag 0\n\n",
        "",
        Some((1, ObjectFault::BadHeader)),
    ),
    (
        b"e69de29bb2d1d6434b8b29ae775ad8c2e48c5391 t",
        "",
        Some((1, ObjectFault::CutShort)),
    ),
    (
        b"e69de29bb2d1d6434b8b29ae775ad8c2e48c5391 blob \n\n",
        "",
        Some((1, ObjectFault::BadHeader)),
    ),
    (
        b"e69de29bb2d1d6434b8b29ae775ad8c2e48c5391 blob +0\n\n",
        "",
        Some((1, ObjectFault::BadHeader)),
    ),
    (
        b"e69de29bb2d1d6434b8b29ae775ad8c2e48c5391 blob 00\n\n",
        "",
        Some((1, ObjectFault::BadHeader)),
    ),
    (
        b"e69de29bb2d1d6434b8b29ae775ad8c2e48c5391 blob 0",
        "",
        Some((1, ObjectFault::CutShort)),
    ),
    (
        b"e69de29bb2d1d6434b8b29ae775ad8c2e48c5391 blob 0\n",
        "",
        Some((1, ObjectFault::CutShort)),
    ),
    (
        b"e69de29bb2d1d6434b8b29ae775ad8c2e48c5391 blob 0\nx",
        "",
        Some((1, ObjectFault::BadHeader)),
    ),
    (
        b"e69de29bb2d1d6434b8b29ae775ad8c2e48c5391 blob 0\n\nce01",
        EMPTY,
        Some((2, ObjectFault::CutShort)),
    ),
    (
        b"e69de29bb2d1d6434b8b29ae775ad8c2e48c5391 blob 0\n\n\n",
        EMPTY,
        Some((2, ObjectFault::BadHeader)),
    ),
    (
        b"ce013625030ba8dba906f756967f9e9ca394464a blob 6\nhello",
        "",
        Some((1, ObjectFault::CutShort)),
    ),
    (
        b"ce013625030ba8dba906f756967f9e9ca394464a blob 6\nhello\nx",
        "",
        Some((1, ObjectFault::BadHeader)),
    ),
];

/// Objects that are too large, are refused, or have another id than their headers tell.
const BAD_OBJECTS: &[Case] = &[
    (
        b"e69de29bb2d1d6434b8b29ae775ad8c2e48c5391 blob 8388608\n",
        "",
        Some((1, ObjectFault::CutShort)),
    ),
    (
        b"e69de29bb2d1d6434b8b29ae775ad8c2e48c5391 blob 8388609\n",
        "",
        Some((1, ObjectFault::TooLarge)),
    ),
    (
        b"e69de29bb2d1d6434b8b29ae775ad8c2e48c5391 tree 18446744073709551615\n",
        "",
        Some((1, ObjectFault::TooLarge)),
    ),
    (
        b"e69de29bb2d1d6434b8b29ae775ad8c2e48c5391 blob 18446744073709551616",
        "",
        Some((1, ObjectFault::BadHeader)),
    ),
    // The tree of a file that comes behind it.
    (
        b"496d6428b9cf92981dc9495211e6e1120fb6f2ba tree 29\n100644 a\0\
          \xe6\x9d\xe2\x9b\xb2\xd1\xd6\x43\x4b\x8b\x29\xae\x77\x5a\xd8\xc2\xe4\x8c\x53\x91\n\
          e69de29bb2d1d6434b8b29ae775ad8c2e48c5391 blob 0\n\n",
        "",
        Some((1, ObjectFault::Refused(PutFault::MissingChild))),
    ),
    (
        b"e69de29bb2d1d6434b8b29ae775ad8c2e48c5391 blob 0\n\n\
          496d6428b9cf92981dc9495211e6e1120fb6f2ba commit 45\ntree e69de29bb2d1d6434b8b29ae775ad8c2e48c5391\n",
        EMPTY,
        Some((2, ObjectFault::Refused(PutFault::CutShort))),
    ),
    // What it names is no tree.
    (
        b"e69de29bb2d1d6434b8b29ae775ad8c2e48c5391 blob 0\n\n\
          496d6428b9cf92981dc9495211e6e1120fb6f2ba commit 46\ntree e69de29bb2d1d6434b8b29ae775ad8c2e48c5391\n\n",
        EMPTY,
        Some((2, ObjectFault::Refused(PutFault::WrongChildKind))),
    ),
    // It is put, under its own id.
    (
        b"e69de29bb2d1d6434b8b29ae775ad8c2e48c5391 blob 6\nhello\n\n",
        HELLO,
        Some((1, ObjectFault::OtherId)),
    ),
];

fn holds(store: &Store<GitNaming>, id: &str) -> bool {
    Id::from_hex(id.as_bytes()).is_ok_and(|id| store.blob(id).is_some())
}

/// Reads a stream, so many bytes at a time. Gives the ids, or why the reading ended, and whether each of the two files is held then.
fn ended(
    alloc: Global,
    stream: &[u8],
    most: usize,
) -> (Result<Sequence<Id>, ObjectsFault>, bool, bool) {
    let mut store = Store::new(alloc, GitNaming);
    let source = Source::in_pieces(stream, most, usize::MAX, false);
    let (ids, _) = read(alloc, source, &mut store);
    (ids, holds(&store, HELLO), holds(&store, EMPTY))
}

/// Whether a stream that is read so many bytes at a time ends as it should.
fn is_right(alloc: Global, case: &Case, most: usize) -> Result<bool, Fail> {
    let (stream, blobs, wanted) = case;
    let (ids, hello, empty) = ended(alloc, stream, most);
    let end = match ids {
        Ok(ids) => wanted.is_none() && ids.as_slice() == ids_of(alloc, blobs)?.as_slice(),
        Err(ObjectsFault::Object { number, fault }) => *wanted == Some((number, fault)),
        Err(_) => false,
    };
    Ok(end && hello == blobs.contains(HELLO) && empty == blobs.contains(EMPTY))
}

#[test]
fn batches_end_as_told(rt: HostRuntime) -> Result<(), Fail> {
    for cases in [WHOLE_BATCHES, BAD_FORMS, BAD_OBJECTS] {
        for (row, case) in cases.iter().enumerate() {
            for most in [usize::MAX, 1] {
                assert!(rt; is_right(rt.alloc(), case, most)?, "row {row}: {case:?}");
            }
        }
    }
    Ok(())
}

/// Reads the batch, thirty bytes at a time, from a source that is interrupted and fails within the second object: each of the first two
/// has 55 bytes.
fn read_failing(
    alloc: Global,
    store: &mut Store<GitNaming>,
) -> (Result<Sequence<Id>, ObjectsFault>, u64) {
    let mut source = Source::new(GIT_PRINTED);
    source.most = 30;
    source.fails_at = 90;
    source.interrupts = true;
    read(alloc, source, store)
}

/// Reads from a source that never ends and gives one byte a read, of objects of 49 bytes.
fn read_endless(
    alloc: Global,
    store: &mut Store<GitNaming>,
) -> (Result<Sequence<Id>, ObjectsFault>, u64) {
    let endless = Endless::new(b"e69de29bb2d1d6434b8b29ae775ad8c2e48c5391 blob 0\n\n");
    read(alloc, endless, store)
}

#[test]
fn readers_that_fail(rt: HostRuntime) -> Result<(), Fail> {
    let alloc = rt.alloc();
    let mut store = Store::new(alloc, GitNaming);
    let (ids, _) = read_failing(alloc, &mut store);
    assert!(rt; ids.err() == Some(ObjectsFault::Read { number: 2 }));
    assert!(rt; holds(&store, HELLO));
    let (ids, calls) = read_endless(alloc, &mut store);
    assert!(rt; ids.err() == Some(ObjectsFault::TurnsSpent { number: 20_409 }));
    assert!(rt; calls == 1_000_000);
    Ok(())
}

/// The object of 8,388,608 times the letter `a`, as Git prints it, with an id.
fn printed_letters(alloc: Global, id: &[u8]) -> Result<Vec<u8>, Fail> {
    let letters = vec![in alloc; b'a'; 8_388_608]?;
    let mut stream = Vec::new(alloc);
    for part in [id, b" blob 8388608\n", letters.as_slice(), b"\n"] {
        stream.extend_from_slice(part)?;
    }
    Ok(stream)
}

#[test]
fn an_object_of_8_mib(rt: HostRuntime) -> Result<(), Fail> {
    let alloc = rt.alloc();
    // The id that `git hash-object` gives its bytes.
    let id = b"c662dc3a5837a85f38529750ef0125b9b5c28ddf".as_slice();
    let stream = printed_letters(alloc, id)?;
    let wanted = Id::from_hex(id)?;
    let mut store = Store::new(alloc, GitNaming);
    let ids = read(alloc, stream.as_slice(), &mut store).0?;
    assert!(rt; ids.as_slice() == [wanted].as_slice());
    Ok(())
}
