//! Changes that are asked for: each kind by its bytes, bodies that ask for none, and what is too large.

use crate::messages::EMPTY;
use bytes::Bytes;
use eden_history::{Change, Mode};
use eden_ids::{Id, Kind, Sequence};
use eden_messages::Query;
use eden_objects::{Object, ObjectType};
use eden_wire::{
    Command, DecodeFault, Doing, EncodeFault, decode_asked, decode_command, decode_request,
    encode_do,
};
use std::alloc::Global;
use std::test::Fail;
use test_kit::{
    PLACE_BYTES as P, QUERY_BYTES as Q, framed, joined, path, remove, rename, write,
    write_too_large,
};

/// An id whose bytes are all 0x11.
const SOME: Id = Id([0x11; 20]);

const SOME_BYTES: [u8; 20] = [0x11; 20];

/// The query of `QUERY_BYTES`.
const QUERY: Query = Query {
    mirror: 1,
    life: 1,
    number: 1,
};

/// Returns a blob, a tree and a commit: these payloads are no tree's and no commit's, which a body may hold.
fn objects(alloc: Global) -> Result<Sequence<Object>, Fail> {
    let mut list = Vec::new(alloc);
    for (object_type, text) in [
        (ObjectType::Blob, "hi"),
        (ObjectType::Tree, ""),
        (ObjectType::Commit, "t"),
    ] {
        let payload = Bytes::copy_from_slice(alloc, text.as_bytes())?;
        list.push(Object {
            object_type,
            payload,
        })?;
    }
    Ok(Sequence::from_vec(list))
}

/// Returns a write of `a`, a file of a kind with the bytes `hi`.
fn write_of(alloc: Global, kind: Kind) -> Result<Change, Fail> {
    Ok(Change::Write {
        path: path(alloc, "a")?,
        kind,
        bytes: Bytes::copy_from_slice(alloc, b"hi".as_slice())?,
    })
}

/// Returns a rename of the directory `d` to `e`.
fn rename_dir(alloc: Global) -> Result<Change, Fail> {
    Ok(Change::RenameDir {
        old: path(alloc, "d")?,
        new: path(alloc, "e")?,
    })
}

/// Whether a body is read as a change that is asked for.
fn is_read_as(alloc: Global, body: &[u8], doing: Doing) -> Result<bool, Fail> {
    Ok(decode_command(alloc, body)? == Command::Do(doing))
}

/// Whether a change is encoded as these parts after the query, with their length before them, and read as that.
fn is_asked_by(alloc: Global, change: Change, fields: &[&[u8]]) -> Result<bool, Fail> {
    let fields = joined(alloc, fields)?;
    let body = joined(alloc, &[&[2, 6], &Q, fields.as_slice()])?;
    let doing = Doing {
        query: QUERY,
        change,
    };
    let frame = encode_do(alloc, &doing)?;
    Ok(frame == framed(alloc, body.as_slice())? && is_read_as(alloc, body.as_slice(), doing)?)
}

#[test]
fn a_flush_has_its_frame(rt: HostRuntime) -> Result<(), Fail> {
    let alloc = rt.alloc();
    let doing = Doing {
        query: QUERY,
        change: Change::Flush,
    };
    let frame = joined(alloc, &[&[0, 0, 0, 0x1b, 2, 6], &Q, &[6]])?;
    assert_eq!(rt; encode_do(alloc, &doing)?, frame);
    Ok(())
}

#[test]
fn changes_of_files_have_their_bytes(rt: HostRuntime) -> Result<(), Fail> {
    let alloc = rt.alloc();
    for (kind, byte) in [(Kind::Plain, 1), (Kind::Exec, 2), (Kind::Link, 3)] {
        let fields: &[&[u8]] = &[&[1, 0, 1, b'a', byte, 0, 0, 0, 2], b"hi"];
        assert!(rt; is_asked_by(alloc, write_of(alloc, kind)?, fields)?);
    }
    assert!(rt; is_asked_by(alloc, remove(alloc, "a")?, &[&[1, 0, 1, b'a', 0]])?);
    let fields: &[&[u8]] = &[&[1, 0, 1, b'a', 1, 0, 0, 0, 0]];
    assert!(rt; is_asked_by(alloc, write(alloc, "a", "")?, fields)?);
    let fields: &[&[u8]] = &[&[2, 0, 1, b'a', 0, 1, b'b']];
    assert!(rt; is_asked_by(alloc, rename(alloc, "a", "b")?, fields)?);
    assert!(rt; is_asked_by(alloc, rename_dir(alloc)?, &[&[3, 0, 1, b'd', 0, 1, b'e']])?);
    Ok(())
}

#[test]
fn changes_of_the_mount_have_their_bytes(rt: HostRuntime) -> Result<(), Fail> {
    let alloc = rt.alloc();
    for (mode, byte) in [(Mode::Normal, 1), (Mode::Dry, 2), (Mode::Force, 3)] {
        let change = Change::Checkout { commit: SOME, mode };
        assert!(rt; is_asked_by(alloc, change, &[&[4], &SOME_BYTES, &[byte]])?);
    }
    let change = Change::Reset { commit: EMPTY };
    assert!(rt; is_asked_by(alloc, change, &[&[5], &[0; 20]])?);
    assert!(rt; is_asked_by(alloc, Change::Flush, &[&[6]])?);
    let change = Change::Remount {
        generation: 0x0102_0304_0506_0708,
    };
    assert!(rt; is_asked_by(alloc, change, &[&[7, 1, 2, 3, 4, 5, 6, 7, 8]])?);
    Ok(())
}

/// A blob of two bytes, a tree of none and a commit of one, after their count.
const THREE_OBJECTS: &[&[u8]] = &[
    &[8, 0, 0, 0, 3],
    &[1, 0, 0, 0, 2, b'h', b'i'],
    &[2, 0, 0, 0, 0],
    &[3, 0, 0, 0, 1, b't'],
];

#[test]
fn imports_have_their_bytes(rt: HostRuntime) -> Result<(), Fail> {
    let alloc = rt.alloc();
    let objects = objects(alloc)?;
    assert!(rt; is_asked_by(alloc, Change::Import { objects }, THREE_OBJECTS)?);
    let objects = Sequence::new(alloc);
    assert!(rt; is_asked_by(alloc, Change::Import { objects }, &[&[8, 0, 0, 0, 0]])?);
    Ok(())
}

/// The parts of bodies that ask for no change, after the query, and the first fault of each.
const NO_CHANGES: &[(&[&[u8]], DecodeFault)] = &[
    // No kind, and unknown ones.
    (&[], DecodeFault::CutShort),
    (&[&[0]], DecodeFault::BadField),
    (&[&[9]], DecodeFault::BadField),
    // A path that is invalid, no content, a fourth kind of one, and one that is too long or cut.
    (&[&[1, 0, 1, b'/']], DecodeFault::BadField),
    (&[&[1, 0, 1, b'a']], DecodeFault::CutShort),
    (&[&[1, 0, 1, b'a', 4]], DecodeFault::BadField),
    (&[&[1, 0, 1, b'a', 1, 0, 0x80, 0, 1]], DecodeFault::BadField),
    (&[&[1, 0, 1, b'a', 1, 0, 0x80, 0, 0]], DecodeFault::CutShort),
    (&[&[1, 0, 1, b'a', 0, 0]], DecodeFault::Trailing),
    // One path of two, and an invalid second one.
    (&[&[2, 0, 1, b'a']], DecodeFault::CutShort),
    (&[&[2, 0, 1, b'a', 0, 0]], DecodeFault::BadField),
    (&[&[3, 0, 1, b'a', 0, 0]], DecodeFault::BadField),
    (&[&[3, 0, 1, b'd', 0, 1, b'e', 0]], DecodeFault::Trailing),
    // An id that is cut, no mode, and unknown ones.
    (&[&[4], &[0; 19]], DecodeFault::CutShort),
    (&[&[4], &[0; 20]], DecodeFault::CutShort),
    (&[&[4], &[0; 20], &[0]], DecodeFault::BadField),
    (&[&[4], &[0; 20], &[4]], DecodeFault::BadField),
    (&[&[4], &[0; 20], &[1, 0]], DecodeFault::Trailing),
    (&[&[5], &[0; 19]], DecodeFault::CutShort),
    (&[&[5], &[0; 21]], DecodeFault::Trailing),
    (&[&[6, 0]], DecodeFault::Trailing),
    (&[&[7], &[0; 7]], DecodeFault::CutShort),
    (&[&[7], &[0; 9]], DecodeFault::Trailing),
    // No count, more objects than there are, an unknown type, and a payload that is too long or cut.
    (&[&[8, 0, 0, 0]], DecodeFault::CutShort),
    (&[&[8, 0xff, 0xff, 0xff, 0xff]], DecodeFault::CutShort),
    (&[&[8, 0, 0, 0, 1, 0]], DecodeFault::BadField),
    (&[&[8, 0, 0, 0, 1, 4]], DecodeFault::BadField),
    (&[&[8, 0, 0, 0, 1, 1, 0, 0x80, 0, 1]], DecodeFault::BadField),
    (&[&[8, 0, 0, 0, 1, 1, 0, 0x80, 0, 0]], DecodeFault::CutShort),
    (&[&[8, 0, 0, 0, 0, 0]], DecodeFault::Trailing),
];

/// Whole bodies that ask for nothing, and the first fault of each.
const NO_COMMANDS: &[(&[&[u8]], DecodeFault)] = &[
    (&[], DecodeFault::CutShort),
    (&[&[1, 6]], DecodeFault::Version),
    (&[&[2]], DecodeFault::CutShort),
    (&[&[2, 11], &Q, &[6]], DecodeFault::BadTag),
    (&[&[2, 6], &[0; 23]], DecodeFault::CutShort),
    // An answer, and a change after a patience, after exclusions and after another one.
    (&[&[2, 0x86], &Q, &[0]], DecodeFault::BadTag),
    (
        &[&[2, 5, 0, 0, 0x27, 0x10, 2, 6], &Q, &[6]],
        DecodeFault::BadTag,
    ),
    (
        &[&[2, 7, 1, 0, 1, b'a', 2, 6], &Q, &[6]],
        DecodeFault::BadTag,
    ),
    (&[&[2, 6, 2, 6], &Q, &[6]], DecodeFault::BadField),
];

/// Returns the first of these bodies that is not refused as it should be.
fn first_wrong(
    alloc: Global,
    head: &[u8],
    bodies: &[(&[&[u8]], DecodeFault)],
) -> Result<Option<usize>, Fail> {
    for (row, (parts, fault)) in bodies.iter().enumerate() {
        let body = joined(alloc, &[head, joined(alloc, parts)?.as_slice()])?;
        if decode_command(alloc, body.as_slice()).err() != Some(*fault) {
            return Ok(Some(row));
        }
    }
    Ok(None)
}

#[test]
fn bodies_that_ask_for_nothing(rt: HostRuntime) -> Result<(), Fail> {
    let alloc = rt.alloc();
    let head = joined(alloc, &[&[2, 6], &Q])?;
    assert_eq!(rt; first_wrong(alloc, head.as_slice(), NO_CHANGES)?, None);
    assert_eq!(rt; first_wrong(alloc, b"", NO_COMMANDS)?, None);
    Ok(())
}

#[test]
fn a_request_is_read_as_before(rt: HostRuntime) -> Result<(), Fail> {
    let alloc = rt.alloc();
    for parts in [
        &[&[2, 2], Q.as_slice(), P.as_slice(), &[0]],
        &[
            &[2, 5, 0, 0, 0x27, 0x10, 2, 2],
            Q.as_slice(),
            P.as_slice(),
            &[0],
        ],
    ] {
        let body = joined(alloc, parts)?;
        let asked = decode_asked(alloc, body.as_slice())?;
        assert!(rt; decode_command(alloc, body.as_slice())? == Command::Ask(asked));
    }
    Ok(())
}

#[test]
fn a_change_is_no_request(rt: HostRuntime) -> Result<(), Fail> {
    let alloc = rt.alloc();
    let body = joined(alloc, &[&[2, 6], &Q, &[6]])?;
    assert!(rt; decode_request(alloc, body.as_slice()).err() == Some(DecodeFault::BadTag));
    assert!(rt; decode_asked(alloc, body.as_slice()).err() == Some(DecodeFault::BadTag));
    Ok(())
}

/// Returns an import of so many blobs of so many bytes each.
fn import_of(alloc: Global, count: usize, bytes: usize) -> Result<Change, Fail> {
    let mut list = Vec::new(alloc);
    for _ in 0..count {
        let payload = Bytes::copy_from_slice(alloc, vec![in alloc; 0; bytes]?.as_slice())?;
        let object_type = ObjectType::Blob;
        list.push(Object {
            object_type,
            payload,
        })?;
    }
    let objects = Sequence::from_vec(list);
    Ok(Change::Import { objects })
}

/// Returns the length of the frame that asks for a change, or why there is none.
fn frame_len(alloc: Global, change: Change) -> Result<usize, EncodeFault> {
    let query = QUERY;
    Ok(encode_do(alloc, &Doing { query, change })?.len())
}

#[test]
fn what_is_too_large_has_no_frame(rt: HostRuntime) -> Result<(), Fail> {
    let alloc = rt.alloc();
    let too_large = Some(EncodeFault::TooLarge);
    assert!(rt; frame_len(alloc, write_too_large(alloc)?).err() == too_large);
    assert!(rt; frame_len(alloc, import_of(alloc, 1, 8_388_609)?).err() == too_large);
    // 31 bytes come before the objects, and 5 before the bytes of each.
    assert!(rt; frame_len(alloc, import_of(alloc, 2, 8_388_588)?).err() == too_large);
    assert!(rt; frame_len(alloc, import_of(alloc, 1, 8_388_608)?)? == 4 + 8_388_644);
    Ok(())
}
