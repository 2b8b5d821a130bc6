//! Paths and what is refused as one, files' contents, and tables of paths.

use crate::filter_tests::repeated;
use bytes::Bytes;
use eden_ids::{Content, Id, Kind, Path, PathFault, PathTable, Sequence, push_where};
use std::alloc::Global;
use std::test::Fail;
use test_kit::{path, plain, spaced};

/// Bytes that are no path, and why.
const REFUSALS: &[(&[u8], PathFault)] = &[
    (b"", PathFault::Empty),
    (&[b'a'; 1025], PathFault::TooLong),
    (&[b'a'; 256], PathFault::BadComponent),
    (b"a//b", PathFault::BadComponent),
    (b"/a", PathFault::BadComponent),
    (b"..", PathFault::BadComponent),
    (b".", PathFault::BadComponent),
    (b"a/", PathFault::BadComponent),
    (b"a/./b", PathFault::BadComponent),
    (b"../a", PathFault::BadComponent),
    (b"a\0b", PathFault::BadComponent),
];

#[test]
fn path_refusals(rt: HostRuntime) -> Result<(), Fail> {
    let alloc = rt.alloc();
    for (row, (bytes, fault)) in REFUSALS.iter().enumerate() {
        let path = Path::parse(alloc, bytes);
        assert!(rt; path.err() == Some(*fault), "row {row}");
    }
    let deepest = repeated(alloc, b"a/", 64, b"a")?;
    let path = Path::parse(alloc, deepest.as_slice());
    assert!(rt; path.err() == Some(PathFault::TooDeep));
    Ok(())
}

/// Whether a path keeps its bytes, and a copy of it is equal to it.
fn is_kept(alloc: Global, bytes: &[u8]) -> Result<bool, Fail> {
    let path = Path::parse(alloc, bytes)?;
    Ok(path.as_bytes() == bytes && path.copy()? == path)
}

/// Bytes that are a path.
const PATHS: &[&[u8]] = &[b"a", b"...", b"\xff\n /.h", &[b'a'; 255]];

#[test]
fn paths_keep_their_bytes(rt: HostRuntime) -> Result<(), Fail> {
    let alloc = rt.alloc();
    for bytes in PATHS {
        assert!(rt; is_kept(alloc, bytes)?, "{bytes:?}");
    }
    let deepest = repeated(alloc, b"a/", 63, b"a")?;
    assert!(rt; is_kept(alloc, deepest.as_slice())?);
    Ok(())
}

/// The bytes of the path that a vector is, or the bytes that are given back, and why.
fn of_vector(alloc: Global, bytes: &[u8]) -> Result<(Vec<u8>, Option<PathFault>), Fail> {
    match Path::from_vec(bytes.to_vec(alloc)?) {
        Ok(path) => Ok((path.as_bytes().to_vec(alloc)?, None)),
        Err(refused) => Ok((refused.bytes, Some(refused.cause))),
    }
}

#[test]
fn paths_of_vectors_and_of_two_parts(rt: HostRuntime) -> Result<(), Fail> {
    let alloc = rt.alloc();
    for (bytes, fault) in &[("src/a", None), ("src//a", Some(PathFault::BadComponent))] {
        let (kept, told) = of_vector(alloc, bytes.as_bytes())?;
        assert!(rt;
            kept.as_slice() == bytes.as_bytes() && told == *fault,
            "{bytes}"
        );
    }
    let path = Path::joined(alloc, b"src/".as_slice(), b"a".as_slice())?;
    assert!(rt; path.as_bytes() == b"src/a".as_slice());
    Ok(())
}

/// Two paths, whether the first stands below the second, and whether they clash.
const PAIRS: &[(&str, &str, bool, bool)] = &[
    ("a/b", "a", true, true),
    ("a", "a/b", false, true),
    ("a", "a", false, false),
    ("ab", "a", false, false),
    ("a.b", "a", false, false),
    ("a/b/c", "a", true, true),
];

#[test]
fn clashing_paths(rt: HostRuntime) -> Result<(), Fail> {
    for (name, other, below, clash) in PAIRS {
        let (first, second) = (path(rt.alloc(), name)?, path(rt.alloc(), other)?);
        assert!(rt; first.is_below(&second) == *below, "{name} and {other}");
        assert!(rt; first.clashes(&second) == *clash, "{name} and {other}");
    }
    Ok(())
}

#[test]
fn contents_are_copied_whole(rt: HostRuntime) -> Result<(), Fail> {
    let held = Some(plain(rt.alloc(), "hello")?);
    let copy = Content::copy_of(&held)?;
    assert!(rt; copy == held);
    let copy = copy.ok_or("no copy")?;
    assert!(rt; Some(copy.copy()?) == held);
    assert!(rt; copy.bytes.len() == 5 && !copy.bytes.is_empty());
    assert!(rt; copy.bytes.as_slice() == b"hello".as_slice());
    Ok(())
}

#[test]
fn contents_that_are_lent_or_that_are_none(rt: HostRuntime) -> Result<(), Fail> {
    let bytes = Bytes::from_static(b"hello".as_slice());
    let content = Content::of_lent(Some((Kind::Exec, &bytes)))?;
    assert!(rt;
        content.is_some_and(|own| own.kind == Kind::Exec
            && own.bytes.as_slice() == b"hello".as_slice())
    );
    assert!(rt; Content::of_lent(None)?.is_none());
    assert!(rt; Content::copy_of(&None)?.is_none());
    assert!(rt; Sequence::<u8>::new(rt.alloc()).is_empty());
    assert!(rt; Id::ZERO == Id([0; 20]));
    Ok(())
}

/// The paths of these texts, in their order.
fn paths(alloc: Global, texts: &[&str]) -> Result<Vec<Path>, Fail> {
    let mut paths = Vec::new(alloc);
    for text in texts {
        paths.push(path(alloc, text)?)?;
    }
    Ok(paths)
}

#[test]
fn tables_list_each_path_once(rt: HostRuntime) -> Result<(), Fail> {
    let alloc = rt.alloc();
    let given = paths(alloc, &["c", "a"])?;
    let mut table = PathTable::new(alloc);
    for path in &given {
        table.add(path)?;
    }
    table.add_all(given.as_slice())?;
    let listed = table.list(alloc)?;
    assert!(rt; spaced(alloc, listed.as_slice())?.as_slice() == b"a c ".as_slice());
    Ok(())
}

#[test]
fn paths_that_are_wanted_are_added(rt: HostRuntime) -> Result<(), Fail> {
    let alloc = rt.alloc();
    let mut wanted = paths(alloc, &["z"])?;
    let from = paths(alloc, &["a/c", "b", "a/b"])?;
    push_where(
        &mut wanted,
        from.as_slice(),
        |path| path.as_bytes().starts_with(b"a/".as_slice()),
    )?;
    assert!(rt; spaced(alloc, wanted.as_slice())?.as_slice() == b"z a/c a/b ".as_slice());
    Ok(())
}
