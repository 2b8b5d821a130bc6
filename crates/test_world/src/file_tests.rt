//! Whole file maps.

use eden_ids::{FileTree, Files, PathTable, has_file_above};
use std::test::Fail;
use test_kit::{path, plain};

#[test]
fn files_change_one_path_at_a_time(rt: HostRuntime) -> Result<(), Fail> {
    let alloc = rt.alloc();
    let mut files = Files::new(alloc);
    let a = path(alloc, "a")?;
    let below = path(alloc, "a/b")?;
    files.insert(below.copy()?, plain(alloc, "x")?)?;
    assert!(rt; files.has_file_below(&a));
    assert!(rt; !has_file_above(&files, b"a".as_slice()));
    assert!(rt; !has_file_above(&files, b"a/b".as_slice()));
    let copy = files.copy()?;
    files.remove(&below);
    assert!(rt; files.get(&below).is_none());
    assert!(rt; !files.has_file_below(&a));
    assert!(rt; copy.get(&below) == Some(&plain(alloc, "x")?));
    files.insert(a, plain(alloc, "y")?)?;
    assert!(rt; has_file_above(&files, b"a/b".as_slice()));
    Ok(())
}

#[test]
fn files_add_their_paths(rt: HostRuntime) -> Result<(), Fail> {
    let alloc = rt.alloc();
    let mut files = Files::new(alloc);
    files.insert(path(alloc, "b")?, plain(alloc, "x")?)?;
    let mut table = PathTable::new(alloc);
    table.add(&path(alloc, "c")?)?;
    table.add(&path(alloc, "a")?)?;
    files.add_paths(&mut table)?;
    let listed = table.list(alloc)?;
    assert_eq!(rt; listed.len(), 3);
    for (path, text) in listed.iter().zip(["a", "b", "c"]) {
        assert!(rt; path.as_bytes() == text.as_bytes());
    }
    Ok(())
}
