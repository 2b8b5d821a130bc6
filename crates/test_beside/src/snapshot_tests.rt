//! What a snapshot says of the contents: stats of its files, and its dirty paths.

use crate::comparing::mounted;
use crate::stores::one_commit;
use eden_accumulate::{Mount, Snapshot};
use eden_globs::Filter;
use eden_history::{Described, Mark, Marked};
use eden_ids::{GitNaming, Kind};
use eden_objects::{CommitFault, Stat, Store};
use std::alloc::Global;
use std::process::Abort;
use std::test::Fail;
use test_kit::path;

/// Adds the kind, the length and the id of a file of at most one byte.
fn put_stat(text: &mut Vec<u8>, stat: &Stat) -> Result<(), Fail> {
    let kind = match stat.kind {
        Kind::Plain => b' ',
        Kind::Exec => b'x',
        Kind::Link => b'l',
    };
    let length = match stat.length {
        0 => b'0',
        1 => b'1',
        _ => b'?',
    };
    text.extend_from_slice(&[kind, length, b' '])?;
    text.extend_from_slice(&stat.id.to_hex())?;
    text.push(b'\n')?;
    Ok(())
}

/// Returns a line for each file.
fn stats_text(alloc: Global, files: &[Described]) -> Result<Vec<u8>, Fail> {
    let mut text = Vec::new(alloc);
    for file in files {
        text.extend_from_slice(file.path.as_bytes())?;
        put_stat(&mut text, &file.stat)?;
    }
    Ok(text)
}

/// Returns each path after a sign for its mark.
fn marks_text(alloc: Global, marked: &[Marked]) -> Result<Vec<u8>, Fail> {
    let mut text = Vec::new(alloc);
    for one in marked {
        text.push(match one.mark {
            Mark::Created => b'+',
            Mark::Removed => b'-',
            Mark::Changed => b'~',
            Mark::Root => b'?',
        })?;
        text.extend_from_slice(one.path.as_bytes())?;
        text.push(b' ')?;
    }
    Ok(text)
}

/// Changes `a`, renames `d` to `f`, removes `e`, makes a link `g`, and writes `b` back.
fn change(alloc: Global, mount: &mut Mount<GitNaming>) -> Result<(), Fail> {
    mount.write(&path(alloc, "a")?, Kind::Plain, b"1".as_slice())?;
    mount.rename_dir(&path(alloc, "d")?, &path(alloc, "f")?)?;
    mount.remove(&path(alloc, "e")?)?;
    mount.write(&path(alloc, "g")?, Kind::Link, b"".as_slice())?;
    let b = path(alloc, "b")?;
    mount.write(&b, Kind::Plain, b"1".as_slice())?;
    mount.write(&b, Kind::Plain, b"x".as_slice())?;
    Ok(())
}

/// The files after these changes. The ids are by `git hash-object`.
const FILES: &[u8] = b"\
a 1 56a6051ca2b02b04ef92d5150c9ef600403cb1de
b 1 c1b0730e0133447badcfd47fd144e254807b06e1
f/a 1 c1b0730e0133447badcfd47fd144e254807b06e1
f/bx1 e25f1814e51579d5f55c0f1fe0135ddb28a47f4a
gl0 e69de29bb2d1d6434b8b29ae775ad8c2e48c5391
";

/// Those of them below `f`.
const BELOW: &[u8] = b"\
f/a 1 c1b0730e0133447badcfd47fd144e254807b06e1
f/bx1 e25f1814e51579d5f55c0f1fe0135ddb28a47f4a
";

/// Checks the stats of all files, of those below a directory, and of those that a filter admits.
fn describes(
    rt: &impl Abort,
    alloc: Global,
    snapshot: &Snapshot,
    store: &Store<GitNaming>,
) -> Result<(), Fail> {
    let all = Filter::all(alloc);
    let files = snapshot.stats(store, &all)?;
    assert!(rt; stats_text(alloc, files.as_slice())?.as_slice() == FILES);
    let files = snapshot.stats_below(store, &path(alloc, "f")?, &all)?;
    assert!(rt; stats_text(alloc, files.as_slice())?.as_slice() == BELOW);
    let files = snapshot.stats(store, &Filter::parse(alloc, &[b"f/*".as_slice()])?)?;
    assert!(rt; stats_text(alloc, files.as_slice())?.as_slice() == BELOW);
    Ok(())
}

/// Checks the stat of a renamed file, and that none is at its old path.
fn finds(
    rt: &impl Abort,
    alloc: Global,
    snapshot: &Snapshot,
    store: &Store<GitNaming>,
) -> Result<(), Fail> {
    let Some(stat) = snapshot.stat(store, &path(alloc, "f/b")?)? else {
        return Err(Fail::new("no file"));
    };
    let mut text = Vec::new(alloc);
    put_stat(&mut text, &stat)?;
    assert!(rt; text.as_slice() == b"x1 e25f1814e51579d5f55c0f1fe0135ddb28a47f4a\n".as_slice());
    assert!(rt; snapshot.stat(store, &path(alloc, "d/b")?)?.is_none());
    Ok(())
}

/// Checks the dirty paths, and those that a filter admits.
fn marks(
    rt: &impl Abort,
    alloc: Global,
    snapshot: &Snapshot,
    store: &Store<GitNaming>,
) -> Result<(), Fail> {
    let marked = snapshot.dirty(store, &Filter::all(alloc))?;
    let text = marks_text(alloc, marked.as_slice())?;
    assert!(rt; text.as_slice() == b"~a -d/a -d/b -e +f/a +f/b +g ".as_slice());
    let marked = snapshot.dirty(store, &Filter::parse(alloc, &[b"*/b".as_slice()])?)?;
    let text = marks_text(alloc, marked.as_slice())?;
    assert!(rt; text.as_slice() == b"-d/b +f/b ".as_slice());
    Ok(())
}

/// Checks that a store without the commit is refused.
fn refuses(rt: &impl Abort, alloc: Global, snapshot: &Snapshot) -> Result<(), Fail> {
    let store = Store::new(alloc, GitNaming);
    let all = Filter::all(alloc);
    assert!(rt; matches!(snapshot.stats(&store, &all), Err(CommitFault::NoCommit)));
    assert!(rt; matches!(snapshot.dirty(&store, &all), Err(CommitFault::NoCommit)));
    assert!(rt; snapshot.stat(&store, &path(alloc, "a")?).is_err());
    Ok(())
}

/// Checks a snapshot, and that it stays as it is while the mount changes further.
fn says(rt: &impl Abort, alloc: Global, mount: &mut Mount<GitNaming>) -> Result<(), Fail> {
    let snapshot = mount.snapshot()?;
    mount.remove(&path(alloc, "a")?)?;
    describes(rt, alloc, &snapshot, mount.store())?;
    finds(rt, alloc, &snapshot, mount.store())?;
    marks(rt, alloc, &snapshot, mount.store())?;
    refuses(rt, alloc, &snapshot)
}

#[test]
fn snapshot_contents(rt: HostRuntime) -> Result<(), Fail> {
    let alloc = rt.alloc();
    let mut commits = one_commit(alloc)?;
    let root = commits.ids[0];
    let mut mount = mounted(alloc, &mut commits.store, root, 1000)?;
    change(alloc, &mut mount)?;
    says(&rt, alloc, &mut mount)
}
