//! Changes of a working copy, what is answered to them, and which paths it lists then.

use crate::mounted::seen;
use crate::steps::{Step, first_wrong_over};
use eden_history::ChangeFault;
use eden_ids::{Content, GitNaming, Id, Kind};
use eden_objects::Store;
use eden_overlay::woven;
use eden_workcopy::{WorkCopy, touched_law};
use std::alloc::Global;
use std::test::Fail;
use test_kit::{Objects, filter_of, path, plain, spaced};

/// Changes over a commit with the files `a`, `a.b` and `d/x`.
const OVER_A_COMMIT: &[Step<'static>] = &[
    (
        "write d 1",
        Some(ChangeFault::IsADirectory),
        "a=1 a.b=1 d/x=1 ",
        "",
    ),
    (
        "write a/b 1",
        Some(ChangeFault::NotADirectory),
        "a=1 a.b=1 d/x=1 ",
        "",
    ),
    (
        "remove b",
        Some(ChangeFault::NoEntry),
        "a=1 a.b=1 d/x=1 ",
        "",
    ),
    (
        "remove d",
        Some(ChangeFault::IsADirectory),
        "a=1 a.b=1 d/x=1 ",
        "",
    ),
    // The old path's refusal comes first.
    (
        "rename b d",
        Some(ChangeFault::NoEntry),
        "a=1 a.b=1 d/x=1 ",
        "",
    ),
    (
        "rename a d",
        Some(ChangeFault::IsADirectory),
        "a=1 a.b=1 d/x=1 ",
        "",
    ),
    ("rename a a", None, "a=1 a.b=1 d/x=1 ", ""),
    // Equal content leaves a path clean.
    ("write a 1", None, "a=1 a.b=1 d/x=1 ", ""),
    ("write b 4", None, "a=1 a.b=1 b=4 d/x=1 ", "b "),
    ("rename a c", None, "a.b=1 b=4 c=1 d/x=1 ", "a b c "),
    ("remove d/x", None, "a.b=1 b=4 c=1 ", "a b c d/x "),
    ("write d 5", None, "a.b=1 b=4 c=1 d=5 ", "a b c d d/x "),
    (
        "revert d/x",
        Some(ChangeFault::NotADirectory),
        "a.b=1 b=4 c=1 d=5 ",
        "a b c d d/x ",
    ),
    ("remove d", None, "a.b=1 b=4 c=1 ", "a b c d/x "),
    ("revert d/x", None, "a.b=1 b=4 c=1 d/x=1 ", "a b c "),
    ("revert c", None, "a.b=1 b=4 d/x=1 ", "a b "),
    // In byte order `a.b` stands between `a` and what is below it.
    ("write a/z 7", None, "a.b=1 a/z=7 b=4 d/x=1 ", "a a/z b "),
    (
        "write a 1",
        Some(ChangeFault::IsADirectory),
        "a.b=1 a/z=7 b=4 d/x=1 ",
        "a a/z b ",
    ),
    (
        "revert a",
        Some(ChangeFault::IsADirectory),
        "a.b=1 a/z=7 b=4 d/x=1 ",
        "a a/z b ",
    ),
    ("remove a/z", None, "a.b=1 b=4 d/x=1 ", "a b "),
    ("revert a", None, "a=1 a.b=1 b=4 d/x=1 ", "b "),
];

/// Renames of directories over a commit with the files `a`, `d/e/y`, `d/x` and `d.x`.
const OF_DIRECTORIES: &[Step<'static>] = &[
    (
        "renamedir a b",
        Some(ChangeFault::NotADirectory),
        "a=1 d.x=1 d/e/y=2 d/x=1 ",
        "",
    ),
    (
        "renamedir d/x/z b",
        Some(ChangeFault::NotADirectory),
        "a=1 d.x=1 d/e/y=2 d/x=1 ",
        "",
    ),
    (
        "renamedir b d",
        Some(ChangeFault::NoEntry),
        "a=1 d.x=1 d/e/y=2 d/x=1 ",
        "",
    ),
    ("renamedir d d", None, "a=1 d.x=1 d/e/y=2 d/x=1 ", ""),
    (
        "renamedir d d/f",
        Some(ChangeFault::IntoItself),
        "a=1 d.x=1 d/e/y=2 d/x=1 ",
        "",
    ),
    (
        "renamedir d/e a",
        Some(ChangeFault::NotADirectory),
        "a=1 d.x=1 d/e/y=2 d/x=1 ",
        "",
    ),
    (
        "renamedir d/e a/b",
        Some(ChangeFault::NotADirectory),
        "a=1 d.x=1 d/e/y=2 d/x=1 ",
        "",
    ),
    (
        "renamedir d/e d",
        Some(ChangeFault::IsADirectory),
        "a=1 d.x=1 d/e/y=2 d/x=1 ",
        "",
    ),
    (
        "renamedir d b/c",
        None,
        "a=1 b/c/e/y=2 b/c/x=1 d.x=1 ",
        "b/c/e/y b/c/x d/e/y d/x ",
    ),
    (
        "write d/n 2",
        None,
        "a=1 b/c/e/y=2 b/c/x=1 d.x=1 d/n=2 ",
        "b/c/e/y b/c/x d/e/y d/n d/x ",
    ),
    (
        "renamedir b/c b",
        Some(ChangeFault::IsADirectory),
        "a=1 b/c/e/y=2 b/c/x=1 d.x=1 d/n=2 ",
        "b/c/e/y b/c/x d/e/y d/n d/x ",
    ),
    (
        "remove d/n",
        None,
        "a=1 b/c/e/y=2 b/c/x=1 d.x=1 ",
        "b/c/e/y b/c/x d/e/y d/x ",
    ),
    // Back again: nothing is told of the paths in between.
    ("renamedir b/c d", None, "a=1 d.x=1 d/e/y=2 d/x=1 ", ""),
    // A path that hides a file of the commit is not in the way.
    ("remove d/x", None, "a=1 d.x=1 d/e/y=2 ", "d/x "),
    (
        "renamedir d/e f",
        None,
        "a=1 d.x=1 f/y=2 ",
        "d/e/y d/x f/y ",
    ),
    ("renamedir f d", None, "a=1 d.x=1 d/y=2 ", "d/e/y d/x d/y "),
    ("renamedir d f", None, "a=1 d.x=1 f/y=2 ", "d/e/y d/x f/y "),
];

/// What it is called, a commit `c`, and changes over it.
type OverCommit = (&'static str, &'static str, &'static [Step<'static>]);

const OVER_COMMITS: &[OverCommit] = &[
    (
        "changes_over_a_commit",
        "blob b 1;tree d 100644 x b;tree t 100644 a b 100644 a.b b 40000 d d;commit c t",
        OVER_A_COMMIT,
    ),
    (
        "directories_over_a_commit",
        "blob b 1;blob n 2;tree e 100644 y n;tree d 40000 e e 100644 x b;tree t 100644 a b 100644 d.x b 40000 d d;commit c t",
        OF_DIRECTORIES,
    ),
];

#[test]
fn changes_over_commits(rt: HostRuntime) -> Result<(), Fail> {
    for (name, lines, steps) in OVER_COMMITS {
        let wrong = first_wrong_over(rt.alloc(), lines, "c", "", steps)?;
        assert_eq!(rt; wrong, None, "{name}");
    }
    Ok(())
}

/// Lines that put an object, and no commit.
const NO_COMMIT: &str = "blob b 1";

/// Changes over the empty commit of a file in a directory `d`, whose path has 64 names, the most that there are: the star stands for 62.
const DEEP: &[Step<'static>] = &[
    ("write d/*x 1", None, "d/*x=1 ", "d/*x "),
    ("renamedir d e", None, "e/*x=1 ", "e/*x "),
    (
        "renamedir e f/g",
        Some(ChangeFault::PathTooLong),
        "e/*x=1 ",
        "e/*x ",
    ),
];

#[test]
fn a_directory_with_a_deep_path(rt: HostRuntime) -> Result<(), Fail> {
    let alloc = rt.alloc();
    let names = "a/".repeat(alloc, 62)?;
    let wrong = first_wrong_over(alloc, NO_COMMIT, "empty", names.as_str(), DEEP)?;
    assert_eq!(rt; wrong, None);
    Ok(())
}

/// Changes over the empty commit.
const OVER_NOTHING: &[Step<'static>] = &[
    ("write a 1", None, "a=1 ", "a "),
    ("write b 2", None, "a=1 b=2 ", "a b "),
    ("rename a b", None, "b=1 ", "b "),
    ("rename b b", None, "b=1 ", "b "),
    ("rename a a", Some(ChangeFault::NoEntry), "b=1 ", "b "),
    ("revert b", None, "", ""),
];

#[test]
fn changes_over_nothing(rt: HostRuntime) -> Result<(), Fail> {
    let wrong = first_wrong_over(rt.alloc(), NO_COMMIT, "empty", "", OVER_NOTHING)?;
    assert_eq!(rt; wrong, None);
    Ok(())
}

/// The commit `c` of a plain file `f`, and the commit `d` of an executable one with the same bytes.
const KINDS: &str = "blob b 1;tree t 100644 f b;commit c t;tree u 100755 f b;commit d u";

/// What is reverted comes back as the other commit has it.
const REVERTED: &[Step<'static>] = &[
    ("reroot none", Some(ChangeFault::NoCommit), "f=1 ", ""),
    ("reroot d", None, "f=1 ", "f "),
    ("rename f f", None, "f=1 ", "f "),
    ("revert f", None, "f!1 ", ""),
];

// The two commits have `f` with the same bytes, and differ in its kind alone.
#[test]
fn reroot_and_revert(rt: HostRuntime) -> Result<(), Fail> {
    assert_eq!(rt;
        first_wrong_over(rt.alloc(), KINDS, "c", "", REVERTED)?,
        None
    );
    Ok(())
}

/// Sets the file at a path, or that there is none, whatever was there.
fn set(alloc: Global, work: &mut WorkCopy, at: &str, file: Option<Content>) -> Result<(), Fail> {
    Ok(work.set(path(alloc, at)?, file)?)
}

/// Returns the touched paths, each with a sign after it that says whether a file is there.
fn touched_signs(alloc: Global, work: &WorkCopy) -> Result<Vec<u8>, Fail> {
    let mut text = Vec::new(alloc);
    for (path, is_there) in &work.touched()? {
        text.extend_from_slice(path.as_bytes())?;
        text.push(if *is_there { b'+' } else { b'-' })?;
    }
    Ok(text)
}

/// Returns whether paths that are set are held and touched, in a working copy over the empty commit.
fn holds_what_is_set(
    alloc: Global,
    store: &Store<GitNaming>,
    work: &mut WorkCopy,
) -> Result<bool, Fail> {
    let link = Content::from_bytes(alloc, Kind::Link, b"1".as_slice())?;
    set(alloc, work, "b", None)?;
    set(alloc, work, "a", Some(link))?;
    let held = Some((Kind::Link, b"1".as_slice()));
    Ok(
        seen(work.file(store, b"a".as_slice())) == held
            && work.file(store, b"b".as_slice()).is_none()
            && touched_signs(alloc, work)?.as_slice() == b"a+b-".as_slice(),
    )
}

/// Returns whether paths are set over the empty commit, and no working copy is made over an unknown one.
fn sets_unjudged(alloc: Global) -> Result<bool, Fail> {
    let store = Store::new(alloc, GitNaming);
    if WorkCopy::new(alloc, &store, Id([1; 20])).is_ok() {
        return Ok(false);
    }
    let mut work = WorkCopy::new(alloc, &store, Id::ZERO)?;
    holds_what_is_set(alloc, &store, &mut work)
}

#[test]
fn paths_set_unjudged(rt: HostRuntime) -> Result<(), Fail> {
    assert!(rt; sets_unjudged(rt.alloc())?);
    Ok(())
}

/// Returns a copy of the file at a path.
fn copied(
    alloc: Global,
    work: &WorkCopy,
    store: &Store<GitNaming>,
    at: &str,
) -> Result<Option<Content>, Fail> {
    Ok(work.over(store).file_copy(&path(alloc, at)?)?)
}

/// Returns whether a file that is set at `a`, and then shifted to `b`, is copied from there.
fn copies_and_shifts(
    alloc: Global,
    store: &Store<GitNaming>,
    work: &mut WorkCopy,
) -> Result<bool, Fail> {
    let file = Some(plain(alloc, "1")?);
    set(alloc, work, "a", Content::copy_of(&file)?)?;
    if copied(alloc, work, store, "a")? != file || copied(alloc, work, store, "b")?.is_some() {
        return Ok(false);
    }
    let (old, new) = (path(alloc, "a")?, path(alloc, "b")?);
    work.shift_file(&old, &new, plain(alloc, "1")?)?;
    Ok(copied(alloc, work, store, "a")?.is_none() && copied(alloc, work, store, "b")? == file)
}

/// The same over the empty commit.
fn copies_and_shifts_over_nothing(alloc: Global) -> Result<bool, Fail> {
    let store = Store::new(alloc, GitNaming);
    let mut work = WorkCopy::new(alloc, &store, Id::ZERO)?;
    copies_and_shifts(alloc, &store, &mut work)
}

#[test]
fn files_are_copied_and_shifted(rt: HostRuntime) -> Result<(), Fail> {
    assert!(rt; copies_and_shifts_over_nothing(rt.alloc())?);
    Ok(())
}

/// Returns the paths that a pattern admits of the commit of a working copy and of what was changed over it, each with a space after it.
fn woven_text(
    alloc: Global,
    store: &Store<GitNaming>,
    work: &WorkCopy,
    pattern: &str,
) -> Result<Vec<u8>, Fail> {
    touched_law();
    let filter = filter_of(alloc, pattern)?;
    let mut listed = Vec::new(alloc);
    for (path, _, _) in store.list(work.root(), &filter)? {
        listed.push(path)?;
    }
    let touched = work.touched()?;
    let paths = woven(alloc, listed, touched.as_slice(), &filter)?;
    Ok(spaced(alloc, paths.as_slice())?)
}

/// A pattern, and the paths that it admits of the commit and of what was changed over it.
const WOVEN: &[(&str, &str)] = &[
    ("**", "a.b b d/x d/y "),
    ("*", "a.b b "),
    ("d/*", "d/x d/y "),
];

/// Takes `a` away, puts files at `b` and `d/y`, and returns the first pattern of the table that admits other paths then.
fn first_wrong_woven(
    alloc: Global,
    store: &Store<GitNaming>,
    work: &mut WorkCopy,
) -> Result<Option<&'static str>, Fail> {
    set(alloc, work, "a", None)?;
    for at in ["b", "d/y"] {
        set(alloc, work, at, Some(plain(alloc, "2")?))?;
    }
    for (pattern, wanted) in WOVEN {
        if woven_text(alloc, store, work, pattern)?.as_slice() != wanted.as_bytes() {
            return Ok(Some(*pattern));
        }
    }
    Ok(None)
}

/// The same over the commit `c` of these objects.
fn first_wrong_woven_over(alloc: Global, objects: &Objects) -> Result<Option<&'static str>, Fail> {
    let mut work = WorkCopy::new(alloc, &objects.store, objects.id("c"))?;
    first_wrong_woven(alloc, &objects.store, &mut work)
}

// The commit has `a`, `a.b` and `d/x`; over it `a` is gone, and `b` and `d/y` are there.
#[test]
fn touched_paths_lie_over_a_commit(rt: HostRuntime) -> Result<(), Fail> {
    let script = "blob b 1;tree d 100644 x b;tree t 100644 a b 100644 a.b b 40000 d d;commit c t";
    let objects = Objects::of(rt.alloc(), script)?;
    assert_eq!(rt; first_wrong_woven_over(rt.alloc(), &objects)?, None);
    Ok(())
}
