//! The files of a commit: listed, looked up, counted, and those below a directory.

use bytes::Bytes;
use eden_globs::Filter;
use eden_ids::{GitNaming, Id, Kind, Path};
use eden_objects::{CommitFault, NoCommit, Store};
use std::alloc::Global;
use std::process::Abort;
use std::test::Fail;
use test_kit::{Objects, path};

/// A commit `c` of the files `a-b`, `a/x`, `a0` and `d/e/f`.
pub(crate) const FILES: &str =
    "blob one one\\n;blob two two\\n;blob link a-b;blob three three\\n;tree a 100755 x two;tree e 100644 f three;tree d 40000 e e;\
    tree t 100644 a-b one 40000 a a 120000 a0 link 40000 d d;commit c t";

/// A file: its path, its kind, and the id that Git gives its blob.
type Row = (&'static str, Kind, &'static str);

const A_B: Row = (
    "a-b",
    Kind::Plain,
    "5626abf0f72e58d7a153368ba57db4c673c0e171",
);

const A_X: Row = (
    "a/x",
    Kind::Exec,
    "f719efd430d52bcfc8566a43b2eb655688d38871",
);

const A0: Row = ("a0", Kind::Link, "5c7796f622a1e15babe6f341a239b0de7af1ba49");

const F: Row = (
    "d/e/f",
    Kind::Plain,
    "2bdf67abb163a4ffb2d7f3f0880c9fe5068ce782",
);

/// Whether one file of a listing is that of a row.
fn is_row(listed: &(Path, Kind, Id), row: &Row) -> bool {
    let (path, kind, id) = listed;
    path.as_bytes() == row.0.as_bytes()
        && *kind == row.1
        && id.to_hex().as_slice() == row.2.as_bytes()
}

/// Whether the listing has just these rows.
fn has_rows(listed: &[(Path, Kind, Id)], rows: &[Row]) -> bool {
    listed.len() == rows.len() && listed.iter().zip(rows).all(|(one, row)| is_row(one, row))
}

/// Files of a listing.
type Listed = Vec<(Path, Kind, Id)>;

/// The files of a commit that patterns admit.
fn listed(
    alloc: Global,
    store: &Store<GitNaming>,
    commit: Id,
    patterns: &[&[u8]],
) -> Result<Listed, Fail> {
    Ok(store.list(commit, &Filter::parse(alloc, patterns)?)?)
}

/// All files of a commit.
fn all_listed(alloc: Global, store: &Store<GitNaming>, commit: Id) -> Result<Listed, Fail> {
    Ok(store.list(commit, &Filter::all(alloc))?)
}

fn has_commit(store: &Store<GitNaming>, id: Id) -> bool {
    store.has_commit(id)
}

/// The files of a commit below a path that patterns admit.
fn listed_below(
    alloc: Global,
    store: &Store<GitNaming>,
    commit: Id,
    top: &str,
    patterns: &[&[u8]],
) -> Result<Listed, Fail> {
    let filter = Filter::parse(alloc, patterns)?;
    Ok(store.list_below(commit, &path(alloc, top)?, &filter)?)
}

/// What patterns admit of a commit below a directory, or below what is none.
const BELOW: &[(&str, &[&[u8]], &[Row])] = &[
    ("a", &[], &[A_X]),
    ("d", &[], &[F]),
    ("d/e", &[], &[F]),
    ("a-b", &[], &[]),
    ("a/x", &[], &[]),
    ("d/f", &[], &[]),
    ("z/e", &[], &[]),
    ("d", &[b"**/f"], &[F]),
    ("d", &[b"a/**", b"d/e/*"], &[F]),
    ("d", &[b"a/**"], &[]),
    ("a", &[b"*"], &[]),
];

/// Checks the list of all files, and those below each directory of the table.
fn check_lists(rt: &impl Abort, alloc: Global, objects: &Objects) -> Result<(), Fail> {
    let (store, commit) = (&objects.store, objects.id("c"));
    assert!(rt;
        commit.to_hex().as_slice() == b"121c0404102d0c4f3969bca6aa8e28f3be526767".as_slice()
    );
    let all = all_listed(alloc, store, commit)?;
    assert!(rt; has_rows(all.as_slice(), &[A_B, A_X, A0, F]));
    for (top, patterns, rows) in BELOW {
        let below = listed_below(alloc, store, commit, top, patterns)?;
        assert!(rt; has_rows(below.as_slice(), rows), "at {top}");
    }
    Ok(())
}

// The ids are those that Git gives the same files.
#[test]
fn a_commit_lists_its_files(rt: HostRuntime) -> Result<(), Fail> {
    let objects = Objects::of(rt.alloc(), FILES)?;
    check_lists(&rt, rt.alloc(), &objects)
}

/// Patterns, excluded patterns, and the files that are listed of the commit.
const EXCLUDED: &[(&[&[u8]], &[&[u8]], &[Row])] = &[
    (&[], &[b"d/**"], &[A_B, A_X, A0]),
    (&[], &[b"**/f", b"a?b"], &[A_X, A0]),
    (&[], &[b"d", b"d/e"], &[A_B, A_X, A0, F]),
    (&[], &[b"d/*"], &[A_B, A_X, A0, F]),
    (&[b"a*"], &[b"a0"], &[A_B]),
    (&[b"a/*"], &[b"d/**"], &[A_X]),
    (&[b"a/*"], &[b"**"], &[]),
];

/// The files of a commit that patterns admit and no others exclude.
fn listed_but(
    alloc: Global,
    store: &Store<GitNaming>,
    commit: Id,
    patterns: &[&[u8]],
    excluded: &[&[u8]],
) -> Result<Listed, Fail> {
    let filter = Filter::parse(alloc, patterns)?;
    let filter = filter.except(&Filter::parse(alloc, excluded)?)?;
    Ok(store.list(commit, &filter)?)
}

#[test]
fn a_commit_lists_what_is_not_excluded(rt: HostRuntime) -> Result<(), Fail> {
    let objects = Objects::of(rt.alloc(), FILES)?;
    let (store, commit) = (&objects.store, objects.id("c"));
    for (row, (patterns, excluded, files)) in EXCLUDED.iter().enumerate() {
        let found = listed_but(rt.alloc(), store, commit, patterns, excluded)?;
        assert!(rt; has_rows(found.as_slice(), files), "row {row}");
    }
    Ok(())
}

/// The file at a path of a commit, or none; and none where there is no commit.
fn found(
    alloc: Global,
    store: &Store<GitNaming>,
    commit: Id,
    at: &str,
) -> Result<Result<Option<(Kind, Id)>, NoCommit>, Fail> {
    Ok(store.lookup(commit, &path(alloc, at)?))
}

/// Directories and names of nothing: there is no file at any of them.
const NO_FILE: &[&str] = &["a", "a-b/x", "a/y", "d/e", "d/e/f/g", "x", "z"];

fn id_of(text: &str) -> Result<Id, Fail> {
    Ok(Id::from_hex(text.as_bytes())?)
}

/// Checks what is found at each path, and a blob beside what is none.
fn check_files(rt: &impl Abort, alloc: Global, objects: &Objects) -> Result<(), Fail> {
    let (store, commit) = (&objects.store, objects.id("c"));
    for (path, kind, id) in &[A_B, A_X, A0, F] {
        let wanted = Some((*kind, id_of(id)?));
        assert!(rt;
            found(alloc, store, commit, path)? == Ok(wanted),
            "at {path}"
        );
    }
    for path in NO_FILE {
        assert!(rt; found(alloc, store, commit, path)? == Ok(None), "at {path}");
    }
    assert!(rt; store.blob(id_of(A_X.2)?) == Some(b"two\n".as_slice()));
    assert!(rt; store.blob(commit).is_none());
    assert!(rt; store.blob(Id::ZERO).is_none());
    Ok(())
}

#[test]
fn a_file_is_looked_up(rt: HostRuntime) -> Result<(), Fail> {
    let objects = Objects::of(rt.alloc(), FILES)?;
    check_files(&rt, rt.alloc(), &objects)
}

/// The kind and the bytes of a file.
fn seen(file: Option<(Kind, &Bytes)>) -> Option<(Kind, &[u8])> {
    match file {
        Some((kind, bytes)) => Some((kind, bytes.as_slice())),
        None => None,
    }
}

/// The file at a path of a commit, if the commit and the store tell the same: `None` where there is no such commit.
fn file_of<'a>(
    store: &'a Store<GitNaming>,
    id: Id,
    path: &str,
) -> Option<Option<(Kind, &'a [u8])>> {
    let file = seen(store.commit(id)?.file(path.as_bytes()));
    if file == seen(store.commit_files(id).file(path.as_bytes())) {
        return Some(file);
    }
    None
}

/// How many files a commit has below a path, and whether that is one at least.
fn below(store: &Store<GitNaming>, id: Id, top: &str) -> Option<(usize, bool)> {
    let commit = store.commit(id)?;
    let top = top.as_bytes();
    Some((commit.files_below(top), commit.has_below(top, 1)))
}

/// A path, and the file at it.
const HELD: &[(&str, Option<(Kind, &[u8])>)] = &[
    ("a-b", Some((Kind::Plain, b"one\n"))),
    ("a/x", Some((Kind::Exec, b"two\n"))),
    ("a0", Some((Kind::Link, b"a-b"))),
    ("d/e/f", Some((Kind::Plain, b"three\n"))),
    ("a", None),
    ("a-b/x", None),
    ("a/y", None),
    ("d/e", None),
    ("d/e/f/g", None),
    ("x", None),
];

/// A path, and how many files stand below it.
const COUNTS: &[(&str, usize)] = &[
    ("a", 1),
    ("d", 1),
    ("d/e", 1),
    ("a-b", 0),
    ("d/e/f", 0),
    ("x", 0),
];

#[test]
fn a_commit_that_is_held_tells_its_files(rt: HostRuntime) -> Result<(), Fail> {
    let objects = Objects::of(rt.alloc(), FILES)?;
    let (store, id) = (&objects.store, objects.id("c"));
    for (path, file) in HELD {
        assert!(rt; file_of(store, id, path) == Some(*file), "at {path}");
    }
    for (top, files) in COUNTS {
        assert!(rt;
            below(store, id, top) == Some((*files, *files == 1)),
            "below {top}"
        );
    }
    assert!(rt; file_of(store, Id::ZERO, "a-b") == Some(None));
    assert!(rt; file_of(store, Id([7; 20]), "a-b").is_none());
    let stranger = store.commit_files(Id([7; 20]));
    assert!(rt; stranger.file(b"a-b".as_slice()).is_none());
    Ok(())
}

/// Why the files of a commit, all of them and those below `a`, are not listed.
fn faults(
    alloc: Global,
    store: &Store<GitNaming>,
    id: Id,
) -> Result<(Option<CommitFault>, Option<CommitFault>), Fail> {
    let filter = Filter::all(alloc);
    let all = store.list(id, &filter).err();
    let below = store.list_below(id, &path(alloc, "a")?, &filter).err();
    Ok((all, below))
}

/// Checks that the empty commit has no files, and that a blob and an unknown object are no commits.
fn check_commits(rt: &impl Abort, alloc: Global, objects: &Objects) -> Result<(), Fail> {
    let store = &objects.store;
    assert!(rt; has_commit(store, objects.id("c")));
    assert!(rt; has_commit(store, Id::ZERO));
    assert!(rt; all_listed(alloc, store, Id::ZERO)?.is_empty());
    assert!(rt; listed_below(alloc, store, Id::ZERO, "a", &[])?.is_empty());
    assert!(rt; found(alloc, store, Id::ZERO, "a")? == Ok(None));
    let none = Some(CommitFault::NoCommit);
    for id in [id_of(A_B.2)?, Id([7; 20])] {
        assert!(rt; !has_commit(store, id));
        assert!(rt; found(alloc, store, id, "a")? == Err(NoCommit));
        assert!(rt; faults(alloc, store, id)? == (none, none));
    }
    Ok(())
}

#[test]
fn commits_are_told_from_other_objects(rt: HostRuntime) -> Result<(), Fail> {
    let objects = Objects::of(rt.alloc(), FILES)?;
    check_commits(&rt, rt.alloc(), &objects)
}

// The other tree of a pair in which a file becomes a directory of the same name.
#[test]
fn file_becomes_directory(rt: HostRuntime) -> Result<(), Fail> {
    let alloc = rt.alloc();
    let script = "blob x x;tree s 100644 b x;tree t 100644 a.b x 40000 a s;commit c t";
    let objects = Objects::of(alloc, script)?;
    let below = listed_below(alloc, &objects.store, objects.id("c"), "a", &[])?;
    // The id that `git hash-object` gives the letter `x`.
    let row = (
        "a/b",
        Kind::Plain,
        "c1b0730e0133447badcfd47fd144e254807b06e1",
    );
    assert!(rt; has_rows(below.as_slice(), &[row]));
    Ok(())
}

/// Puts the commits of `levels`.
fn put_levels(alloc: Global, objects: &mut Objects, lowest: &str) -> Result<(), Fail> {
    objects.put(alloc, lowest)?;
    objects.repeat(alloc, "tree t 40000 a t 40000 b t", 40)?;
    objects.put(alloc, "commit c t")?;
    objects.put(alloc, "tree u 40000 d t 100644 x x")?;
    objects.put(alloc, "commit d u")
}

/// A commit `c` of forty levels, each with two entries that name the level below: the lowest tree stands in it two to the 40 times, as
/// a file `a` alone, or without any. And a commit `d` of the first of these trees below `d`, and of a file `x`.
pub(crate) fn levels(alloc: Global, lowest: &str) -> Result<Objects, Fail> {
    let mut objects = Objects::of(alloc, "blob x x")?;
    put_levels(alloc, &mut objects, lowest)?;
    Ok(objects)
}

/// A path of forty-one components, and the same bytes the other way round, of which the last component is the file's name.
const DOWN: &str =
    "a/a/b/a/b/a/b/a/b/a/b/a/b/a/b/a/b/a/b/a/b/a/b/a/b/a/b/a/b/a/b/a/b/a/b/a/b/a/b/a/b";

const UP: &str =
    "b/a/b/a/b/a/b/a/b/a/b/a/b/a/b/a/b/a/b/a/b/a/b/a/b/a/b/a/b/a/b/a/b/a/b/a/b/a/b/a/a";

fn has_below(store: &Store<GitNaming>, commit: Id, top: &str, files: usize) -> bool {
    store.has_below(commit, top.as_bytes(), files)
}

/// Whether there are so many files below a path, and no more.
fn has_just_below(store: &Store<GitNaming>, commit: Id, top: &str, files: usize) -> bool {
    has_below(store, commit, top, files) && !has_below(store, commit, top, files.saturating_add(1))
}

/// Whether a listing has so many files, each with this id.
fn is_repeated(listed: &[(Path, Kind, Id)], id: Id, count: usize) -> bool {
    listed.len() == count && listed.iter().all(|row| row.2 == id)
}

/// A pattern, and how many files it admits of the commit of many levels and of `x`.
const ADMITTED: &[(&str, usize)] = &[("x", 1), ("?", 1), ("d/x", 0), ("*/*/b/f", 0)];

/// Checks what is found, counted and listed of a commit of many levels.
fn check_levels(rt: &impl Abort, alloc: Global, objects: &Objects) -> Result<(), Fail> {
    let (store, commit, x) = (&objects.store, objects.id("c"), objects.id("x"));
    assert!(rt; found(alloc, store, commit, DOWN)? == Ok(None));
    assert!(rt; found(alloc, store, commit, UP)? == Ok(Some((Kind::Plain, x))));
    for (top, files) in &[("a", 549_755_813_888), ("b/a", 274_877_906_944)] {
        assert!(rt; has_just_below(store, commit, top, *files), "{top}");
    }
    for (pattern, wanted) in ADMITTED {
        let listed = listed(alloc, store, objects.id("d"), &[pattern.as_bytes()])?;
        assert!(rt; is_repeated(listed.as_slice(), x, *wanted), "{pattern}");
    }
    Ok(())
}

// 2 to the 40 files, of which none is listed; those below each of the two names are counted at once. And a directory that no pattern enters
// is not read.
#[test]
fn shared_subtrees(rt: HostRuntime) -> Result<(), Fail> {
    let objects = levels(rt.alloc(), "tree t 100644 a x")?;
    check_levels(&rt, rt.alloc(), &objects)
}

// 2 to the 40 empty directories: none of them is gone through for a file that isn't there.
#[test]
fn empty_directories_hold_nothing(rt: HostRuntime) -> Result<(), Fail> {
    let alloc = rt.alloc();
    let objects = levels(alloc, "tree t")?;
    let (store, commit) = (&objects.store, objects.id("c"));
    assert!(rt; !has_below(store, commit, "a", 1));
    assert!(rt; all_listed(alloc, store, commit)?.is_empty());
    Ok(())
}
