//! The paths on which two commits differ, all of them or those that a filter admits.

use eden_globs::Filter;
use eden_ids::{Id, Kind, Path};
use eden_objects::CommitFault;
use eden_treediff::{diff, diff_admitted};
use std::alloc::Global;
use std::process::Abort;
use std::test::Fail;
use test_kit::{Objects, filter_of, spaced};

/// The paths that two commits differ on, or those that a pattern admits if there is one.
fn differing(
    alloc: Global,
    objects: &Objects,
    pattern: &str,
    first: Id,
    second: Id,
) -> Result<Vec<Path>, Fail> {
    if pattern.is_empty() {
        return Ok(diff(alloc, &objects.store, first, second)?);
    }
    let filter = filter_of(alloc, pattern)?;
    Ok(diff_admitted(alloc, &objects.store, first, second, &filter)?)
}

/// The same paths, each with a space behind it.
fn told(
    alloc: Global,
    objects: &Objects,
    pattern: &str,
    first: &str,
    second: &str,
) -> Result<Vec<u8>, Fail> {
    let (first, second) = (objects.id(first), objects.id(second));
    let paths = differing(alloc, objects, pattern, first, second)?;
    Ok(spaced(alloc, paths.as_slice())?)
}

/// What it is called, what is put, and the paths on which the commits `c` and `d` differ.
const DIFFERENCES: &[(&str, &str, &str)] = &[
    (
        "exec_bit_is_root",
        "blob b x;tree t 100644 f b;commit c t;tree u 100755 f b;commit d u",
        "f ",
    ),
    (
        "file_becomes_directory",
        "blob x x;tree t 100644 a x 100644 a.b x;commit c t;tree s 100644 b x;tree u 100644 a.b x 40000 a s;commit d u",
        "a a/b ",
    ),
    (
        "directories in two places",
        "blob x x;blob y y;tree n;tree t 100644 f x;tree u 100644 f y;tree v 100644 f x 40000 g n;\
            tree s 40000 a t 40000 b t 40000 c t 40000 d t;commit c s;tree w 40000 a v 40000 b u 40000 c v 40000 d u;commit d w",
        "b/f d/f ",
    ),
];

/// Whether `c` and `d` differ on these paths, either way round.
fn differ_on(alloc: Global, objects: &Objects, paths: &str) -> Result<bool, Fail> {
    let there = told(alloc, objects, "", "c", "d")?;
    let back = told(alloc, objects, "", "d", "c")?;
    Ok(there.as_slice() == paths.as_bytes() && back == there)
}

#[test]
fn known_differences(rt: HostRuntime) -> Result<(), Fail> {
    for (name, script, paths) in DIFFERENCES {
        let objects = Objects::of(rt.alloc(), script)?;
        assert!(rt; differ_on(rt.alloc(), &objects, paths)?, "{name}");
    }
    Ok(())
}

/// A file, two lowest directories with and one without a file in it, and one that has a directory without files beside its file.
const LOWEST: &str =
    "blob x x;blob y y;tree n;tree p 100644 a x;tree m 100644 a x 40000 b n;tree o 100644 a y";

/// Directories of one level more: each has the level below under two names.
const LEVELS: &[&str] = &[
    "tree n 40000 a n 40000 b n",
    "tree p 40000 a p 40000 b p",
    "tree m 40000 a m 40000 b m",
    "tree o 40000 a o 40000 b o",
];

/// Commits of them, and of a file.
const TOPS: &[&str] = &[
    "tree t 100644 f x 40000 z p",
    "commit px t",
    "tree t 100644 f y 40000 z p",
    "commit py t",
    "tree t 100644 f x 40000 z m",
    "commit mx t",
    "tree t 100644 f y 40000 z m",
    "commit my t",
    "tree t 100644 f y 40000 z o",
    "commit oy t",
    "tree t 40000 z n",
    "commit n t",
];

/// Puts the levels and the commits.
fn put_wide(alloc: Global, objects: &mut Objects) -> Result<(), Fail> {
    for line in LEVELS {
        objects.repeat(alloc, line, 40)?;
    }
    for line in TOPS {
        objects.put(alloc, line)?;
    }
    Ok(())
}

/// Commits of a file `f`, which holds `x` or `y`, and of a directory `z` of forty levels, each with the level below under two names, so
/// that the lowest directory is in it two to the fortieth times: `p` one file, `m` the same one beside a directory without files, and `o`
/// another one. And `n`, whose lowest directories are empty.
fn wide_commits(alloc: Global) -> Result<Objects, Fail> {
    let mut objects = Objects::of(alloc, LOWEST)?;
    put_wide(alloc, &mut objects)?;
    Ok(objects)
}

/// A pattern, or none, the labels of two of these commits, and the paths on which they differ.
const WIDE: &[(&str, &str, &str, &str)] = &[
    ("", "px", "py", "f "),
    ("", "px", "mx", ""),
    ("", "px", "my", "f "),
    ("", "n", "empty", ""),
    ("", "empty", "n", ""),
    ("f", "px", "oy", "f "),
];

/// One of the lowest files.
const DOWN: &str =
    "z/b/b/b/b/b/b/b/b/b/b/b/b/b/b/b/b/b/b/b/b/b/b/b/b/b/b/b/b/b/b/b/b/b/b/b/b/b/b/b/b/a";

/// Checks each row of the table, and one of the lowest files.
fn check_wide(rt: &impl Abort, alloc: Global, objects: &Objects) -> Result<(), Fail> {
    assert!(rt; objects.id("px") != objects.id("mx"));
    for (pattern, first, second, paths) in WIDE {
        let found = told(alloc, objects, pattern, first, second)?;
        assert!(rt;
            found.as_slice() == paths.as_bytes(),
            "{first} and {second}"
        );
    }
    let found = told(alloc, objects, DOWN, "px", "oy")?;
    assert!(rt; found.strip_suffix(b" ".as_slice()) == Some(DOWN.as_bytes()));
    Ok(())
}

#[test]
fn shared_subtrees(rt: HostRuntime) -> Result<(), Fail> {
    let objects = wide_commits(rt.alloc())?;
    check_wide(&rt, rt.alloc(), &objects)
}

/// Checks what is listed of these commits, and on what they differ, but for the directory `z`.
fn check_excluded(rt: &impl Abort, alloc: Global, objects: &Objects) -> Result<(), Fail> {
    let filter = Filter::all(alloc).except(&filter_of(alloc, "z/**")?)?;
    let (first, second) = (objects.id("px"), objects.id("oy"));
    let paths = diff_admitted(alloc, &objects.store, first, second, &filter)?;
    assert!(rt; spaced(alloc, paths.as_slice())?.as_slice() == b"f ".as_slice());
    let listed = objects.store.list(first, &filter)?;
    assert!(rt; listed.len() == 1 && listed[0].0.as_bytes() == b"f".as_slice());
    Ok(())
}

// Of 2 to the 40 files below an excluded directory none is looked at.
#[test]
fn excluded_subtrees(rt: HostRuntime) -> Result<(), Fail> {
    let objects = wide_commits(rt.alloc())?;
    check_excluded(&rt, rt.alloc(), &objects)
}

/// A file of a listing.
type Row = (Path, Kind, Id);

/// The files of a commit.
fn files_of(alloc: Global, objects: &Objects, label: &str) -> Result<Vec<Row>, Fail> {
    Ok(objects.store.list(objects.id(label), &Filter::all(alloc))?)
}

fn has_path(rows: &[Row], row: &Row) -> bool {
    rows.iter().any(|other| other.0 == row.0)
}

/// The paths that a pattern admits of those of two listings on which they differ, one by one, each with a space behind it.
fn plain_diff(
    alloc: Global,
    first: &[Row],
    second: &[Row],
    pattern: &str,
) -> Result<Vec<u8>, Fail> {
    let filter = filter_of(alloc, pattern)?;
    let mut paths = Vec::new(alloc);
    for row in first {
        if filter.admits(&row.0) && !second.contains(row) {
            paths.push(row.0.copy()?)?;
        }
    }
    for row in second {
        if filter.admits(&row.0) && !has_path(first, row) {
            paths.push(row.0.copy()?)?;
        }
    }
    paths.sort()?;
    Ok(spaced(alloc, paths.as_slice())?)
}

/// Commits of trees with files and directories in each other's places, of other kinds, and with directories that have no files.
const FAMILY: &str =
    "blob x x;blob y y;tree n;commit nothing n;tree p 100644 a x;commit plain p;tree e 100755 a x;commit exec e;\
    tree t 120000 a x;commit link t;tree o 100644 a y;commit other o;tree d 40000 a p;commit directory d;tree t 40000 a n;commit without t;\
    tree t 100644 a x 40000 b n;commit beside t;tree t 100644 a x 100644 a.b x 100644 a0 x;commit around t;\
    tree t 100644 a.b x 40000 a p 100644 a0 x;commit slash t;tree t 40000 a d 100644 a0 y;commit deep t;tree t 40000 a o 40000 b e;commit two t";

/// The labels of these commits, and of the empty one.
const COMMITS: &[&str] = &[
    "empty",
    "nothing",
    "plain",
    "exec",
    "link",
    "other",
    "directory",
    "without",
    "beside",
    "around",
    "slash",
    "deep",
    "two",
];

/// No pattern, and patterns.
const PATTERNS: &[&str] = &["", "**", "a/**", "*", "**/b", "a/a/a", "none"];

/// Whether two commits differ on just those paths that are found one by one, by each of the patterns.
fn is_right(alloc: Global, objects: &Objects, first: &str, second: &str) -> Result<bool, Fail> {
    let rows = files_of(alloc, objects, first)?;
    let others = files_of(alloc, objects, second)?;
    for pattern in PATTERNS {
        let wanted = plain_diff(alloc, rows.as_slice(), others.as_slice(), pattern)?;
        if told(alloc, objects, pattern, first, second)? != wanted {
            return Ok(false);
        }
    }
    Ok(true)
}

#[test]
fn each_pair_of_a_family(rt: HostRuntime) -> Result<(), Fail> {
    let alloc = rt.alloc();
    let objects = Objects::of(alloc, FAMILY)?;
    for first in COMMITS {
        for second in COMMITS {
            let right = is_right(alloc, &objects, first, second)?;
            assert!(rt; right, "{first} and {second}");
        }
    }
    Ok(())
}

#[test]
fn no_commit(rt: HostRuntime) -> Result<(), Fail> {
    let alloc = rt.alloc();
    let objects = Objects::of(alloc, "blob b x;tree t 100644 f b;commit c t")?;
    for name in &["b", "t", "unknown"] {
        for (first, second) in [("c", *name), (*name, "c"), (*name, *name)] {
            let found = diff(alloc, &objects.store, objects.id(first), objects.id(second));
            assert!(rt;
                found.err() == Some(CommitFault::NoCommit),
                "{first} and {second}"
            );
        }
    }
    Ok(())
}
