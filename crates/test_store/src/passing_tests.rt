//! Files of a commit of which some are passed over, and that are told as though their directory stood at another place: whether there is
//! one, and lists.

ghost use Rattle.std.specs.Prelude.{◌≡◌};
ghost use Rattle.eden_ids.specs.Paths.{lies_below};

use crate::lookup_tests::{FILES, levels};
use eden_globs::Filter;
use eden_ids::{GitNaming, Id, NoMemory, Path};
use eden_objects::{Commit, Nothing, Passes, Size, Store};
use std::alloc::Global;
use std::process::Abort;
use std::test::Fail;
use test_kit::{Objects, path, spaced};

/// Whether a path stands below a directory.
#[tactic(auto, using(std::proofs::lemmas::List::take_rest, eden_ids::proofs::BelowLemmas::below_in_steps))]
fn is_below(path: &[u8], top: &[u8]) -> bool
    ensures { result ≡ lies_below path.now top.now }
{
    path.starts_with(top) && path[top.len()..].starts_with(b"/".as_slice())
}

/// What is passed over: the file at a path, or all below it.
#[derive(Clone, Copy)]
struct At {
    path: &'static [u8],
}

impl Passes for At {
    ghost use Rattle.std.specs.Prelude.{◌||◌};
    ghost use Rattle.eden_ids.specs.Paths.{lies_below};
    ghost use Rattle.eden_ids.specs.Sameness.{same_bytes};

    ghost passes = { λ at path. same_bytes path at.path.now || lies_below path at.path.now };

    fn passes_file(&self, path: &[u8]) -> bool {
        path == self.path || is_below(path, self.path)
    }

    fn passes_below(&self, front: &[u8], _size: Size) -> bool {
        is_below(front, self.path)
    }
}

/// Whether a commit has a file below a path, told below another, that isn't at or below a third.
fn has_but(
    alloc: Global,
    store: &Store<GitNaming>,
    commit: Id,
    [top, seen, passed]: [&'static str; 3],
) -> Result<bool, Fail> {
    let seen = path(alloc, seen)?;
    let passed = At {
        path: passed.as_bytes(),
    };
    Ok(
        store
            .commit_files(commit)
            .has_below_but(top.as_bytes(), &seen, &passed),
    )
}

/// A directory, where it is told, what is passed over, and whether there is a file below it that isn't.
type Searched = ([&'static str; 3], bool);

const SEARCHED: &[Searched] = &[
    (["a", "a", "z"], true),
    (["a", "a", "a"], false),
    (["a", "a", "a/x"], false),
    (["a", "z", "a"], true),
    (["a", "z", "z"], false),
    (["a", "z", "z/x"], false),
    (["d", "z/y", "z/y/e"], false),
    (["d", "z/y", "z/y/e/f"], false),
    (["d", "z/y", "z/y/e/g"], true),
    (["d", "z/y", "z"], false),
    (["d/e", "d", "d/e"], true),
    (["d/e", "d", "d/f"], false),
    (["a-b", "a-b", "z"], false),
    (["x", "x", "z"], false),
];

/// The same of many directories with a file each, and of as many without one.
const OF_MANY: &[Searched] = &[(["b", "z", "z"], false), (["b", "z", "z/a"], true)];

const OF_NONE: &[Searched] = &[(["b", "z", "y"], false)];

/// The row of the first search of the commit `c` that is told otherwise.
fn first_wrong(alloc: Global, objects: &Objects, rows: &[Searched]) -> Result<Option<usize>, Fail> {
    let commit = objects.id("c");
    for (row, (places, is_there)) in rows.iter().enumerate() {
        if has_but(alloc, &objects.store, commit, *places)? != *is_there {
            return Ok(Some(row));
        }
    }
    Ok(None)
}

/// The same of a commit of forty levels over this one.
fn first_wrong_level(
    alloc: Global,
    lowest: &str,
    rows: &[Searched],
) -> Result<Option<usize>, Fail> {
    let objects = levels(alloc, lowest)?;
    first_wrong(alloc, &objects, rows)
}

// Of 2 to the 40 files none is looked at where all are passed over, and few where most are not; nor are as many directories without a file.
#[test]
fn a_file_that_is_not_passed_over(rt: HostRuntime) -> Result<(), Fail> {
    let alloc = rt.alloc();
    assert_eq!(rt;
        first_wrong_level(alloc, "tree t 100644 a x", OF_MANY)?,
        None
    );
    assert_eq!(rt; first_wrong_level(alloc, "tree t", OF_NONE)?, None);
    let files = Objects::of(alloc, FILES)?;
    assert_eq!(rt; first_wrong(alloc, &files, SEARCHED)?, None);
    Ok(())
}

/// A directory, its new path, a pattern, and the new path of the file that the pattern admits.
const LISTED: &[([&str; 3], Option<&str>)] = &[
    (["a", "a", "**"], Some("a/x")),
    (["a", "z", "**"], Some("z/x")),
    (["a", "z", "z/*"], Some("z/x")),
    (["a", "z", "a/*"], None),
    (["d", "z/y", "**"], Some("z/y/e/f")),
    (["d", "z/y", "z/*/e/?"], Some("z/y/e/f")),
    (["d/e", "d", "**"], Some("d/f")),
    (["d/e", "d", "d/e/*"], None),
    (["a-b", "z", "**"], None),
];

/// A pattern, a path that is passed over with all below it, and the paths that are listed.
const SHOWN: &[(&str, &str, &str)] = &[
    ("**", "z", "a-b a/x a0 d/e/f "),
    ("**", "a", "a-b a0 d/e/f "),
    ("**", "d/e/f", "a-b a/x a0 "),
    ("a*", "a0", "a-b "),
];

/// All is passed over but the file at one path.
#[derive(Drop)]
struct Only {
    path: Path,
}

impl Passes for Only {
    ghost use Rattle.std.specs.Prelude.{not};
    ghost use Rattle.eden_ids.specs.Sameness.{same_bytes};

    ghost passes = { λ only path. not (same_bytes path only.path) };

    fn passes_file(&self, path: &[u8]) -> bool {
        path != self.path.as_bytes()
    }

    fn passes_below(&self, _front: &[u8], _size: Size) -> bool {
        false
    }
}

/// Returns one path, if a filter admits it and a file has it once a directory is at another path.
fn listed_only(
    commit: &Commit<'_, GitNaming>,
    top: &str,
    seen: &Path,
    filter: &Filter,
    path: Path,
) -> Result<Vec<Path>, NoMemory> {
    let _legal = path.as_bytes();
    commit.list_seen(top.as_bytes(), seen, filter, &Only { path })
}

/// Returns whether a list has one path alone if a file has it, and is empty if not.
fn is_listed(listed: &[Path], file: Option<&str>, only: &str) -> bool {
    match file {
        Some(path) if path == only => {
            listed.len() == 1 && listed[0].as_bytes() == path.as_bytes()
        }
        _ => listed.is_empty(),
    }
}

/// Returns whether each path, if all others are passed over, is listed only where the table says so.
fn lists_alone(
    alloc: Global,
    commit: &Commit<'_, GitNaming>,
    [top, seen, pattern]: [&'static str; 3],
    file: Option<&str>,
) -> Result<bool, Fail> {
    let filter = Filter::parse(alloc, &[pattern.as_bytes()])?;
    let seen = path(alloc, seen)?;
    for only in ["z/x", "a/x", "d/f", "z/y/e/f"] {
        let listed = listed_only(commit, top, &seen, &filter, path(alloc, only)?)?;
        if !is_listed(listed.as_slice(), file, only) {
            return Ok(false);
        }
    }
    Ok(true)
}

/// Returns what a pattern admits of a commit and is neither at a path nor below it.
fn listed_but(
    alloc: Global,
    commit: &Commit<'_, GitNaming>,
    pattern: &str,
    passed: &'static str,
) -> Result<Vec<u8>, Fail> {
    let filter = Filter::parse(alloc, &[pattern.as_bytes()])?;
    let passed = At {
        path: passed.as_bytes(),
    };
    Ok(spaced(alloc, &commit.list(&filter, &passed)?)?)
}

/// Checks each row of both tables, and that all files are listed where nothing is passed over.
fn check_lists(rt: &impl Abort, alloc: Global, objects: &Objects) -> Result<(), Fail> {
    let commit = objects.store.commit_files(objects.id("c"));
    for (places, file) in LISTED {
        assert!(rt;
            lists_alone(alloc, &commit, *places, *file)?,
            "{} below {}",
            places[0],
            places[1]
        );
    }
    for (pattern, passed, paths) in SHOWN {
        let listed = listed_but(alloc, &commit, pattern, passed)?;
        assert!(rt;
            listed.as_slice() == paths.as_bytes(),
            "{pattern} but {passed}"
        );
    }
    let whole = commit.list(&Filter::all(alloc), &Nothing)?;
    assert!(rt; whole.len() == 4);
    Ok(())
}

#[test]
fn a_list_that_passes_over_some(rt: HostRuntime) -> Result<(), Fail> {
    let objects = Objects::of(rt.alloc(), FILES)?;
    check_lists(&rt, rt.alloc(), &objects)
}
