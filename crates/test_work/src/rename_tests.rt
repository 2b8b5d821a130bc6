//! Renames of directories over a commit, and where its files are seen then.

use crate::mounted::{push_file, seen};
use eden_ids::Path;
use eden_overlay::{CarryFault, carried_path};
use eden_renames::{Renamed, Renames};
use std::alloc::Global;
use std::test::Fail;
use test_kit::{Objects, filter_of, path, spaced};

/// A directory that is renamed, to which path, what is answered, and then the files that are seen, each with what it holds, and the
/// unsettled paths.
type Step = (
    &'static str,
    &'static str,
    Option<CarryFault>,
    &'static str,
    &'static str,
);

/// Where a file is seen at some step, in byte order; and `d-x`, `dd` and `d`, where none ever is.
const PLACES: &[&str] = &[
    "a", "b/e/y", "b/x", "c/e/y", "c/x", "c/y", "d", "d-x", "d.x", "d/e/y", "d/x", "d/y", "dd",
    "f/x", "f/y", "f/z/x", "g/e/y", "g/x",
];

/// A path of 64 components, as many as a path may have.
const DEEP: &str =
    "1/2/3/4/5/6/7/8/9/0/1/2/3/4/5/6/7/8/9/0/1/2/3/4/5/6/7/8/9/0/1/2/3/4/5/6/7/8/9/0/1/2/3/4/5/6/7/8/9/0/1/2/3/4/5/6/7/8/9/0/1/2/3/4";

/// Renames over a commit with the files `a`, `d.x`, `d/e/y` and `d/x`.
const RENAMES: &[Step] = &[
    // What only begins with the same bytes stays.
    (
        "d",
        "b",
        None,
        "a=1 b/e/y=3 b/x=2 d.x=4 ",
        "b/e/y b/x d/e/y d/x ",
    ),
    // A directory of a renamed one, away from it,
    (
        "b/e",
        "f",
        None,
        "a=1 b/x=2 d.x=4 f/y=3 ",
        "b/x d/e/y d/x f/y ",
    ),
    // stays away where that is renamed again,
    (
        "b",
        "c",
        None,
        "a=1 c/x=2 d.x=4 f/y=3 ",
        "c/x d/e/y d/x f/y ",
    ),
    // and comes back where it is put.
    (
        "f",
        "c/e",
        None,
        "a=1 c/e/y=3 c/x=2 d.x=4 ",
        "c/e/y c/x d/e/y d/x ",
    ),
    (
        "c",
        "g",
        None,
        "a=1 d.x=4 g/e/y=3 g/x=2 ",
        "d/e/y d/x g/e/y g/x ",
    ),
    (
        "g",
        "c",
        None,
        "a=1 c/e/y=3 c/x=2 d.x=4 ",
        "c/e/y c/x d/e/y d/x ",
    ),
    // At the old place of a renamed directory another one is seen.
    (
        "c/e",
        "d",
        None,
        "a=1 c/x=2 d.x=4 d/y=3 ",
        "c/x d/e/y d/x d/y ",
    ),
    // What stood at the new path is forgotten.
    ("c", "d", None, "a=1 d.x=4 d/x=2 ", "d/e/y d/x "),
    ("d", "d", None, "a=1 d.x=4 d/x=2 ", "d/e/y d/x "),
    // Of `d/e` it is said that nothing is seen there, and below the deepest path nothing can be said.
    (
        "d",
        DEEP,
        Some(CarryFault::PathTooLong),
        "a=1 d.x=4 d/x=2 ",
        "d/e/y d/x ",
    ),
    ("d", "f", None, "a=1 d.x=4 f/x=2 ", "d/e/y d/x f/x "),
    // A directory goes below itself.
    ("f", "f/z", None, "a=1 d.x=4 f/z/x=2 ", "d/e/y d/x f/z/x "),
    ("none", "f", None, "a=1 d.x=4 ", "d/e/y d/x "),
];

/// A commit `c` with the files `a`, `d.x`, `d/e/y` and `d/x`.
const COMMIT: &str =
    "blob 1 1;blob 2 2;blob 3 3;blob 4 4;tree e 100644 y 3;tree d 40000 e e 100644 x 2;\
    tree t 100644 a 1 100644 d.x 4 40000 d d;commit c t";

/// The files of that commit before any rename.
const UNMOVED: &str = "a=1 d.x=4 d/e/y=3 d/x=2 ";

/// Of a text the words with a slash.
fn deep(alloc: Global, text: &[u8]) -> Result<Vec<u8>, Fail> {
    let mut kept = Vec::new(alloc);
    for word in text.split(|byte| *byte == b' ') {
        if word.contains(&b'/') {
            kept.extend_from_slice(word)?;
            kept.push(b' ')?;
        }
    }
    Ok(kept)
}

/// The objects of that commit, and directories of it that are renamed.
#[derive(Drop)]
struct RenamedObjects {
    objects: Objects,
    renames: Renames,
}

impl RenamedObjects {
    fn new(alloc: Global) -> Result<RenamedObjects, Fail> {
        let objects = Objects::of(alloc, COMMIT)?;
        let renames = Renames::new(alloc);
        Ok(RenamedObjects { objects, renames })
    }

    /// Renames a directory. Returns why it is not renamed.
    fn rename(&mut self, alloc: Global, old: &str, new: &str) -> Result<Option<CarryFault>, Fail> {
        let (old, new) = (path(alloc, old)?, path(alloc, new)?);
        Ok(self.renames.rename(&old, &new).err())
    }

    /// Returns the files that are seen at the places.
    fn seen(&self, alloc: Global) -> Result<Vec<u8>, Fail> {
        let commit = self.objects.store.commit_files(self.objects.id("c"));
        let renamed = Renamed::of(commit, &self.renames);
        let mut text = Vec::new(alloc);
        for place in PLACES {
            let place = place.as_bytes();
            push_file(place, seen(renamed.file(place)), &mut text)?;
        }
        Ok(text)
    }

    /// Returns the listed files that a pattern admits: all of them, or those below a directory.
    fn listed(&self, alloc: Global, top: &str, pattern: &str) -> Result<Vec<u8>, Fail> {
        let commit = self.objects.store.commit_files(self.objects.id("c"));
        let renamed = Renamed::of(commit, &self.renames);
        let filter = filter_of(alloc, pattern)?;
        let list = if top.is_empty() {
            renamed.list(alloc, &filter)?
        } else {
            renamed.list_below(alloc, &path(alloc, top)?, &filter)?
        };
        let mut text = Vec::new(alloc);
        for place in &list {
            let place = place.as_bytes();
            push_file(place, seen(renamed.file(place)), &mut text)?;
        }
        Ok(text)
    }

    /// Returns whether these files are seen, listed, and listed below directories.
    fn shows(&self, alloc: Global, files: &str) -> Result<bool, Fail> {
        let mut below = Vec::new(alloc);
        for top in ["b", "c", "d", "f", "g"] {
            below.extend_from_slice(self.listed(alloc, top, "")?.as_slice())?;
        }
        Ok(
            self.seen(alloc)?.as_slice() == files.as_bytes()
                && self.listed(alloc, "", "")?.as_slice() == files.as_bytes()
                && below.as_slice() == deep(alloc, files.as_bytes())?.as_slice(),
        )
    }
}

/// Returns the files of the first step whose rename is not answered, or does not leave them, as it says.
fn first_wrong(alloc: Global, renamed: &mut RenamedObjects) -> Result<Option<&'static str>, Fail> {
    if !renamed.shows(alloc, UNMOVED)? {
        return Ok(Some(UNMOVED));
    }
    for (old, new, answer, files, unsettled) in RENAMES {
        let answered = renamed.rename(alloc, old, new)?;
        let id = renamed.objects.id("c");
        let commit = renamed.objects.store.commit_files(id);
        let paths = spaced(alloc, &renamed.renames.unsettled(&commit)?)?;
        let alike = answered == *answer && paths.as_slice() == unsettled.as_bytes();
        if !alike || !renamed.shows(alloc, files)? {
            return Ok(Some(*files));
        }
    }
    Ok(None)
}

#[test]
fn a_commit_is_seen_through_renamed_directories(rt: HostRuntime) -> Result<(), Fail> {
    let mut renamed = RenamedObjects::new(rt.alloc())?;
    assert_eq!(rt; first_wrong(rt.alloc(), &mut renamed)?, None);
    Ok(())
}

/// A directory, a pattern, and the files below it that the pattern admits.
type Below = (&'static str, &'static str, &'static str);

/// A directory that is renamed, to which path, and what is seen below directories then.
const BELOW: &[(&str, &str, &[Below])] = &[
    (
        "d",
        "b",
        &[
            ("b", "**", "b/e/y=3 b/x=2 "),
            ("b", "b/*", "b/x=2 "),
            ("b/e", "**", "b/e/y=3 "),
            ("b/x", "**", ""),
            ("d", "**", ""),
        ],
    ),
    (
        "b/e",
        "f",
        &[
            ("b", "**", "b/x=2 "),
            ("b/e", "**", ""),
            ("d/e", "**", ""),
            ("f", "**", "f/y=3 "),
            ("f", "*/x", ""),
            ("none", "**", ""),
        ],
    ),
    (
        "f",
        "b/e/g",
        &[
            ("b", "**", "b/e/g/y=3 b/x=2 "),
            ("b", "**/y", "b/e/g/y=3 "),
            ("b/e", "**", "b/e/g/y=3 "),
            ("f", "**", ""),
        ],
    ),
];

/// Returns the first directory, after each rename of the table, below which other files are listed.
fn first_other_below(
    alloc: Global,
    renamed: &mut RenamedObjects,
) -> Result<Option<&'static str>, Fail> {
    for (old, new, cases) in BELOW {
        if renamed.rename(alloc, old, new)?.is_some() {
            return Ok(Some(*old));
        }
        for (top, pattern, wanted) in *cases {
            if renamed.listed(alloc, top, pattern)?.as_slice() != wanted.as_bytes() {
                return Ok(Some(*top));
            }
        }
    }
    Ok(None)
}

#[test]
fn files_below_a_renamed_directory(rt: HostRuntime) -> Result<(), Fail> {
    let mut renamed = RenamedObjects::new(rt.alloc())?;
    assert_eq!(rt; first_other_below(rt.alloc(), &mut renamed)?, None);
    Ok(())
}

/// Returns whether `d`, renamed to a path of 63 names, is listed there without what is at no path.
fn lists_only_paths(alloc: Global, renamed: &mut RenamedObjects) -> Result<bool, Fail> {
    let above = DEEP.strip_suffix("/4").unwrap_or("");
    if renamed.rename(alloc, "d", above)?.is_some() {
        return Ok(false);
    }
    let below = format!(in alloc; "{above}/x=2 ")?;
    let all = format!(in alloc; "{above}/x=2 a=1 d.x=4 ")?;
    Ok(
        renamed.listed(alloc, "", "")?.as_slice() == all.as_bytes()
            && renamed.listed(alloc, above, "")?.as_slice() == below.as_bytes(),
    )
}

// Below a path of 63 names `x` stands at a path, and `e/y` at none: it is not listed.
#[test]
fn what_is_no_path_is_not_listed(rt: HostRuntime) -> Result<(), Fail> {
    let mut renamed = RenamedObjects::new(rt.alloc())?;
    assert!(rt; lists_only_paths(rt.alloc(), &mut renamed)?);
    Ok(())
}

/// The directories of which something is said, each with the commit's directory that is seen there, if one is.
fn said(alloc: Global, renames: &Renames) -> Result<Vec<u8>, Fail> {
    let mut text = Vec::new(alloc);
    for (dir, source) in renames.entries() {
        text.extend_from_slice(dir.as_bytes())?;
        text.push(b'=')?;
        if let Some(source) = source {
            text.extend_from_slice(source.as_bytes())?;
        }
        text.push(b' ')?;
    }
    Ok(text)
}

/// Directories, each with the commit's directory that is seen there, after `d` was renamed to `b`, and then `b/e` to `f`.
const SOURCES: &[(&str, Option<&str>)] = &[
    ("a", Some("a")),
    ("b", Some("d")),
    ("b/e", None),
    ("b/e/q", None),
    ("b/q", Some("d/q")),
    ("d", None),
    ("d/x", None),
    ("f", Some("d/e")),
    ("f/q", Some("d/e/q")),
];

/// The first directory at which another one is seen.
fn first_other_source(alloc: Global, renames: &Renames) -> Result<Option<&'static str>, Fail> {
    for (dir, wanted) in SOURCES {
        let source = renames.source_dir(&path(alloc, dir)?)?;
        let alike = match (&source, wanted) {
            (Some(source), Some(wanted)) => source.as_bytes() == wanted.as_bytes(),
            (None, None) => true,
            _ => false,
        };
        if !alike {
            return Ok(Some(*dir));
        }
    }
    Ok(None)
}

/// Returns whether a rename that is begun is undone and done, after `d` was renamed to `b`.
fn is_undone_and_done(alloc: Global, renames: &mut Renames) -> Result<bool, Fail> {
    renames.rename(&path(alloc, "d")?, &path(alloc, "b")?)?;
    let (old, new) = (path(alloc, "b/e")?, path(alloc, "f")?);
    let begun = renames.begin_rename(&old, &new)?;
    let is_taken = renames.is_empty();
    *renames = begun.undone();
    if !is_taken || said(alloc, renames)?.as_slice() != b"b=d d= ".as_slice() {
        return Ok(false);
    }
    *renames = renames.begin_rename(&old, &new)?.done();
    Ok(said(alloc, renames)?.as_slice() == b"b=d b/e= d= f=d/e ".as_slice())
}

/// Returns whether directories are seen after that, a rename is refused, and a copy says the same.
fn is_copied(alloc: Global, renames: &mut Renames) -> Result<bool, Fail> {
    if first_other_source(alloc, renames)?.is_some() {
        return Ok(false);
    }
    let refused = renames.begin_rename(&path(alloc, "b")?, &path(alloc, DEEP)?);
    if refused.err() != Some(CarryFault::PathTooLong) {
        return Ok(false);
    }
    let copy = renames.copy()?;
    Ok(said(alloc, &copy)?.as_slice() == b"b=d b/e= d= f=d/e ".as_slice())
}

#[test]
fn a_begun_rename_is_done_or_undone(rt: HostRuntime) -> Result<(), Fail> {
    let mut renames = Renames::new(rt.alloc());
    assert!(rt;
        is_undone_and_done(rt.alloc(), &mut renames)? && is_copied(rt.alloc(), &mut renames)?
    );
    Ok(())
}

/// A path, a directory above it, what that is renamed to, and the path's new place, if that is a path.
const CARRIED: &[(&str, &str, &str, Option<&str>)] = &[
    ("d/x", "d", "b", Some("b/x")),
    ("d/e/y", "d/e", "f", Some("f/y")),
    ("a/b/c", "a/b", "a/b/d", Some("a/b/d/c")),
    ("d/x", "d", DEEP, None),
];

/// Whether a path below a directory is carried to this place with it, or refused where that is none.
fn is_carried_to(alloc: Global, from: &Path, old: &Path, new: &Path, wanted: Option<&str>) -> bool {
    if !from.is_below(old) {
        return false;
    }
    match (carried_path(alloc, from, old, new), wanted) {
        (Ok(place), Some(wanted)) => place.as_bytes() == wanted.as_bytes(),
        (answer, wanted) => wanted.is_none() && answer.err() == Some(CarryFault::PathTooLong),
    }
}

#[test]
fn a_path_is_carried_with_its_directory(rt: HostRuntime) -> Result<(), Fail> {
    let alloc = rt.alloc();
    for (from, old, new, wanted) in CARRIED {
        let (from, old, new) = (path(alloc, from)?, path(alloc, old)?, path(alloc, new)?);
        assert!(rt; is_carried_to(alloc, &from, &old, &new, *wanted));
    }
    Ok(())
}
