//! Lists of what stands below directories of a commit that are renamed, held between the renames and answered after them.

use crate::calls::{Held, add_held, answered, mounted};
use eden_accumulate::Mount;
use eden_ids::GitNaming;
use eden_messages::Reply;
use std::alloc::Global;
use std::test::Fail;
use test_kit::{Objects, path, spaced};
use test_wire::Asked;

/// A commit with the files `a`, `d/e/y` and `d/x`.
const COMMIT: &str =
    "blob x x;tree e 100644 y x;tree d 40000 e e 100644 x x;tree t 100644 a x 40000 d d;commit c t";

/// A directory that is renamed, to which path, and then a directory and the paths below it.
type Rename = (&'static str, &'static str, &'static str, &'static str);

const RENAMES: &[Rename] = &[
    ("d", "b", "b", "b/e/y b/x "),
    ("b/e", "d", "b", "b/x "),
    ("b", "d/e", "d", "d/e/x d/y "),
    ("d", "b", "b/e", "b/e/x "),
    ("b", "f", "b", ""),
];

/// Renames each directory, and adds what is held for a list of what is below a directory then.
fn rename_all(
    alloc: Global,
    mount: &mut Mount<GitNaming>,
    held: &mut Vec<Held>,
) -> Result<(), Fail> {
    for (old, new, top, _) in RENAMES {
        let (old, new) = (path(alloc, old)?, path(alloc, new)?);
        let _ = mount.rename_dir(&old, &new)?;
        add_held(alloc, mount, Asked::List(top), held)?;
    }
    Ok(())
}

/// Returns the paths of a list that was held, each with a space after it.
fn listed(alloc: Global, held: &Held) -> Result<Vec<u8>, Fail> {
    match answered(alloc, &held.0, &held.1)? {
        Reply::ListIs { paths, .. } => Ok(spaced(alloc, paths.as_slice())?),
        _ => Err(Fail::new("it is not answered by a list")),
    }
}

/// Returns the paths of the first list that is not so when it is answered after all renames.
fn first_wrong(
    alloc: Global,
    mount: &mut Mount<GitNaming>,
    held: &mut Vec<Held>,
) -> Result<Option<&'static str>, Fail> {
    rename_all(alloc, mount, held)?;
    for (held, (_, _, _, wanted)) in held.iter().zip(RENAMES) {
        if listed(alloc, held)?.as_slice() != wanted.as_bytes() {
            return Ok(Some(*wanted));
        }
    }
    Ok(if held.len() == RENAMES.len() {
        None
    } else {
        Some("one for each")
    })
}

/// The same, and nothing was held before.
fn first_wrong_of(
    alloc: Global,
    mount: &mut Mount<GitNaming>,
) -> Result<Option<&'static str>, Fail> {
    let mut held = Vec::new(alloc);
    first_wrong(alloc, mount, &mut held)
}

/// The same of a mount of that commit.
fn first_wrong_list(alloc: Global, objects: &mut Objects) -> Result<Option<&'static str>, Fail> {
    let mut mount = mounted(alloc, objects)?;
    first_wrong_of(alloc, &mut mount)
}

/// The same of that commit's own objects.
fn wrong_list(alloc: Global) -> Result<Option<&'static str>, Fail> {
    let mut objects = Objects::of(alloc, COMMIT)?;
    first_wrong_list(alloc, &mut objects)
}

#[test]
fn lists_below_renamed_directories(rt: HostRuntime) -> Result<(), Fail> {
    assert_eq!(rt; wrong_list(rt.alloc())?, None);
    Ok(())
}
