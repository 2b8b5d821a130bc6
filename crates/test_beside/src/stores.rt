//! Stores of one commit or two.

use std::alloc::Global;
use std::test::Fail;
use test_kit::{Commits, Objects};

/// The labels of the commits, in each script.
const LABELS: &[&str] = &["first", "second"];

/// Two commits of two files each.
const TWO: &str = "blob x x;blob y y;tree t 100644 a x 100644 b x;commit first t;\
    tree t 100644 a y 100644 c y;commit second t";

/// Makes two commits of two files each, one of which has the same path in both.
pub(crate) fn two_commits(alloc: Global) -> Result<Commits<2>, Fail> {
    let objects = Objects::of(alloc, TWO)?;
    Ok(Commits::labelled(objects, LABELS))
}

/// A commit of three files, and of a directory of two.
const ONE: &str = "blob x x;blob y y;tree d 100644 a x 100755 b y;\
    tree t 100644 a x 100644 b x 40000 d d 100644 e y;commit first t";

/// Makes a commit with a directory.
pub(crate) fn one_commit(alloc: Global) -> Result<Commits<1>, Fail> {
    let objects = Objects::of(alloc, ONE)?;
    Ok(Commits::labelled(objects, LABELS))
}

/// A tree of one file.
const LEAF: &str = "blob x x;blob y y;tree z 100644 a x";

/// Two commits that differ in the file `f`, and share the directory `z`.
const SHARING: &str =
    "tree t 100644 f x 40000 z z;commit first t;tree t 100644 f y 40000 z z;commit second t";

/// Puts so many levels over the leaf, and then the commits.
fn put_sharing(alloc: Global, objects: &mut Objects, levels: u32) -> Result<(), Fail> {
    objects.repeat(alloc, "tree z 40000 a z 40000 b z", levels)?;
    for line in SHARING.split(';') {
        objects.put(alloc, line)?;
    }
    Ok(())
}

/// Makes two commits that differ in the file `f`, and share the directory `z`.
///
/// That is a tree of one file below so many levels, each of which names the level below twice. So each commit has two to the power of the
/// levels files, and one more.
pub(crate) fn sharing(alloc: Global, levels: u32) -> Result<Commits<2>, Fail> {
    let mut objects = Objects::of(alloc, LEAF)?;
    put_sharing(alloc, &mut objects, levels)?;
    Ok(Commits::labelled(objects, LABELS))
}
