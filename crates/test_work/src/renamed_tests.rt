//! A working copy over a commit of which directories were renamed: what it holds, what differs from the commit, other commits below it, and
//! what is taken back.

use crate::mounted::Mounted;
use crate::steps::{Step, first_wrong_over};
use eden_history::{ChangeFault, Mode};
use std::alloc::Global;
use std::test::Fail;

/// The commit `c` with the files `a`, `d.x`, `d/e/y`, `d/x` and `g/x`, and the commit `d` with `a` and `d/x`.
const COMMITS: &str =
    "blob 1 1;blob 2 2;blob 3 3;blob 4 4;blob 5 5;blob 9 9;tree e 100644 y 3;tree u 40000 e e 100644 x 2;tree g 100644 x 5;\
    tree t 100644 a 1 100644 d.x 4 40000 d u 40000 g g;commit c t;tree u 100644 x 9;tree t 100644 a 9 40000 d u;commit d t";

/// Renames over the commit `c`, and changes between them.
const RENAMES: &[Step<'static>] = &[
    (
        "renamedir d b",
        None,
        "a=1 b/e/y=3 b/x=2 d.x=4 g/x=5 ",
        "b/e/y b/x d/e/y d/x ",
    ),
    // Nothing stands at the old path, and the files do at the new one.
    (
        "renamedir d e",
        Some(ChangeFault::NoEntry),
        "a=1 b/e/y=3 b/x=2 d.x=4 g/x=5 ",
        "b/e/y b/x d/e/y d/x ",
    ),
    (
        "renamedir b g",
        Some(ChangeFault::IsADirectory),
        "a=1 b/e/y=3 b/x=2 d.x=4 g/x=5 ",
        "b/e/y b/x d/e/y d/x ",
    ),
    (
        "write b/x/z 6",
        Some(ChangeFault::NotADirectory),
        "a=1 b/e/y=3 b/x=2 d.x=4 g/x=5 ",
        "b/e/y b/x d/e/y d/x ",
    ),
    (
        "write d 6",
        None,
        "a=1 b/e/y=3 b/x=2 d=6 d.x=4 g/x=5 ",
        "b/e/y b/x d d/e/y d/x ",
    ),
    (
        "revert d/x",
        Some(ChangeFault::NotADirectory),
        "a=1 b/e/y=3 b/x=2 d=6 d.x=4 g/x=5 ",
        "b/e/y b/x d d/e/y d/x ",
    ),
    (
        "remove d",
        None,
        "a=1 b/e/y=3 b/x=2 d.x=4 g/x=5 ",
        "b/e/y b/x d/e/y d/x ",
    ),
    // Again, and into another directory of the commit,
    (
        "renamedir b h",
        None,
        "a=1 d.x=4 g/x=5 h/e/y=3 h/x=2 ",
        "d/e/y d/x h/e/y h/x ",
    ),
    (
        "renamedir h g/d",
        None,
        "a=1 d.x=4 g/d/e/y=3 g/d/x=2 g/x=5 ",
        "d/e/y d/x g/d/e/y g/d/x ",
    ),
    // with which it goes on.
    (
        "renamedir g f",
        None,
        "a=1 d.x=4 f/d/e/y=3 f/d/x=2 f/x=5 ",
        "d/e/y d/x f/d/e/y f/d/x f/x g/x ",
    ),
    (
        "renamedir f/d/e f/e",
        None,
        "a=1 d.x=4 f/d/x=2 f/e/y=3 f/x=5 ",
        "d/e/y d/x f/d/x f/e/y f/x g/x ",
    ),
    (
        "renamedir f/e f/d/e",
        None,
        "a=1 d.x=4 f/d/e/y=3 f/d/x=2 f/x=5 ",
        "d/e/y d/x f/d/e/y f/d/x f/x g/x ",
    ),
    // What was changed below it goes on with it, also back to where it stood.
    (
        "write f/d/x 7",
        None,
        "a=1 d.x=4 f/d/e/y=3 f/d/x=7 f/x=5 ",
        "d/e/y d/x f/d/e/y f/d/x f/x g/x ",
    ),
    (
        "remove f/d/e/y",
        None,
        "a=1 d.x=4 f/d/x=7 f/x=5 ",
        "d/e/y d/x f/d/x f/x g/x ",
    ),
    (
        "renamedir f/d d",
        None,
        "a=1 d.x=4 d/x=7 f/x=5 ",
        "d/e/y d/x f/x g/x ",
    ),
    // To what the commit has at the very path.
    (
        "revert d/x",
        None,
        "a=1 d.x=4 d/x=2 f/x=5 ",
        "d/e/y f/x g/x ",
    ),
    ("revert f/x", None, "a=1 d.x=4 d/x=2 ", "d/e/y g/x "),
    // Onto a directory of the commit that was emptied, and below one.
    ("renamedir d g", None, "a=1 d.x=4 g/x=2 ", "d/e/y d/x g/x "),
    ("revert d/e/y", None, "a=1 d.x=4 d/e/y=3 g/x=2 ", "d/x g/x "),
    (
        "renamedir g d/e/z",
        None,
        "a=1 d.x=4 d/e/y=3 d/e/z/x=2 ",
        "d/e/z/x d/x g/x ",
    ),
    (
        "renamedir d/e d",
        Some(ChangeFault::IsADirectory),
        "a=1 d.x=4 d/e/y=3 d/e/z/x=2 ",
        "d/e/z/x d/x g/x ",
    ),
    (
        "revert g/x",
        None,
        "a=1 d.x=4 d/e/y=3 d/e/z/x=2 g/x=5 ",
        "d/e/z/x d/x ",
    ),
    (
        "rename d/e/z/x d/x",
        None,
        "a=1 d.x=4 d/e/y=3 d/x=2 g/x=5 ",
        "",
    ),
];

#[test]
fn renamed_directories_keep_their_files(rt: HostRuntime) -> Result<(), Fail> {
    assert_eq!(rt;
        first_wrong_over(rt.alloc(), COMMITS, "c", "", RENAMES)?,
        None
    );
    Ok(())
}

/// The same files are held over the commit `d`, and then over the commit `c` again.
const REROOTS: &[Step<'static>] = &[
    (
        "renamedir d b",
        None,
        "a=1 b/e/y=3 b/x=2 d.x=4 g/x=5 ",
        "b/e/y b/x d/e/y d/x ",
    ),
    (
        "reroot d",
        None,
        "a=1 b/e/y=3 b/x=2 d.x=4 g/x=5 ",
        "a b/e/y b/x d.x d/x g/x ",
    ),
    (
        "renamedir none b",
        Some(ChangeFault::NoEntry),
        "a=1 b/e/y=3 b/x=2 d.x=4 g/x=5 ",
        "a b/e/y b/x d.x d/x g/x ",
    ),
    (
        "revert d/x",
        None,
        "a=1 b/e/y=3 b/x=2 d.x=4 d/x=9 g/x=5 ",
        "a b/e/y b/x d.x g/x ",
    ),
    (
        "renamedir d f",
        None,
        "a=1 b/e/y=3 b/x=2 d.x=4 f/x=9 g/x=5 ",
        "a b/e/y b/x d.x d/x f/x g/x ",
    ),
    (
        "reroot c",
        None,
        "a=1 b/e/y=3 b/x=2 d.x=4 f/x=9 g/x=5 ",
        "b/e/y b/x d/e/y d/x f/x ",
    ),
    (
        "revert none",
        None,
        "a=1 b/e/y=3 b/x=2 d.x=4 f/x=9 g/x=5 ",
        "b/e/y b/x d/e/y d/x f/x ",
    ),
    (
        "renamedir b d",
        None,
        "a=1 d.x=4 d/e/y=3 d/x=2 f/x=9 g/x=5 ",
        "f/x ",
    ),
];

#[test]
fn another_commit_below_renamed_directories(rt: HostRuntime) -> Result<(), Fail> {
    assert_eq!(rt;
        first_wrong_over(rt.alloc(), COMMITS, "c", "", REROOTS)?,
        None
    );
    Ok(())
}

/// A mode, what a checkout tells, and the files that it leaves.
type Checkout = (Mode, &'static str, &'static str);

/// What a checkout of the commit `d` tells in each mode where `d` was renamed to `b` over the commit `c`, and the files that it leaves.
const CHECKOUTS: &[Checkout] = &[
    (Mode::Dry, "d/x | ", "a=1 b/e/y=3 b/x=2 d.x=4 g/x=5 "),
    (
        Mode::Normal,
        "d/x | b/e/y b/x d/e/y d/x ",
        "a=9 b/e/y=3 b/x=2 ",
    ),
    (
        Mode::Force,
        "d/x | b/e/y b/x d/e/y d/x ",
        "a=9 b/e/y=3 b/x=2 d/x=9 ",
    ),
];

/// Returns whether a checkout of the commit `d`, once a directory is renamed, reports and leaves what it should.
fn is_checked_out(alloc: Global, mounted: &mut Mounted, checkout: &Checkout) -> Result<bool, Fail> {
    let (mode, told, files) = checkout;
    if mounted.change(alloc, "renamedir d b")?.is_some() {
        return Ok(false);
    }
    let text = mounted.checkout(alloc, "d", *mode)?;
    let held = mounted.held(alloc)?;
    Ok(text.as_slice() == told.as_bytes() && held.as_slice() == files.as_bytes())
}

/// The same over the commit `c`.
fn is_checked_out_over(alloc: Global, checkout: &Checkout) -> Result<bool, Fail> {
    let mut mounted = Mounted::over(alloc, COMMITS, "c")?;
    is_checked_out(alloc, &mut mounted, checkout)
}

#[test]
fn checkouts_over_renamed_directories(rt: HostRuntime) -> Result<(), Fail> {
    for checkout in CHECKOUTS {
        assert!(rt;
            is_checked_out_over(rt.alloc(), checkout)?,
            "{}",
            checkout.2
        );
    }
    Ok(())
}

/// Renames over a commit with `d/x` and one more file below `d`, whose path has 62 names of 64 at the most: the star stands for 60 directories.
const DEEP: &[Step<'static>] = &[
    (
        "renamedir d e/f/g",
        None,
        "e/f/g/*p=1 e/f/g/x=1 ",
        "d/*p d/x e/f/g/*p e/f/g/x ",
    ),
    (
        "renamedir e/f/g h/i/j/k",
        Some(ChangeFault::PathTooLong),
        "e/f/g/*p=1 e/f/g/x=1 ",
        "d/*p d/x e/f/g/*p e/f/g/x ",
    ),
    // A file that is not seen any more is in nobody's way.
    ("remove e/f/g/*p", None, "e/f/g/x=1 ", "d/*p d/x e/f/g/x "),
    (
        "renamedir e/f/g h/i/j/k",
        None,
        "h/i/j/k/x=1 ",
        "d/*p d/x h/i/j/k/x ",
    ),
    ("renamedir h/i/j/k d", None, "d/x=1 ", "d/*p "),
    ("revert d/*p", None, "d/*p=1 d/x=1 ", ""),
];

/// Renames over a commit with `d/x` and one more file below `d`, whose path has 1,023 bytes of 1,024 at the most: the star stands for 4 directories.
const LONG: &[Step<'static>] = &[
    (
        "renamedir d bc",
        None,
        "bc/*p=1 bc/x=1 ",
        "bc/*p bc/x d/*p d/x ",
    ),
    (
        "renamedir bc efg",
        Some(ChangeFault::PathTooLong),
        "bc/*p=1 bc/x=1 ",
        "bc/*p bc/x d/*p d/x ",
    ),
    ("remove bc/*p", None, "bc/x=1 ", "bc/x d/*p d/x "),
    ("renamedir bc efg", None, "efg/x=1 ", "d/*p d/x efg/x "),
    ("renamedir efg d", None, "d/x=1 ", "d/*p "),
];

/// Returns the first change that goes otherwise than its step says over a commit with `d/x` and a file `p` below N directories in `d`, each
/// of the same name and in the one before it. A star stands for the names of those directories.
fn first_wrong_below(
    alloc: Global,
    name: &str,
    directories: usize,
    steps: &[Step<'static>],
) -> Result<Option<&'static str>, Fail> {
    let tree = format!(in alloc; "tree r 40000 {name} r;")?;
    let trees = tree.repeat(alloc, directories.saturating_sub(1))?;
    let lines = format!(in alloc;
        "blob 1 1;tree r 100644 p 1;{trees}tree d 40000 {name} r 100644 x 1;tree t 40000 d d;commit c t"
    )?;
    let names = format!(in alloc; "{name}/")?.repeat(alloc, directories)?;
    first_wrong_over(alloc, lines.as_str(), "c", names.as_str(), steps)
}

#[test]
fn renamed_directories_with_deep_paths(rt: HostRuntime) -> Result<(), Fail> {
    assert_eq!(rt; first_wrong_below(rt.alloc(), "n", 60, DEEP)?, None);
    Ok(())
}

#[test]
fn renamed_directories_with_long_paths(rt: HostRuntime) -> Result<(), Fail> {
    let name = "n".repeat(rt.alloc(), 254)?;
    assert_eq!(rt;
        first_wrong_below(rt.alloc(), name.as_str(), 4, LONG)?,
        None
    );
    Ok(())
}
