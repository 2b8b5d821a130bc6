//! Checkouts by each rule: what they tell, and which files they leave.

use crate::mounted::Mounted;
use eden_checkout::plan;
use eden_history::Mode;
use eden_ids::Id;
use eden_objects::CommitFault;
use std::alloc::Global;
use std::test::Fail;

/// Paths in each other's places.
const PATHS: &[&str] = &[
    "a", "a/b", "b", "c", "d", "e", "k", "m", "m/p", "n", "q", "q/p", "u",
];

/// Two commits, with a file or a directory at each path that a rule decides.
const EACH_RULE: &str =
    "tree t 100644 a x 100644 b x 100644 c x 100644 d x 100644 e x 100644 k x 100644 q x;commit c t;\
    tree u 100644 a y 100644 b x 100644 d y 100644 e y 40000 m r 100644 n y 40000 q r;commit d u";

/// What is changed over the first of these.
const CHANGES: &str = "write b w;write d w;write m w;write u w;write e y;remove k;remove q";

/// A checkout: `c` or `d`, a mode, what is told, and the files.
type Checkout = (&'static str, Mode, &'static str, &'static str);

/// Objects, the commit that is held, what is changed over it, and then checkouts.
type Case = (
    &'static str,
    &'static str,
    &'static str,
    &'static [Checkout],
);

const CASES: &[Case] = &[
    (
        EACH_RULE,
        "c",
        CHANGES,
        &[("d", Mode::Dry, "d m/p | ", "a=x b=w c=x d=w e=y m=w u=w ")],
    ),
    (
        EACH_RULE,
        "c",
        CHANGES,
        &[(
            "d",
            Mode::Normal,
            "d m/p | b d e k m m/p q u ",
            "a=y b=w d=w e=y m=w n=y q/p=y u=w ",
        )],
    ),
    (
        EACH_RULE,
        "c",
        CHANGES,
        &[(
            "d",
            Mode::Force,
            "d m/p | b d e k m q u ",
            "a=y b=x d=y e=y m/p=y n=y q/p=y u=w ",
        )],
    ),
    // A file over a directory.
    (
        "tree t 100644 a x;commit d t",
        "empty",
        "write a/b k",
        &[
            ("d", Mode::Normal, "a | a a/b ", "a/b=k "),
            ("d", Mode::Force, "| a a/b ", "a=x "),
        ],
    ),
    // A removed file of which the commit has another one is a conflict, where no dirty path has a file.
    (
        "tree t 100644 a x 100644 b x 100644 c x;commit c t;tree u 100644 a y 100644 b y 100644 c x 100644 d x;commit d u",
        "c",
        "remove b",
        &[("d", Mode::Normal, "b | b ", "a=y c=x d=x ")],
    ),
];

/// Returns the first checkout, from 0, that reports or leaves what its row does not say, after changes of which some are refused.
fn first_wrong(
    alloc: Global,
    made: &mut Mounted,
    changes: &str,
    checkouts: &[Checkout],
) -> Result<Option<usize>, Fail> {
    for change in changes.split(';') {
        let _ = made.change(alloc, change)?;
    }
    for (place, (label, mode, told, files)) in checkouts.iter().enumerate() {
        let text = made.checkout(alloc, label, *mode)?;
        let shown = made.shown(alloc, PATHS)?;
        if text.as_slice() != told.as_bytes() || shown.as_slice() != files.as_bytes() {
            return Ok(Some(place));
        }
    }
    Ok(None)
}

/// Returns the first checkout of a case that is wrong, from 0. Its objects lie over a tree `r` of a file `p` below N levels of two directories.
fn first_wrong_of(alloc: Global, levels: usize, case: &Case) -> Result<Option<usize>, Fail> {
    let (script, root, changes, checkouts) = case;
    let trees = "tree r 40000 r r 40000 s r;".repeat(alloc, levels)?;
    let lines = format!(in alloc; "blob x x;blob y y;tree r 100644 p y;{trees}{script}")?;
    let mut made = Mounted::over(alloc, lines.as_str(), root)?;
    first_wrong(alloc, &mut made, changes, checkouts)
}

#[test]
fn each_rule(rt: HostRuntime) -> Result<(), Fail> {
    for (place, case) in CASES.iter().enumerate() {
        assert_eq!(rt; first_wrong_of(rt.alloc(), 0, case)?, None, "case {place}");
    }
    Ok(())
}

/// Two commits of two to the fortieth files each, of which none but those that differ are read.
#[test]
fn wide_commits(rt: HostRuntime) -> Result<(), Fail> {
    let case: Case = (
        "tree t 100644 a y 100644 b x 40000 z r;commit d t;tree t 100644 a x 100644 b x 40000 z r;commit c t",
        "c",
        "write u w;write b w",
        &[
            ("d", Mode::Normal, "| b u ", "a=y b=w u=w "),
            ("c", Mode::Force, "| b u ", "a=x b=x u=w "),
        ],
    );
    assert_eq!(rt; first_wrong_of(rt.alloc(), 40, &case)?, None);
    Ok(())
}

/// Returns whether a commit that the store does not have is refused in each mode.
fn refuses_a_stranger(alloc: Global, made: &Mounted) -> bool {
    for mode in [Mode::Normal, Mode::Dry, Mode::Force] {
        let refused = plan(alloc, &made.store, &made.work, Id([1; 20]), mode).err();
        if refused != Some(CommitFault::NoCommit) {
            return false;
        }
    }
    true
}

#[test]
fn no_commit(rt: HostRuntime) -> Result<(), Fail> {
    let alloc = rt.alloc();
    let made = Mounted::over(alloc, "blob x x;tree t 100644 a x;commit c t", "c")?;
    assert!(rt; refuses_a_stranger(alloc, &made));
    Ok(())
}
