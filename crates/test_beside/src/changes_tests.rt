//! Changes of each kind, and of each refusal.

use crate::comparing::{Pair, Step};
use crate::stores::{sharing, two_commits};
use bytes::Bytes;
use eden_accumulate::Mount;
use eden_history::{Change, Mode};
use eden_ids::{GitNaming, Id, Kind};
use std::alloc::Global;
use std::process::Abort;
use std::test::Fail;
use test_kit::{Commits, path};

/// What is done to a file.
#[derive(Clone, Copy)]
enum Act {
    /// It gets this text.
    Write(&'static str),
    /// It goes to this path.
    Rename(&'static str),
    /// What is below it goes to the same place below this path.
    RenameDir(&'static str),
    /// It goes away.
    Remove,
}

/// Returns the change that does so to the file at a path.
fn change_of(alloc: Global, at: &str, act: Act) -> Result<Change, Fail> {
    let old = path(alloc, at)?;
    Ok(match act {
        Act::Write(text) => Change::Write {
            path: old,
            kind: Kind::Plain,
            bytes: Bytes::copy_from_slice(alloc, text.as_bytes())?,
        },
        Act::Rename(new) => Change::Rename {
            old,
            new: path(alloc, new)?,
        },
        Act::RenameDir(new) => Change::RenameDir {
            old,
            new: path(alloc, new)?,
        },
        Act::Remove => Change::Remove { path: old },
    })
}

/// Changes of files of each kind, and of each refusal but that of a file that is too large.
const OF_FILES: &[(&str, Act)] = &[
    ("a", Act::Write("1")),
    ("d/e", Act::Write("2")),
    ("d", Act::Write("3")),
    ("a/z", Act::Write("3")),
    ("a", Act::Rename("a")),
    ("b", Act::Rename("f")),
    ("f", Act::Rename("d/e")),
    ("b", Act::Remove),
    ("d", Act::RenameDir("d/g/h")),
    ("d", Act::RenameDir("g")),
    ("g/e", Act::RenameDir("d")),
    ("g", Act::RenameDir("a")),
    ("g", Act::RenameDir("a/z")),
    ("g", Act::RenameDir("g")),
    ("b", Act::RenameDir("b")),
    ("g", Act::RenameDir("h/i/j")),
    ("h/i", Act::RenameDir("h")),
    ("h/i/j", Act::RenameDir("d")),
    ("d/e", Act::Write("3")),
];

/// Adds changes of the root and of the mount.
///
/// They are of each kind, and of each refusal but that of the last number.
fn add_of_roots(changes: &mut Vec<Change>, commits: &[Id; 2]) -> Result<(), Fail> {
    let checkout = |commit, mode| Change::Checkout { commit, mode };
    let [first, second] = *commits;
    changes.push(checkout(second, Mode::Dry))?;
    changes.push(checkout(second, Mode::Normal))?;
    changes.push(checkout(Id([7; 20]), Mode::Force))?;
    changes.push(Change::Reset { commit: first })?;
    changes.push(Change::Flush)?;
    changes.push(Change::Remount { generation: 7 })?;
    changes.push(Change::Remount { generation: 8 })?;
    changes.push(checkout(second, Mode::Force))?;
    Ok(())
}

/// Adds all of these, and then the removal of a file of the second commit.
fn add_all(alloc: Global, changes: &mut Vec<Change>, commits: &[Id; 2]) -> Result<(), Fail> {
    for (at, act) in OF_FILES {
        changes.push(change_of(alloc, at, *act)?)?;
    }
    add_of_roots(changes, commits)?;
    Ok(changes.push(change_of(alloc, "c", Act::Remove)?)?)
}

/// Returns all of these.
fn changes(alloc: Global, commits: &[Id; 2]) -> Result<Vec<Change>, Fail> {
    let mut changes = Vec::new(alloc);
    add_all(alloc, &mut changes, commits)?;
    Ok(changes)
}

/// Returns the floor and the head of a mount's journal, and how many runs it holds.
fn extent(mount: &Mount<GitNaming>) -> (u64, u64, usize) {
    let journal = mount.journal();
    (journal.floor(), journal.head(), journal.held())
}

/// Makes a change on both, and compares their files.
fn go_on(alloc: Global, pair: &mut Pair, step: &Step) -> Result<(), Fail> {
    let _ = pair.apply(step)?;
    pair.same_files(alloc, step)
}

/// Makes all changes on both, and checks the mount's journal and root after them.
fn go_through(
    rt: &impl Abort,
    alloc: Global,
    pair: &mut Pair,
    commits: &[Id; 2],
) -> Result<(), Fail> {
    for (number, change) in changes(alloc, commits)?.iter().enumerate() {
        let step = Step {
            seed: 0,
            number,
            change,
        };
        go_on(alloc, pair, &step)?;
    }
    assert_eq!(rt; extent(&pair.mount), (1, 3, 2));
    assert_eq!(rt; pair.mount.work().root(), commits[1]);
    Ok(())
}

/// Goes so through changes of a mount and a world of the first commit.
fn go_alike(rt: &impl Abort, alloc: Global, commits: &mut Commits<2>) -> Result<(), Fail> {
    let mut pair = Pair::mounted(alloc, &mut commits.store, commits.ids[0], 1000)?;
    go_through(rt, alloc, &mut pair, &commits.ids)
}

#[test]
fn beside_world(rt: HostRuntime) -> Result<(), Fail> {
    let alloc = rt.alloc();
    let mut commits = two_commits(alloc)?;
    go_alike(&rt, alloc, &mut commits)
}

/// Checks out a commit on both, and compares what changed since each number.
fn go_over(alloc: Global, pair: &mut Pair, commit: Id) -> Result<(), Fail> {
    let change = Change::Checkout {
        commit,
        mode: Mode::Normal,
    };
    let step = Step {
        seed: 0,
        number: 1,
        change: &change,
    };
    let _ = pair.apply(&step)?;
    pair.same_past(alloc, &step)
}

/// Goes so from the first commit to the second.
fn go_to_second(alloc: Global, commits: &mut Commits<2>) -> Result<(), Fail> {
    let mut pair = Pair::mounted(alloc, &mut commits.store, commits.ids[0], 1000)?;
    go_over(alloc, &mut pair, commits.ids[1])
}

// Few files are shared here, so that the plain, slow program can answer too.
#[test]
fn checkout_of_small_subtrees(rt: HostRuntime) -> Result<(), Fail> {
    let alloc = rt.alloc();
    let mut commits = sharing(alloc, 3)?;
    go_to_second(alloc, &mut commits)
}
