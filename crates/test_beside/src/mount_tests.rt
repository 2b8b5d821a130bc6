//! What a mount alone answers.

use crate::comparing::{listed, mounted};
use crate::stores::{sharing, two_commits};
use bytes::Bytes;
use eden_accumulate::{ChangeFault, Mode, Mount, Range, expand};
use eden_history::{Answer, Change, Mark, Marked, Position, SinceFault};
use eden_ids::{GitNaming, Id, Kind, Path, Sequence};
use eden_journal::Journal;
use eden_objects::{Object, ObjectType, Store};
use eden_workcopy::WorkCopy;
use std::alloc::Global;
use std::process::Abort;
use std::test::Fail;
use test_kit::{Commits, path, spaced};

/// Mounts a commit at the last number, at which its journal begins.
fn last(alloc: Global, store: &mut Store<GitNaming>, root: Id) -> Result<Mount<GitNaming>, Fail> {
    let store = store.share()?;
    let work = WorkCopy::new(alloc, &store, root)?;
    let journal = Journal::starting_at(alloc, 7, root, 1000, u64::MAX);
    Ok(Mount::from_parts(store, work, journal))
}

/// Returns a file that no commit has, to be imported.
fn file(alloc: Global) -> Result<Vec<Object>, Fail> {
    let mut objects = Vec::new(alloc);
    let payload = Bytes::copy_from_slice(alloc, b"z".as_slice())?;
    let object_type = ObjectType::Blob;
    objects.push(Object {
        object_type,
        payload,
    })?;
    Ok(objects)
}

/// One call of a mount.
#[derive(Clone, Copy)]
enum Act {
    Write(&'static str),
    Remove(&'static str),
    Rename(&'static str, &'static str),
    RenameDir(&'static str, &'static str),
    /// To a commit that is given, as the next one.
    Reset,
    Checkout(Mode),
    Flush,
    /// Of a file that no commit has.
    Import,
    Remount(u64),
}

/// Makes a call that changes files. Returns the position, or why it is refused.
fn change_file(
    alloc: Global,
    mount: &mut Mount<GitNaming>,
    act: Act,
) -> Result<Result<Position, ChangeFault>, Fail> {
    Ok(match act {
        Act::Write(at) => mount.write(&path(alloc, at)?, Kind::Plain, b"1".as_slice()),
        Act::Remove(at) => mount.remove(&path(alloc, at)?),
        Act::Rename(old, new) => mount.rename(&path(alloc, old)?, &path(alloc, new)?),
        Act::RenameDir(old, new) => mount.rename_dir(&path(alloc, old)?, &path(alloc, new)?),
        _ => return Err(Fail::new("no change of a file")),
    })
}

/// Checks out a commit. Returns the position, or why that is refused.
fn check_out(
    mount: &mut Mount<GitNaming>,
    commit: Id,
    mode: Mode,
) -> Result<Position, ChangeFault> {
    match mount.checkout(commit, mode) {
        Ok(_) => Ok(mount.position()),
        Err(fault) => Err(fault),
    }
}

/// Makes a call. Returns the position, or why it is refused.
fn make(
    alloc: Global,
    mount: &mut Mount<GitNaming>,
    act: Act,
    commit: Id,
) -> Result<Result<Position, ChangeFault>, Fail> {
    Ok(match act {
        Act::Reset => mount.reset(commit),
        Act::Checkout(mode) => check_out(mount, commit, mode),
        Act::Flush => mount.flush(),
        Act::Import => mount.import(file(alloc)?.as_slice()),
        Act::Remount(generation) => mount.remount(generation),
        _ => return change_file(alloc, mount, act),
    })
}

/// Returns whether a mount at the last number has no file and no change since.
///
/// What changed since the fifth number is truncated.
fn tells_nothing(alloc: Global, mount: &Mount<GitNaming>) -> Result<bool, Fail> {
    let mut place = mount.position();
    let none = mount.changes_since(&place)?.marked.is_empty();
    place.sequence = 5;
    let fault = mount.changes_since(&place).err();
    let files = listed(alloc, mount)?;
    Ok(none && files.is_empty() && fault == Some(SinceFault::Truncated(u64::MAX)))
}

/// Returns whether a mount reads no file at a path.
fn has_none(alloc: Global, mount: &Mount<GitNaming>, at: &str) -> Result<bool, Fail> {
    Ok(mount.read(&path(alloc, at)?) == Err(ChangeFault::NoEntry))
}

/// Checks that a mount of no file, at the last number, refuses a write and stays as it was.
fn refuses_write(rt: &impl Abort, alloc: Global, mount: &mut Mount<GitNaming>) -> Result<(), Fail> {
    let answer = make(alloc, mount, Act::Write("a"), Id::ZERO)?;
    assert!(rt; answer == Err(ChangeFault::SequenceExhausted));
    assert!(rt; has_none(alloc, mount, "a")?);
    assert!(rt; mount.position().sequence == u64::MAX);
    assert!(rt; tells_nothing(alloc, mount)?);
    Ok(())
}

/// Checks so a mount of the empty commit.
fn refuses_at_last(
    rt: &impl Abort,
    alloc: Global,
    store: &mut Store<GitNaming>,
) -> Result<(), Fail> {
    let mut mount = last(alloc, store, Id::ZERO)?;
    refuses_write(rt, alloc, &mut mount)
}

#[test]
fn sequence_exhausted(rt: HostRuntime) -> Result<(), Fail> {
    let alloc = rt.alloc();
    let mut commits = two_commits(alloc)?;
    refuses_at_last(&rt, alloc, &mut commits.store)
}

/// Why a call is refused that takes a number, if nothing else is wrong and none is left.
const EXHAUSTED: Option<ChangeFault> = Some(ChangeFault::SequenceExhausted);

/// Calls at the last number, and why they are refused; none if they are made. What is wrong with a path is named first. An import takes no
/// number.
const AT_LAST: &[(Act, Option<ChangeFault>)] = &[
    (Act::Write("f"), EXHAUSTED),
    (Act::Remove("f"), EXHAUSTED),
    (Act::Rename("f", "n"), EXHAUSTED),
    (Act::Rename("f", "f"), None),
    (Act::RenameDir("z", "n"), EXHAUSTED),
    (Act::RenameDir("z", "z"), None),
    (Act::RenameDir("f", "n"), Some(ChangeFault::NotADirectory)),
    (Act::RenameDir("n", "n"), Some(ChangeFault::NoEntry)),
    (Act::RenameDir("z", "z/n"), Some(ChangeFault::IntoItself)),
    (Act::RenameDir("z", "f"), Some(ChangeFault::NotADirectory)),
    (Act::RenameDir("z/a", "z"), Some(ChangeFault::IsADirectory)),
    (Act::Reset, EXHAUSTED),
    (Act::Checkout(Mode::Force), EXHAUSTED),
    (Act::Checkout(Mode::Dry), None),
    (Act::Flush, EXHAUSTED),
    (Act::Import, None),
];

/// Returns whether a call is refused so, or made, and leaves the position.
fn stays(
    alloc: Global,
    mount: &mut Mount<GitNaming>,
    act: Act,
    commit: Id,
    fault: Option<ChangeFault>,
) -> Result<bool, Fail> {
    let now = mount.position();
    let wanted = match fault {
        Some(fault) => Err(fault),
        None => Ok(now),
    };
    let answer = make(alloc, mount, act, commit)?;
    Ok(answer == wanted && mount.position() == now)
}

/// Checks each call at the last number, and that the next generation begins at 1.
fn stays_at_last(
    rt: &impl Abort,
    alloc: Global,
    mount: &mut Mount<GitNaming>,
    commits: &[Id; 2],
) -> Result<(), Fail> {
    let [first, second] = *commits;
    for (act, fault) in AT_LAST {
        assert!(rt; stays(alloc, mount, *act, second, *fault)?);
    }
    assert!(rt; holds(alloc, mount, "f", (Kind::Plain, b"x".as_slice()))?);
    let opening = Position {
        generation: 8,
        sequence: 1,
        root: first,
    };
    assert!(rt; make(alloc, mount, Act::Remount(8), second)? == Ok(opening));
    Ok(())
}

/// Checks so a mount of the first commit.
fn first_stays_at_last(
    rt: &impl Abort,
    alloc: Global,
    commits: &mut Commits<2>,
) -> Result<(), Fail> {
    let mut mount = last(alloc, &mut commits.store, commits.ids[0])?;
    stays_at_last(rt, alloc, &mut mount, &commits.ids)
}

#[test]
fn sequence_exhausted_over_files(rt: HostRuntime) -> Result<(), Fail> {
    let alloc = rt.alloc();
    let mut commits = sharing(alloc, 1)?;
    first_stays_at_last(&rt, alloc, &mut commits)
}

/// Returns whether a store has that file, by the id from `git hash-object`.
fn has_file(store: &Store<GitNaming>) -> bool {
    match Id::from_hex(b"fa7af8bf5fdd704f73beb3adc5612682a98e1af5".as_slice()) {
        Ok(file) => store.blob(file) == Some(b"z".as_slice()),
        Err(_) => false,
    }
}

/// Returns whether a file of this kind and text is at a path.
fn holds(
    alloc: Global,
    mount: &Mount<GitNaming>,
    at: &str,
    file: (Kind, &[u8]),
) -> Result<bool, Fail> {
    Ok(mount.read(&path(alloc, at)?)? == file)
}

/// Writes a file whose bytes are shared, and imports another one.
fn write_and_import(alloc: Global, mount: &mut Mount<GitNaming>) -> Result<(), Fail> {
    let bytes = Bytes::from_static(b"1".as_slice());
    mount.write_shared(&path(alloc, "a")?, Kind::Exec, &bytes)?;
    mount.import(file(alloc)?.as_slice())?;
    Ok(())
}

/// Returns whether a mount alone has a change that its copy from before lacks.
fn are_parted(
    alloc: Global,
    before: &Mount<GitNaming>,
    mount: &Mount<GitNaming>,
) -> Result<bool, Fail> {
    let written = holds(alloc, mount, "a", (Kind::Exec, b"1".as_slice()))?;
    let kept = holds(alloc, before, "a", (Kind::Plain, b"x".as_slice()))?;
    let numbers = (before.position().sequence, mount.position().sequence);
    Ok(written && kept && numbers == (1, 2))
}

/// Changes a mount, and checks that its copy and the store stay as they were.
fn part(
    rt: &impl Abort,
    alloc: Global,
    store: &Store<GitNaming>,
    before: &Mount<GitNaming>,
    mount: &mut Mount<GitNaming>,
) -> Result<(), Fail> {
    write_and_import(alloc, mount)?;
    assert!(rt; has_file(mount.store()) && !has_file(before.store()) && !has_file(store));
    assert!(rt; are_parted(alloc, before, mount)?);
    Ok(())
}

/// Checks so with a copy that is made now.
fn part_from_copy(
    rt: &impl Abort,
    alloc: Global,
    store: &Store<GitNaming>,
    mount: &mut Mount<GitNaming>,
) -> Result<(), Fail> {
    let before = mount.copy()?;
    part(rt, alloc, store, &before, mount)
}

/// Checks so with a mount of a commit.
fn part_from_store(
    rt: &impl Abort,
    alloc: Global,
    store: &mut Store<GitNaming>,
    root: Id,
) -> Result<(), Fail> {
    let mut mount = mounted(alloc, store, root, 1000)?;
    part_from_copy(rt, alloc, store, &mut mount)
}

#[test]
fn copies_part(rt: HostRuntime) -> Result<(), Fail> {
    let alloc = rt.alloc();
    let mut commits = two_commits(alloc)?;
    let root = commits.ids[0];
    part_from_store(&rt, alloc, &mut commits.store, root)
}

/// Writes a file and removes another one, and checks what a snapshot lists.
fn lists_changed(rt: &impl Abort, alloc: Global, mount: &mut Mount<GitNaming>) -> Result<(), Fail> {
    mount.write(&path(alloc, "d/e")?, Kind::Link, b"1".as_slice())?;
    mount.remove(&path(alloc, "a")?)?;
    let text = spaced(alloc, listed(alloc, mount)?.as_slice())?;
    assert!(rt; text.as_slice() == b"b d/e ".as_slice());
    assert!(rt; mount.snapshot()?.position() == mount.position());
    Ok(())
}

/// Checks so a mount of a commit.
fn mount_lists_changed(
    rt: &impl Abort,
    alloc: Global,
    store: &mut Store<GitNaming>,
    root: Id,
) -> Result<(), Fail> {
    let mut mount = mounted(alloc, store, root, 1000)?;
    lists_changed(rt, alloc, &mut mount)
}

#[test]
fn snapshot_lists(rt: HostRuntime) -> Result<(), Fail> {
    let alloc = rt.alloc();
    let mut commits = two_commits(alloc)?;
    let root = commits.ids[0];
    mount_lists_changed(&rt, alloc, &mut commits.store, root)
}

/// Returns the checkout that goes over to a commit.
fn checkout_of(commit: Id) -> Change {
    Change::Checkout {
        commit,
        mode: Mode::Normal,
    }
}

/// Returns what it is answered if it is made without a conflict.
fn made(alloc: Global, commit: Id) -> Answer {
    Answer::Checked {
        position: Position {
            generation: 7,
            sequence: 2,
            root: commit,
        },
        conflicts: Sequence::new(alloc),
    }
}

/// Returns whether a range is of this path alone, which the root named.
///
/// No file was changed, and no path is unclean.
fn is_of_one(
    alloc: Global,
    store: &Store<GitNaming>,
    range: &Range,
    path: Path,
) -> Result<bool, Fail> {
    let mark = Mark::Root;
    let named = [Marked { mark, path }];
    let marked = expand(alloc, store, range)?;
    Ok(
        range.changes.as_slice().is_empty()
            && range.unclean.as_slice().is_empty()
            && marked.as_slice() == named.as_slice(),
    )
}

/// Returns whether `f` alone changed since a position.
fn names_one(alloc: Global, mount: &Mount<GitNaming>, since: &Position) -> Result<bool, Fail> {
    let path = path(alloc, "f")?;
    let range = mount.range_since(since)?;
    is_of_one(alloc, mount.store(), &range, path)
}

/// Checks out a commit, and returns whether that was without a conflict.
fn goes_over(alloc: Global, mount: &mut Mount<GitNaming>, commit: Id) -> Result<bool, Fail> {
    let change = checkout_of(commit);
    let answer = mount.apply(&change)?;
    Ok(answer == made(alloc, commit))
}

/// Checks out the second commit, and checks what changed.
fn changes_one(
    rt: &impl Abort,
    alloc: Global,
    mount: &mut Mount<GitNaming>,
    second: Id,
) -> Result<(), Fail> {
    let since = mount.position();
    assert!(rt; goes_over(alloc, mount, second)?);
    assert!(rt; names_one(alloc, mount, &since)?);
    assert!(rt; holds(alloc, mount, "f", (Kind::Plain, b"y".as_slice()))?);
    Ok(())
}

/// Checks so a mount of the first commit.
fn mount_changes_one(rt: &impl Abort, alloc: Global, commits: &mut Commits<2>) -> Result<(), Fail> {
    let mut mount = mounted(alloc, &mut commits.store, commits.ids[0], 1000)?;
    changes_one(rt, alloc, &mut mount, commits.ids[1])
}

// Of the two to the fortieth files that the commits share none is read or listed, or the test would not end.
#[test]
fn checkout_of_shared_subtrees(rt: HostRuntime) -> Result<(), Fail> {
    let alloc = rt.alloc();
    let mut commits = sharing(alloc, 40)?;
    mount_changes_one(&rt, alloc, &mut commits)
}
