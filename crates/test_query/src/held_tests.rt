//! What was held for a request is answered over the objects that came with it, whatever is imported and changed meanwhile.

use crate::calls::{Held, add_held, answered, hold, mounted};
use eden_accumulate::Mount;
use eden_history::{Answer, Change, Mark, Marked, Mode};
use eden_ids::{GitNaming, Id, Kind};
use eden_messages::{Cause, Reply};
use eden_objects::Store;
use eden_query::Raw;
use std::alloc::Global;
use std::test::Fail;
use test_kit::{Objects, path, remove, write};
use test_wire::{Asked, EMPTY, Told, position, reply_of};

/// Two commits; the second one has another file `a`, and a file `d`.
const BEFORE: &str =
    "blob x x;tree t 100644 a x;commit c t;blob y y;tree u 100644 a y 100644 d x;commit e u";

/// A commit that is imported later. It has none of their files.
const LATER: &str = "blob z z;tree v 100644 b z;commit g v";

/// Makes a change, which may not be refused.
fn change(mount: &mut Mount<GitNaming>, change: Change) -> Result<(), Fail> {
    match mount.apply(&change)? {
        Answer::Refused(_) => Err(Fail::new("a change is refused")),
        _ => Ok(()),
    }
}

/// Goes from the first commit to the second, and writes `f` then.
fn go_to(alloc: Global, mount: &mut Mount<GitNaming>, commit: Id) -> Result<(), Fail> {
    let mode = Mode::Normal;
    change(mount, Change::Checkout { commit, mode })?;
    change(mount, write(alloc, "f", "1")?)
}

/// The files of that mount, what changed since it was mounted at the first commit, and a file.
const FILES: Told = Told::Files(&["a", "d", "f"]);

const CHANGES: Told = Told::Changes(&[(Mark::Root, "a"), (Mark::Root, "d"), (Mark::Created, "f")]);

const FILE: Told = Told::File("a", Kind::Plain, "y");

/// What that mount is asked, and what is right.
fn asked(first: Id) -> [(Asked, Told); 3] {
    [
        (Asked::Basis, FILES),
        (Asked::Poll(1, first), CHANGES),
        (Asked::Fetch("a"), FILE),
    ]
}

/// Imports a commit, and goes over to it: nothing is left of what the mount held.
fn go_over(alloc: Global, mount: &mut Mount<GitNaming>, objects: &mut Objects) -> Result<Id, Fail> {
    let more = objects.more(alloc, LATER)?;
    change(mount, Change::Import { objects: more })?;
    let commit = objects.id("g");
    let mode = Mode::Force;
    change(mount, Change::Checkout { commit, mode })?;
    change(mount, remove(alloc, "f")?)?;
    change(mount, Change::Flush)?;
    Ok(commit)
}

/// Returns whether what was held is answered so over a store: at the third number, and over the second commit.
fn is_answered(
    alloc: Global,
    raw: &Raw,
    store: &Store<GitNaming>,
    told: Told,
    second: Id,
) -> Result<bool, Fail> {
    let wanted = reply_of(alloc, 1, position(3, second), told)?;
    Ok(answered(alloc, raw, store)? == wanted)
}

/// Returns whether all that was held is answered so, over the objects that came with it and over those of now, once another commit is
/// imported and gone over to.
fn stays(
    alloc: Global,
    mount: &mut Mount<GitNaming>,
    objects: &mut Objects,
    held: &[Held],
    asked: &[(Asked, Told)],
) -> Result<bool, Fail> {
    let later = go_over(alloc, mount, objects)?;
    let second = objects.id("e");
    let mut right = mount.store().has_commit(later) && held.len() == asked.len();
    for ((raw, store), (_, told)) in held.iter().zip(asked) {
        right = right
            && !store.has_commit(later)
            && is_answered(alloc, raw, store, *told, second)?
            && is_answered(alloc, raw, mount.store(), *told, second)?;
    }
    Ok(right)
}

/// Returns whether what a mount holds for each request, over the second commit, stays.
fn holds(
    alloc: Global,
    mount: &mut Mount<GitNaming>,
    objects: &mut Objects,
    held: &mut Vec<Held>,
) -> Result<bool, Fail> {
    go_to(alloc, mount, objects.id("e"))?;
    let asked = asked(objects.id("c"));
    for (asked, _) in &asked {
        add_held(alloc, mount, *asked, held)?;
    }
    stays(alloc, mount, objects, held.as_slice(), &asked)
}

/// The same, and nothing was held before.
fn holds_all(
    alloc: Global,
    mount: &mut Mount<GitNaming>,
    objects: &mut Objects,
) -> Result<bool, Fail> {
    let mut held = Vec::new(alloc);
    holds(alloc, mount, objects, &mut held)
}

/// The same of a mount of the first commit.
fn mount_holds(alloc: Global, objects: &mut Objects) -> Result<bool, Fail> {
    let mut mount = mounted(alloc, objects)?;
    holds_all(alloc, &mut mount, objects)
}

/// The same of those objects.
fn held_stays(alloc: Global) -> Result<bool, Fail> {
    let mut objects = Objects::of(alloc, BEFORE)?;
    mount_holds(alloc, &mut objects)
}

#[test]
fn what_was_held_stays(rt: HostRuntime) -> Result<(), Fail> {
    assert!(rt; held_stays(rt.alloc())?);
    Ok(())
}

/// The first file's number.
const FIRST: u64 = 1_000;

/// One more than the last file's: more files than the journal's newest runs and three of its blocks
/// hold.
const END: u64 = 1_300;

/// Pays for these files, and not for as many more.
const LIMIT: u64 = 40_000;

/// Writes the files of these numbers.
fn write_files(
    alloc: Global,
    mount: &mut Mount<GitNaming>,
    first: u64,
    end: u64,
) -> Result<(), Fail> {
    for number in first..end {
        let name = format!(in alloc; "f{number}")?;
        change(mount, write(alloc, name.as_str(), "1")?)?;
    }
    Ok(())
}

/// Returns whether these are the first files, each created, in order.
fn are_created(alloc: Global, marked: &[Marked]) -> Result<bool, Fail> {
    let mut right = marked.len() as u64 == END - FIRST;
    for (number, it) in (FIRST..END).zip(marked) {
        let name = format!(in alloc; "f{number}")?;
        right = right && it.mark == Mark::Created && it.path == path(alloc, name.as_str())?;
    }
    Ok(right)
}

/// Returns whether the reply says that the first files were created, and nothing else.
fn creates(alloc: Global, reply: &Reply) -> Result<bool, Fail> {
    match reply {
        Reply::ChangesAre {
            target,
            marked,
            prefixes,
            ..
        } => {
            let all = *target == position(1 + END - FIRST, EMPTY) && prefixes.is_empty();
            Ok(all && are_created(alloc, marked.as_slice())?)
        }
        _ => Ok(false),
    }
}

/// Returns whether the mount refuses a poll since its first position, as the journal has dropped what came after it.
fn has_dropped(alloc: Global, mount: &mut Mount<GitNaming>) -> Result<bool, Fail> {
    match hold(alloc, mount, 2, Asked::Poll(1, EMPTY))?.0 {
        Raw::Refused(_, Cause::Truncated(_)) => Ok(true),
        _ => Ok(false),
    }
}

/// Returns whether what was held is answered the same whatever the journal records, drops and forgets.
fn is_kept(alloc: Global, mount: &mut Mount<GitNaming>, held: &Held) -> Result<bool, Fail> {
    let mut right = creates(alloc, &answered(alloc, &held.0, &held.1)?)?;
    write_files(alloc, mount, END, 2 * END)?;
    right = right && has_dropped(alloc, mount)?;
    right = right && creates(alloc, &answered(alloc, &held.0, &held.1)?)?;
    change(mount, Change::Flush)?;
    right = right && creates(alloc, &answered(alloc, &held.0, &held.1)?)?;
    change(mount, Change::Remount { generation: 8 })?;
    Ok(right && creates(alloc, &answered(alloc, &held.0, &held.1)?)?)
}

/// Holds a poll of the first files, and returns whether it is kept.
fn keeps_a_poll(alloc: Global, mount: &mut Mount<GitNaming>) -> Result<bool, Fail> {
    write_files(alloc, mount, FIRST, END)?;
    let held = hold(alloc, mount, 1, Asked::Poll(1, EMPTY))?;
    is_kept(alloc, mount, &held)
}

/// The same of a mount of the empty commit.
fn poll_stays(alloc: Global) -> Result<bool, Fail> {
    let store = Store::new(alloc, GitNaming);
    let mut mount = Mount::mount(alloc, store, Id::ZERO, 7, LIMIT)?;
    keeps_a_poll(alloc, &mut mount)
}

#[test]
fn poll_that_was_held_stays(rt: HostRuntime) -> Result<(), Fail> {
    assert!(rt; poll_stays(rt.alloc())?);
    Ok(())
}
