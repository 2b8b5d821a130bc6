//! What changed since a position, each path by name, also below renamed directories.

use eden_accumulate::{ChangeFault, Mode, Mount, Position};
use eden_globs::Filter;
use eden_history::Mark;
use eden_ids::{GitNaming, Id, Kind};
use std::alloc::Global;
use std::test::Fail;
use test_kit::{Objects, path};

/// The commits: `c` has d/a and d/b/x, `d` has d/a with other bytes, and e/y.
const COMMITS: &str =
    "blob x x;blob y y;tree b 100644 x x;tree t 100644 a x 40000 b b;tree r 40000 d t;commit c r;\
    tree u 100644 a y;tree v 100644 y y;tree s 40000 d u 40000 e v;commit d s";

/// Changes of a mount of `c`, of which those after `since` are listed, and what is listed: a sign and a path each.
///
/// `+` is Created, `-` Removed, `~` Changed and `=` Root.
const CASES: &[(&str, &str)] = &[
    ("since;renamedir d e", "-d/a -d/b/x +e/a +e/b/x "),
    (
        "write d/n 1;since;renamedir d e",
        "-d/a -d/b/x -d/n +e/a +e/b/x +e/n ",
    ),
    (
        "since;renamedir d e;renamedir e f",
        "-d/a -d/b/x +f/a +f/b/x ",
    ),
    (
        "write e/y 1;since;renamedir d t;renamedir e d;renamedir t e",
        "-d/a -d/b/x +d/y +e/a +e/b/x -e/y ",
    ),
    (
        "since;write d/n 1;renamedir d e",
        "-d/a -d/b/x ~d/n +e/a +e/b/x +e/n ",
    ),
    ("since;renamedir d e;remove e/a", "-d/a -d/b/x ~e/a +e/b/x "),
    ("since;renamedir d e;renamedir e d", "~d/a ~d/b/x "),
    (
        "since;write d/a 1;write d/a 2;renamedir d/b d/c;write n 1",
        "~d/a -d/b/x +d/c/x +n ",
    ),
    (
        "since;renamedir d g;checkout d normal;renamedir g h",
        "-d/a -d/b/x =e/y ~g/a ~g/b/x +h/a +h/b/x ",
    ),
    (
        "remove d/a;since;checkout c force;renamedir d g",
        "~d/a -d/b/x +g/a +g/b/x ",
    ),
    (
        "write d/n 1;since;checkout d normal;renamedir d g",
        "-d/a -d/b/x -d/n =e/y +g/a +g/n ",
    ),
    (
        "since;renamedir d g;reset d;renamedir g h",
        "-d/a -d/b/x =e/y +h/a +h/b/x ",
    ),
    (
        "renamedir d g;since;rename g/a g/b/a;renamedir g/b h",
        "-g/a ~g/b/a -g/b/x +h/a +h/x ",
    ),
];

/// Makes the change of a line. The position after it is the mount's.
fn change(
    alloc: Global,
    mount: &mut Mount<GitNaming>,
    commits: (Id, Id),
    line: &str,
) -> Result<Result<Position, ChangeFault>, Fail> {
    let mut words = line.split(' ');
    let call = words.next().unwrap_or("");
    let first = words.next().unwrap_or("");
    let second = words.next().unwrap_or("");
    let commit = if first == "c" { commits.0 } else { commits.1 };
    let mode = if second == "force" {
        Mode::Force
    } else {
        Mode::Normal
    };
    Ok(match call {
        "checkout" => mount.checkout(commit, mode).map(|checked| checked.position),
        "reset" => mount.reset(commit),
        "write" => mount.write(&path(alloc, first)?, Kind::Plain, second.as_bytes()),
        "remove" => mount.remove(&path(alloc, first)?),
        "rename" => mount.rename(&path(alloc, first)?, &path(alloc, second)?),
        _ => mount.rename_dir(&path(alloc, first)?, &path(alloc, second)?),
    })
}

/// Returns the sign of a mark.
fn sign(mark: Mark) -> u8 {
    match mark {
        Mark::Created => b'+',
        Mark::Removed => b'-',
        Mark::Changed => b'~',
        Mark::Root => b'=',
    }
}

/// Returns what changed since a position, a sign, a path and a space each.
fn named(
    alloc: Global,
    mount: &Mount<GitNaming>,
    since: &Position,
    wanted: &Filter,
) -> Result<Vec<u8>, Fail> {
    let mut text = Vec::new(alloc);
    for one in mount.names_since(since, wanted)?.marked.as_slice() {
        text.push(sign(one.mark))?;
        text.extend_from_slice(one.path.as_bytes())?;
        text.push(b' ')?;
    }
    Ok(text)
}

/// Makes the changes of a case, and returns the mount and the position after which changes are listed.
fn changed(alloc: Global, changes: &str) -> Result<(Mount<GitNaming>, Position), Fail> {
    let objects = Objects::of(alloc, COMMITS)?;
    let commits = (objects.id("c"), objects.id("d"));
    let mut mount = Mount::mount(alloc, objects.store, commits.0, 7, 1_000_000)?;
    let mut since = mount.position();
    for line in changes.split(';') {
        if line == "since" {
            since = mount.position();
        } else if change(alloc, &mut mount, commits, line)?.is_err() {
            return Err(Fail::new("a change is refused"));
        }
    }
    Ok((mount, since))
}

#[test]
fn named_below_directories(rt: HostRuntime) -> Result<(), Fail> {
    let alloc = rt.alloc();
    let all = Filter::all(alloc);
    for (changes, wanted) in CASES {
        let (mount, since) = changed(alloc, changes)?;
        let text = named(alloc, &mount, &since, &all)?;
        assert!(rt; text.as_slice() == wanted.as_bytes(), "{changes}");
    }
    Ok(())
}
