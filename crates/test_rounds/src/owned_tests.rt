//! A mirror that is given a reply does what one does that is lent it.

use crate::wanted::{Said, basis, position, query, refused};
use eden_globs::Filter;
use eden_history::{Mark, Marked};
use eden_ids::{Content, Sequence};
use eden_messages::{Cause, Outcome, Query, Reply};
use eden_mirror::Mirror;
use std::alloc::Global;
use std::test::Fail;
use test_kit::{path, plain};

/// The list of these paths at 7/2, in reply to the first question of mirror 1.
fn list(alloc: Global, names: &[&str]) -> Result<Reply, Fail> {
    basis(alloc, query(1), position(7, 2), names)
}

/// The file at a path at 7/2, or that there is none.
fn content(alloc: Global, query: Query, at: &str, file: Option<Content>) -> Result<Reply, Fail> {
    Ok(Reply::ContentIs {
        query,
        position: position(7, 2),
        path: path(alloc, at)?,
        content: file,
    })
}

/// Begins a round of a mirror, to which these replies come.
fn take(mirror: &mut Mirror, came: &[Reply]) -> Result<(), Fail> {
    mirror.begin()?;
    for reply in came {
        let _ = mirror.deliver(reply)?;
    }
    Ok(())
}

/// The mirror 1 in its first round, to which these replies came.
fn mirror_after(alloc: Global, came: &[Reply]) -> Result<Mirror, Fail> {
    let mut mirror = Mirror::new(alloc, 1, 1, Filter::all(alloc));
    take(&mut mirror, came)?;
    Ok(mirror)
}

/// Both mirrors show the same.
fn are_alike(lent: &Mirror, given: &Mirror, said: &str) -> Result<(), Fail> {
    let paths = lent.files()?;
    let same = given.files()? == paths
        && lent.position() == given.position()
        && lent.outstanding()? == given.outstanding()?
        && paths.iter().all(|path| lent.get(path) == given.get(path));
    if same {
        return Ok(());
    }
    Err(Fail::new(format_args!("{said}: what is held is not the same")))
}

/// A reply that is lent to the one mirror and given to the other, which are alike, has this outcome at both, and leaves them alike.
fn comes_alike(
    alloc: Global,
    lent: &mut Mirror,
    given: &mut Mirror,
    reply: Reply,
    wanted: Outcome,
) -> Result<(), Fail> {
    let said = format!(in alloc; "{reply:?}")?;
    let outcomes = (lent.deliver(&reply)?, given.deliver_owned(reply)?);
    if outcomes != (wanted, wanted) {
        return Err(Fail::new(format_args!("{said}: {outcomes:?}")));
    }
    are_alike(lent, given, said.as_str())
}

/// A reply has this outcome, lent or given, at a mirror and another one to which the same came.
fn given_after(
    alloc: Global,
    lent: &mut Mirror,
    came: &[Reply],
    reply: Reply,
    wanted: Outcome,
) -> Result<(), Fail> {
    let mut given = mirror_after(alloc, came)?;
    comes_alike(alloc, lent, &mut given, reply, wanted)
}

/// A reply that comes after others has this outcome, lent or given.
fn either_way(alloc: Global, came: &[Reply], reply: Reply, wanted: Outcome) -> Result<(), Fail> {
    let mut lent = mirror_after(alloc, came)?;
    given_after(alloc, &mut lent, came, reply, wanted)
}

/// In reply to its second question: that files were moved from or to `d`, and that `p` alone has changed by itself.
fn moved(alloc: Global) -> Result<Reply, Fail> {
    let marked = Marked {
        mark: Mark::Created,
        path: path(alloc, "p")?,
    };
    Ok(Reply::ChangesAre {
        query: query(2),
        target: position(7, 2),
        marked: Sequence::from_vec(vec![in alloc; marked]?),
        prefixes: Sequence::from_vec(vec![in alloc; path(alloc, "d")?]?),
    })
}

/// The mirror after its first round. It has the file `d/a`.
fn placed_mirror(alloc: Global) -> Result<Mirror, Fail> {
    let file = plain(alloc, "x")?;
    let listed = list(alloc, &["d/a"])?;
    let came = [listed, content(alloc, query(1), "d/a", Some(file))?];
    mirror_after(alloc, came.as_slice())
}

/// A second round of a mirror begins, and it is told that.
fn take_moved(alloc: Global, mirror: &mut Mirror) -> Result<(), Fail> {
    let came = [moved(alloc)?];
    take(mirror, came.as_slice())
}

/// That mirror in its second round, which awaits a list of `d` and the content of `p`.
fn told_mirror(alloc: Global) -> Result<Mirror, Fail> {
    let mut mirror = placed_mirror(alloc)?;
    take_moved(alloc, &mut mirror)?;
    Ok(mirror)
}

/// A reply has this outcome, lent or given, at such a mirror and another one.
fn told_given(alloc: Global, lent: &mut Mirror, reply: Reply, wanted: Outcome) -> Result<(), Fail> {
    let mut given = told_mirror(alloc)?;
    comes_alike(alloc, lent, &mut given, reply, wanted)
}

/// A reply that comes to that mirror has this outcome, lent or given.
fn told_either_way(alloc: Global, reply: Reply, wanted: Outcome) -> Result<(), Fail> {
    let mut lent = told_mirror(alloc)?;
    told_given(alloc, &mut lent, reply, wanted)
}

/// What comes to that mirror, and with which outcome.
const COMES: &[(Said, Outcome)] = &[
    (Said::Listed(2, (7, 2), "d", &[]), Outcome::Taken),
    (
        Said::Listed(2, (7, 2), "d", &["d/a", "d/b"]),
        Outcome::Taken,
    ),
    (Said::Listed(2, (7, 2), "e", &["e/a"]), Outcome::Ignored),
    (Said::Content(2, (7, 2), "p", "x"), Outcome::Taken),
    (Said::Content(2, (7, 2), "d", "x"), Outcome::Ignored),
    (Said::Moved(2, (7, 2), &["d"]), Outcome::Ignored),
    (Said::Refused(2, Cause::TooLarge), Outcome::Ended),
];

#[test]
fn given_lists_of_directories(rt: HostRuntime) -> Result<(), Fail> {
    let alloc = rt.alloc();
    for (said, wanted) in COMES {
        told_either_way(alloc, said.reply(alloc)?, *wanted)?;
    }
    Ok(())
}

#[test]
fn given_lists_and_refusals(rt: HostRuntime) -> Result<(), Fail> {
    let alloc = rt.alloc();
    either_way(alloc, &[], list(alloc, &["p", "q"])?, Outcome::Taken)?;
    either_way(alloc, &[], list(alloc, &[])?, Outcome::Placed)?;
    let too_large = refused(query(1), Cause::TooLarge);
    either_way(alloc, &[], too_large, Outcome::Ended)?;
    let stale = refused(query(1), Cause::Stale(8));
    either_way(alloc, &[], stale, Outcome::Unplaced)?;
    let early = content(alloc, query(1), "p", None)?;
    either_way(alloc, &[], early, Outcome::Ignored)
}

/// A reply comes to a mirror that awaits the contents of these paths.
fn behind(alloc: Global, paths: &[&str], reply: Reply, wanted: Outcome) -> Result<(), Fail> {
    let came = [list(alloc, paths)?];
    either_way(alloc, came.as_slice(), reply, wanted)
}

/// What a life of the mirror is told of a path: a plain file with this text, or none.
fn told_content(alloc: Global, life: u64, at: &str, text: Option<&str>) -> Result<Reply, Fail> {
    let file = match text {
        Some(text) => Some(plain(alloc, text)?),
        None => None,
    };
    content(alloc, Query { life, ..query(1) }, at, file)
}

/// The life, the path and the text of a content that comes where that of `p` is awaited in the first life.
const CONTENTS: &[(u64, &str, Option<&str>, Outcome)] = &[
    (1, "p", Some("x"), Outcome::Placed),
    (1, "p", None, Outcome::Placed),
    (1, "r", Some("x"), Outcome::Ignored),
    (2, "p", Some("x"), Outcome::Ignored),
];

#[test]
fn given_contents(rt: HostRuntime) -> Result<(), Fail> {
    let alloc = rt.alloc();
    for (life, at, text, wanted) in CONTENTS {
        let reply = told_content(alloc, *life, at, *text)?;
        behind(alloc, &["p"], reply, *wanted)?;
    }
    behind(alloc, &["p"], list(alloc, &["p"])?, Outcome::Ignored)?;
    let too_large = refused(query(1), Cause::TooLarge);
    behind(alloc, &["p"], too_large, Outcome::Ignored)?;
    let first = told_content(alloc, 1, "q", Some("x"))?;
    behind(alloc, &["p", "q"], first, Outcome::Taken)
}
