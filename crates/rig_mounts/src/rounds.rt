//! How long a mirror takes for a round, by the number of its paths and the order of their contents.
//!
//! A mirror begins its first round, and takes the list of all paths and then the content of each.
//! Each round ends placed.

use crate::measuring::{ORDERS, QUERY, now, since};
use anyhow::Result;
use eden_globs::Filter;
use eden_history::Position;
use eden_ids::{Content, Id, Kind, NoMemory, Path, Sequence};
use eden_messages::{Outcome, Reply};
use eden_mirror::Mirror;
use rig_kit::{Order, each};
use std::alloc::Global;
use std::time::Duration;

/// How often each round is measured.
///
/// The least time counts, since other work on the machine makes it longer and never shorter.
const TRIES: usize = 5;

/// The position of the list and of each content.
const PLACE: Position = Position {
    generation: 1,
    sequence: 1,
    root: Id::ZERO,
};

/// Returns so many paths, ascending.
fn paths(alloc: Global, count: usize) -> Result<Vec<Path>> {
    let mut paths = Vec::new(alloc);
    for number in 0..count {
        let text = format!(in alloc; "directory/file{number:06}")?;
        paths.push(Path::parse(alloc, text.as_bytes())?)?;
    }
    Ok(paths)
}

/// Returns the reply with the content of a path.
fn content_at(path: &Path, content: &Content) -> Result<Reply, NoMemory> {
    Ok(Reply::ContentIs {
        query: QUERY,
        position: PLACE,
        path: path.copy()?,
        content: Some(content.copy()?),
    })
}

/// Returns the replies with the content of each path, as they come.
fn contents(alloc: Global, paths: &[Path], order: Order) -> Result<Vec<Reply>, NoMemory> {
    let content = Content::from_bytes(alloc, Kind::Plain, b"text".as_slice())?;
    let mut replies = Vec::new(alloc);
    let count = paths.len() as u64;
    for turn in 0..count {
        if let Some(path) = paths.get(order.number(turn, count) as usize) {
            replies.push(content_at(path, &content)?)?;
        }
    }
    Ok(replies)
}

/// Gives the replies to the mirror, and returns the outcome of the last one.
///
/// A client that decoded them gives them so.
fn deliver_all(mirror: &mut Mirror, replies: Vec<Reply>) -> Result<Outcome, NoMemory> {
    let mut last = Outcome::Ignored;
    for reply in replies {
        last = mirror.deliver_owned(reply)?;
    }
    Ok(last)
}

/// Returns how a round ends, and what time it takes.
fn one_round(rt: &HostRuntime, list: &Reply, replies: Vec<Reply>) -> Result<(Outcome, Duration)> {
    let mut mirror = Mirror::new(rt.alloc(), 1, 1, Filter::all(rt.alloc()));
    mirror.begin()?;
    let start = now(rt)?;
    let _ = mirror.deliver(list)?;
    let outcome = deliver_all(&mut mirror, replies)?;
    Ok((outcome, since(rt, start)?))
}

/// Returns how rounds end, and the least time that one takes.
fn least(
    rt: &HostRuntime,
    list: &Reply,
    paths: &[Path],
    order: Order,
) -> Result<(Outcome, Duration)> {
    let mut least = Duration::MAX;
    let mut last = Outcome::Ignored;
    for _ in 0..TRIES {
        let replies = contents(rt.alloc(), paths, order)?;
        let (outcome, time) = one_round(rt, list, replies)?;
        least = least.min(time);
        last = outcome;
    }
    Ok((last, least))
}

/// Measures rounds of so many paths whose contents come in this order.
fn measure(rt: &HostRuntime, count: usize, order: Order) -> Result<()> {
    let paths = paths(rt.alloc(), count)?;
    let list = Reply::BasisIs {
        query: QUERY,
        position: PLACE,
        paths: Sequence::from_vec(paths.clone()?),
    };
    let (outcome, time) = least(rt, &list, paths.as_slice(), order)?;
    println!(rt; "{count} paths {}: {outcome:?}", order.name())?;
    eprintln!(rt;
        "{count} paths {}: {} ns a path",
        order.name(),
        each(time, count as u64)
    )?;
    Ok(())
}

/// Measures rounds of three numbers of paths, in three orders each.
pub fn measure_rounds(rt: &HostRuntime) -> Result<()> {
    for count in [1_000, 10_000, 100_000] {
        for order in ORDERS {
            measure(rt, count, *order)?;
        }
    }
    Ok(())
}
