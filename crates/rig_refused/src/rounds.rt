//! Rounds of a mirror that overlap, lose replies and meet a remount.

use crate::mounted::{apply, empty_mount};
use crate::refusals::{Refusals, again, keep};
use crate::told::text_of;
use anyhow::{Context, Result, bail};
use bytes::Bytes;
use eden_accumulate::Mount;
use eden_globs::Filter;
use eden_history::Change;
use eden_ids::{GitNaming, Kind, NoMemory, Path};
use eden_messages::{Outcome, Reply, Request};
use eden_mirror::Mirror;
use eden_query::reply_to;
use std::alloc::Global;

/// What happens to a mount and a mirror.
#[derive(Clone, Copy)]
pub(crate) enum Step {
    /// A plain file with this text is written.
    Write(&'static str, &'static str),
    /// The mount goes over to another generation.
    Remount(u64),
    /// The mirror begins a round.
    Begin,
    /// All that is outstanding is asked, and the replies are kept behind those that are kept already.
    Ask,
    /// The kept reply at this place, from 0, comes.
    Comes(usize),
    /// The mirror tells where it is, and what it holds.
    Show,
}

/// The row `overlapping_rounds`.
pub(crate) const OVERLAPPING: &[Step] = &[
    Step::Begin,
    Step::Ask,
    Step::Comes(0),
    Step::Write("p", "x"),
    Step::Begin,
    Step::Ask,
    Step::Comes(1),
    Step::Show,
    Step::Ask,
    Step::Write("p", "y"),
    Step::Begin,
    Step::Ask,
    Step::Comes(3),
    Step::Comes(2),
    Step::Show,
    Step::Ask,
    Step::Comes(4),
];

/// The row `lost_and_repeated_fetch`: the reply to the first question is lost, and it is asked twice again.
pub(crate) const REPEATED: &[Step] = &[
    Step::Begin,
    Step::Ask,
    Step::Comes(0),
    Step::Write("p", "x"),
    Step::Begin,
    Step::Ask,
    Step::Comes(1),
    Step::Ask,
    Step::Ask,
    Step::Ask,
    Step::Comes(3),
    Step::Comes(4),
];

/// The row `remount_in_a_round`.
pub(crate) const REMOUNTED: &[Step] = &[
    Step::Begin,
    Step::Ask,
    Step::Comes(0),
    Step::Write("p", "x"),
    Step::Begin,
    Step::Ask,
    Step::Comes(1),
    Step::Remount(8),
    Step::Write("q", "z"),
    Step::Ask,
    Step::Comes(2),
    Step::Show,
    Step::Begin,
    Step::Ask,
    Step::Comes(3),
    Step::Show,
    Step::Begin,
    Step::Ask,
    Step::Comes(4),
    Step::Ask,
    Step::Comes(5),
    Step::Comes(6),
];

/// A mirror, the mount that it asks, and the replies that are kept.
#[derive(Drop)]
struct Pair {
    alloc: Global,
    refusals: Refusals,
    mount: Mount<GitNaming>,
    mirror: Mirror,
    replies: Vec<Reply>,
}

/// The change of a step, or none.
fn change_of(alloc: Global, step: Step) -> Result<Option<Change>> {
    Ok(match step {
        Step::Write(at, text) => Some(Change::Write {
            path: Path::parse(alloc, at.as_bytes())?,
            kind: Kind::Plain,
            bytes: Bytes::copy_from_slice(alloc, text.as_bytes())?,
        }),
        Step::Remount(generation) => Some(Change::Remount { generation }),
        _ => None,
    })
}

/// What a mirror has still to be told.
fn outstanding(mirror: &Mirror) -> Result<Vec<Request>, NoMemory> {
    mirror.outstanding()
}

/// The paths of a mirror's files.
fn files(mirror: &Mirror) -> Result<Vec<Path>, NoMemory> {
    mirror.files()
}

/// All that a mirror tells of itself.
pub(crate) fn shown(alloc: Global, mirror: &Mirror) -> Result<String> {
    let position = mirror.position();
    let requests = outstanding(mirror)?;
    let mut text = format!(in alloc; "{position:?} {requests:?}")?;
    for path in &files(mirror)? {
        let content = mirror.get(path);
        text.push_str(format!(in alloc; " {path:?} {content:?}")?.as_str())?;
    }
    Ok(text)
}

/// The reply of a mount.
fn reply(mount: &mut Mount<GitNaming>, request: &Request) -> Result<Reply, NoMemory> {
    reply_to(mount, 1, request)
}

/// What comes of a reply.
fn deliver(mirror: &mut Mirror, reply: &Reply) -> Result<Outcome, NoMemory> {
    mirror.deliver(reply)
}

/// Delivers a reply, and again where memory was refused: the mirror is as before then.
fn delivered(
    alloc: Global,
    refusals: &mut Refusals,
    mirror: &mut Mirror,
    reply: &Reply,
) -> Result<Outcome> {
    let before = again!(refusals, _, shown(alloc, mirror));
    match deliver(mirror, reply) {
        Ok(outcome) => Ok(outcome),
        Err(_) => {
            refusals.add();
            if shown(alloc, mirror)? != before {
                bail!("a reply that was refused memory changed the mirror");
            }
            Ok(deliver(mirror, reply)?)
        }
    }
}

/// What a mirror holds.
pub(crate) fn tell_held(rt: &HostRuntime, refusals: &mut Refusals, mirror: &Mirror) -> Result<()> {
    for path in &again!(refusals, _, files(mirror)) {
        let content = mirror.get(path).context("a file is gone")?;
        let text = text_of(content.bytes.as_slice())?;
        println!(rt; "{} holds {text}", text_of(path.as_bytes())?)?;
    }
    Ok(())
}

impl Pair {
    /// A mount of the empty commit, and a mirror that wants every path.
    fn open(alloc: Global) -> Result<Pair> {
        Ok(Pair {
            alloc,
            refusals: Refusals::new(),
            mount: empty_mount(alloc)?,
            mirror: Mirror::new(alloc, 1, 1, Filter::all(alloc)),
            replies: Vec::new(alloc),
        })
    }

    /// Asks all that is outstanding.
    fn ask(&mut self) -> Result<()> {
        let requests = again!(self.refusals, _, outstanding(&self.mirror));
        for request in &requests {
            let reply = again!(self.refusals, _, reply(&mut self.mount, request));
            keep(&mut self.refusals, &mut self.replies, reply)?;
        }
        Ok(())
    }

    /// The kept reply at a place comes.
    fn comes(&mut self, rt: &HostRuntime, place: usize) -> Result<()> {
        let alloc = self.alloc;
        let reply = self.replies.get(place).context("no reply is kept there")?;
        let outcome = delivered(alloc, &mut self.refusals, &mut self.mirror, reply)?;
        println!(rt; "{outcome:?}")?;
        Ok(())
    }

    /// Tells where the mirror is, and what it holds.
    fn show(&mut self, rt: &HostRuntime) -> Result<()> {
        match self.mirror.position() {
            Some(here) => println!(rt; "at {} {}", here.generation, here.sequence)?,
            None => println!(rt; "nowhere")?,
        }
        tell_held(rt, &mut self.refusals, &self.mirror)
    }

    /// The mount is changed.
    fn change(&mut self, change: &Change) -> Result<()> {
        let _ = again!(self.refusals, _, apply(&mut self.mount, change));
        Ok(())
    }

    /// What a step says happens.
    fn go(&mut self, rt: &HostRuntime, step: Step) -> Result<()> {
        let alloc = self.alloc;
        if let Some(change) = again!(self.refusals, _, change_of(alloc, step)) {
            return self.change(&change);
        }
        match step {
            Step::Begin => Ok(self.mirror.begin()?),
            Step::Ask => self.ask(),
            Step::Comes(place) => self.comes(rt, place),
            _ => self.show(rt),
        }
    }

    /// The mirror goes through these steps, and tells what it has come to.
    fn go_through(&mut self, rt: &HostRuntime, steps: &[Step]) -> Result<()> {
        for step in steps {
            self.go(rt, *step)?;
        }
        self.show(rt)
    }
}

/// A mirror goes through these steps.
pub(crate) fn follow(rt: &HostRuntime, steps: &[Step]) -> Result<u64> {
    let mut pair = Pair::open(rt.alloc())?;
    pair.go_through(rt, steps)?;
    Ok(pair.refusals.count())
}
