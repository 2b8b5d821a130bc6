//! What a mount replies, to frames and from what it held, beside what the world replies.

use crate::comparing::{LIMITS, Pair, Step};
use eden_accumulate::Mount;
use eden_globs::Filter;
use eden_history::Change;
use eden_ids::GitNaming;
use eden_messages::{Query, Reply, Request};
use eden_objects::Store;
use eden_query::{Raw, Served, answer, decode_reply, encode_request, serve};
use eden_stream::Counted;
use std::alloc::Global;
use std::process::Abort;
use std::test::Fail;
use test_kit::{Commits, Lot, Outcomes, Roots, family};

/// What a mount held for a request, the objects that it had then, and the right reply.
#[derive(Drop)]
struct Held {
    request: Request,
    filter: Filter,
    raw: Raw,
    store: Store<GitNaming>,
    reply: Reply,
}

impl Held {
    /// Checks that what was held is answered by the right reply.
    ///
    /// That is so over the objects of then and over those of now.
    fn keeps(&self, alloc: Global, now: &Store<GitNaming>, step: &Step) -> Result<(), Fail> {
        for store in [&self.store, now] {
            let told = answer(alloc, &self.raw, store, &self.filter)?;
            step.alike((&self.request, &told), (&self.request, &self.reply))?;
        }
        Ok(())
    }
}

/// Returns the frames of requests, one after another.
fn frames_of(alloc: Global, requests: &[Request]) -> Result<Vec<u8>, Fail> {
    let mut frames = Vec::new(alloc);
    for request in requests {
        frames.extend_from_slice(encode_request(alloc, request)?.as_slice())?;
    }
    Ok(frames)
}

/// Returns what a mount writes to one stream of requests.
fn served(
    alloc: Global,
    mount: &mut Mount<GitNaming>,
    requests: &[Request],
) -> Result<Vec<u8>, Fail> {
    let stream = frames_of(alloc, requests)?;
    let mut replies = Vec::new(alloc);
    let mut writer = Counted::new(&mut replies);
    let ended = serve(
        alloc,
        &mut Counted::new(stream.as_slice()),
        &mut writer,
        mount,
    );
    if ended == Ok(requests.len() as u64) {
        return Ok(replies);
    }
    Err(Fail::new(format_args!("serving {requests:?} ended {ended:?}")))
}

/// Returns the reply in the first of some frames, and the frames after it.
fn first_reply(alloc: Global, frames: &[u8]) -> Result<(Reply, &[u8]), Fail> {
    let [a, b, c, d, rest @ ..] = frames else {
        return Err(Fail::new("a reply without a length"));
    };
    let length = u32::from_be_bytes([*a, *b, *c, *d]) as usize;
    match (rest.get(..length), rest.get(length..)) {
        (Some(body), Some(rest)) => Ok((decode_reply(alloc, body)?, rest)),
        _ => Err(Fail::new("a reply is cut short")),
    }
}

/// A mount and a world that reply alike, and what was held after the last of their changes.
#[derive(Drop)]
struct Replies {
    pair: Pair,
    lot: Lot,
    roots: Roots,
    kept: Vec<Held>,
}

impl Replies {
    /// Mounts the third commit with a journal of this limit. Nothing is held yet.
    fn opened(alloc: Global, commits: &mut Commits<4>, limit: u64) -> Result<Replies, Fail> {
        let pair = Pair::mounted(alloc, &mut commits.store, commits.ids[2], limit)?;
        Ok(Replies {
            pair,
            lot: Lot::new(limit),
            roots: Roots::new(&commits.ids),
            kept: Vec::new(alloc),
        })
    }

    /// Draws the change that both make next.
    fn next_change(&mut self, alloc: Global) -> Result<Change, Fail> {
        let now = self.pair.world.now();
        self.lot
            .change(alloc, &mut self.roots, now.generation(), now.files())
    }

    /// Checks that all that was held is still answered as it was to be.
    fn keep(&self, alloc: Global, step: &Step) -> Result<(), Fail> {
        for held in &self.kept {
            held.keeps(alloc, self.pair.mount.store(), step)?;
        }
        Ok(())
    }

    /// Draws four requests by a filter.
    fn draw(&mut self, alloc: Global, step: &Step, filter: &Filter) -> Result<Vec<Request>, Fail> {
        let query = Query {
            mirror: 1,
            life: step.seed,
            number: step.number as u64,
        };
        let now = self.pair.mount.position();
        self.lot.requests(alloc, query, &now, filter)
    }

    /// Checks that the mount replied to a request what the world replies.
    fn same_reply(&self, step: &Step, request: &Request, told: &Reply) -> Result<(), Fail> {
        let reply = self.pair.world.reply(request)?;
        step.alike((request, told), (request, &reply))
    }

    /// Holds what the mount has for a request, beside the right reply.
    fn hold(&mut self, request: &Request, filter: &Filter, reply: Reply) -> Result<Held, Fail> {
        let filter = filter.copy()?;
        let asked = request.copy()?;
        let (raw, store) = self.pair.mount.hold(1, request)?;
        Ok(Held {
            request: asked,
            filter,
            raw,
            store,
            reply,
        })
    }

    /// Compares the reply in each of these frames, and keeps what is held for its request.
    fn hold_all(
        &mut self,
        alloc: Global,
        step: &Step,
        requests: &[Request],
        filter: &Filter,
        frames: &[u8],
    ) -> Result<(), Fail> {
        let mut rest = frames;
        for request in requests {
            let (told, after) = first_reply(alloc, rest)?;
            self.same_reply(step, request, &told)?;
            let held = self.hold(request, filter, told)?;
            self.kept.push(held)?;
            rest = after;
        }
        step.alike(rest, b"".as_slice())
    }

    /// Asks four requests in one stream, and keeps what is held for them.
    fn ask(&mut self, alloc: Global, step: &Step) -> Result<(), Fail> {
        let filter = self.lot.filter(alloc)?;
        let requests = self.draw(alloc, step, &filter)?;
        let frames = served(alloc, &mut self.pair.mount, requests.as_slice())?;
        self.hold_all(alloc, step, requests.as_slice(), &filter, frames.as_slice())
    }

    /// Makes the change on both, asks again what was held, and asks anew.
    fn go_on(&mut self, alloc: Global, step: &Step, outcomes: &mut Outcomes) -> Result<(), Fail> {
        let answer = self.pair.apply(step)?;
        outcomes.count(step.change, &answer, &self.roots);
        self.keep(alloc, step)?;
        if step.number % 4 == 0 {
            self.kept.clear();
        }
        self.ask(alloc, step)
    }

    /// Makes eighty changes on both, and names this seed if they differ.
    fn go_through(
        &mut self,
        alloc: Global,
        seed: u64,
        outcomes: &mut Outcomes,
    ) -> Result<(), Fail> {
        for number in 1..=80 {
            let change = self.next_change(alloc)?;
            let step = Step {
                seed,
                number,
                change: &change,
            };
            self.go_on(alloc, &step, outcomes)?;
        }
        Ok(())
    }
}

/// Checks that a mount and a world with this limit reply alike after each change.
///
/// So does the mount from what it held after one of the last four changes.
fn reply_alike(
    alloc: Global,
    commits: &mut Commits<4>,
    limit: u64,
    outcomes: &mut Outcomes,
) -> Result<(), Fail> {
    let mut replies = Replies::opened(alloc, commits, limit)?;
    replies.go_through(alloc, limit, outcomes)
}

/// Checks it with each limit, and that each outcome is among those of the changes.
fn all_reply_alike(rt: &impl Abort, alloc: Global, commits: &mut Commits<4>) -> Result<(), Fail> {
    let mut outcomes = Outcomes::default();
    for limit in LIMITS {
        reply_alike(alloc, commits, *limit, &mut outcomes)?;
    }
    assert!(rt; outcomes.has_all(), "{outcomes:?}");
    Ok(())
}

#[test]
fn generated_requests(rt: HostRuntime) -> Result<(), Fail> {
    let alloc = rt.alloc();
    let mut commits = family(alloc)?;
    all_reply_alike(&rt, alloc, &mut commits)
}
