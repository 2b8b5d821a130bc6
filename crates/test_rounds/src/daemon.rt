//! What a mirror asks in the tests: a world, or a mount behind its frames; and a mirror beside it.

use crate::wanted::{Said, position, query};
use eden_accumulate::Mount;
use eden_globs::Filter;
use eden_history::Change;
use eden_ids::{GitNaming, Id};
use eden_messages::{Outcome, Query, Reply, Request};
use eden_mirror::Mirror;
use eden_objects::Store;
use eden_query::{decode_reply, encode_request, serve};
use eden_stream::Counted;
use eden_world::World;
use std::alloc::Global;
use std::test::Fail;
use test_kit::{path, plain, write};

/// What makes changes and replies to requests.
pub(crate) trait Daemon {
    /// Makes a change.
    fn change(&mut self, change: &Change) -> Result<(), Fail>;

    /// The reply to a request.
    fn reply(&mut self, alloc: Global, request: &Request) -> Result<Reply, Fail>;
}

impl Daemon for World<GitNaming> {
    fn change(&mut self, change: &Change) -> Result<(), Fail> {
        let _ = self.apply(change)?;
        Ok(())
    }

    fn reply(&mut self, _alloc: Global, request: &Request) -> Result<Reply, Fail> {
        Ok(World::reply(self, request)?)
    }
}

impl Daemon for Mount<GitNaming> {
    fn change(&mut self, change: &Change) -> Result<(), Fail> {
        let _ = self.apply(change)?;
        Ok(())
    }

    fn reply(&mut self, alloc: Global, request: &Request) -> Result<Reply, Fail> {
        let frame = encode_request(alloc, request)?;
        let mut written = Vec::new(alloc);
        let mut reader = Counted::new(frame.as_slice());
        let mut writer = Counted::new(&mut written);
        let ended = serve(alloc, &mut reader, &mut writer, self);
        if ended != Ok(1) || written.len() < 4 {
            return Err(Fail::new(format_args!("{request:?} is answered by {ended:?}")));
        }
        Ok(decode_reply(alloc, &written[4..])?)
    }
}

/// A world of the empty commit, in generation 7.
pub(crate) fn opened_world(alloc: Global) -> Result<World<GitNaming>, Fail> {
    let store = Store::new(alloc, GitNaming);
    Ok(World::mount(alloc, store, Id::ZERO, 7, 1000)?)
}

/// A mount of the empty commit, in generation 7.
pub(crate) fn opened_mount(alloc: Global) -> Result<Mount<GitNaming>, Fail> {
    let store = Store::new(alloc, GitNaming);
    Ok(Mount::mount(alloc, store, Id::ZERO, 7, 1000)?)
}

/// The replies to these requests.
fn replies_to<D: Daemon>(
    alloc: Global,
    daemon: &mut D,
    requests: &[Request],
) -> Result<Vec<Reply>, Fail> {
    let mut replies = Vec::new(alloc);
    for request in requests {
        replies.push(daemon.reply(alloc, request)?)?;
    }
    Ok(replies)
}

/// Checks that replies are these.
fn are_said(alloc: Global, replies: &[Reply], wanted: &[Said]) -> Result<(), Fail> {
    if replies.len() != wanted.len() {
        return Err(Fail::new(format_args!("{replies:?} in place of {wanted:?}")));
    }
    for (reply, said) in replies.iter().zip(wanted) {
        if *reply != said.reply(alloc)? {
            return Err(Fail::new(format_args!("{reply:?} in place of {said:?}")));
        }
    }
    Ok(())
}

/// Checks that these requests are outstanding.
fn are_outstanding(mirror: &Mirror, wanted: &[Request]) -> Result<(), Fail> {
    let asked = mirror.outstanding()?;
    if asked.as_slice() == wanted {
        return Ok(());
    }
    Err(Fail::new(format_args!("{asked:?} in place of {wanted:?}")))
}

/// Adds requests for the lists of these directories.
fn add_lists(
    alloc: Global,
    requests: &mut Vec<Request>,
    query: Query,
    prefixes: &[&str],
) -> Result<(), Fail> {
    for name in prefixes {
        requests.push(Request::List {
            query,
            prefix: path(alloc, name)?,
            filter: Filter::all(alloc),
        })?;
    }
    Ok(())
}

/// Adds requests for the contents of these paths.
fn add_fetches(
    alloc: Global,
    requests: &mut Vec<Request>,
    query: Query,
    paths: &[&str],
) -> Result<(), Fail> {
    for name in paths {
        requests.push(Request::Fetch {
            query,
            path: path(alloc, name)?,
        })?;
    }
    Ok(())
}

/// What happens to a pair, and what is wanted of it.
#[derive(Clone, Copy, Debug)]
pub(crate) enum Step {
    /// A plain file with this text is written at the path.
    Write(&'static str, &'static str),
    /// A directory is renamed.
    RenameDir(&'static str, &'static str),
    /// The daemon goes over to this generation.
    Remount(u64),
    /// The daemon forgets what changed.
    Flush,
    /// The mirror begins a round.
    Begin,
    /// The mirror is told again that it wants every path.
    Refilter,
    /// All that is outstanding is asked, in its order. These are the replies, of which none comes yet.
    Asks(&'static [Said]),
    /// A reply comes, with this outcome.
    Comes(Said, Outcome),
    /// One question is outstanding. It is asked, this is the reply, and it comes, with this outcome.
    Goes(Said, Outcome),
    /// In the round with this number, lists of these directories are outstanding, and then the contents of these paths.
    Awaits(u64, &'static [&'static str], &'static [&'static str]),
    /// The mirror is placed at this generation and number, or nowhere, and these are its files.
    Holds(Option<(u64, u64)>, &'static [(&'static str, &'static str)]),
}

/// A mirror and what it asks.
#[derive(Drop)]
pub(crate) struct Pair<D: Drop> {
    pub(crate) alloc: Global,
    pub(crate) daemon: D,
    pub(crate) mirror: Mirror,
}

impl<D: Daemon + Drop> Pair<D> {
    /// The mirror 1 in its first life, which wants every path.
    pub(crate) fn new(alloc: Global, daemon: D) -> Pair<D> {
        Pair {
            alloc,
            daemon,
            mirror: Mirror::new(alloc, 1, 1, Filter::all(alloc)),
        }
    }

    /// The replies to all that is outstanding, of which none is delivered yet.
    pub(crate) fn asked(&mut self) -> Result<Vec<Reply>, Fail> {
        let requests = self.mirror.outstanding()?;
        replies_to(self.alloc, &mut self.daemon, requests.as_slice())
    }

    /// Delivers a reply: what comes of it.
    pub(crate) fn delivered(&mut self, reply: &Reply) -> Result<Outcome, Fail> {
        Ok(self.mirror.deliver(reply)?)
    }

    /// Begins a round. Where none is under way it asks what was told of it before.
    pub(crate) fn begin(&mut self) -> Result<(), Fail> {
        let is_idle = self.mirror.is_idle();
        let next = self.mirror.next_requests()?;
        self.mirror.begin()?;
        if is_idle {
            are_outstanding(&self.mirror, next.as_slice())
        } else {
            Ok(())
        }
    }

    /// Asks all that is outstanding, to which the replies are these.
    fn asks(&mut self, wanted: &[Said]) -> Result<(), Fail> {
        let replies = self.asked()?;
        are_said(self.alloc, replies.as_slice(), wanted)
    }

    /// Delivers a reply, which has this outcome.
    fn comes(&mut self, said: &Said, wanted: Outcome) -> Result<(), Fail> {
        let outcome = self.delivered(&said.reply(self.alloc)?)?;
        if outcome == wanted {
            return Ok(());
        }
        Err(Fail::new(format_args!("{said:?} has the outcome {outcome:?} in place of {wanted:?}")))
    }

    /// In the round with this number, lists of these directories are outstanding, and then the contents of these paths.
    fn awaits(&self, number: u64, prefixes: &[&str], paths: &[&str]) -> Result<(), Fail> {
        let mut wanted = Vec::new(self.alloc);
        add_lists(self.alloc, &mut wanted, query(number), prefixes)?;
        add_fetches(self.alloc, &mut wanted, query(number), paths)?;
        are_outstanding(&self.mirror, wanted.as_slice())
    }

    /// The position at which the mirror is placed, and its files, are these.
    fn holds(&self, place: Option<(u64, u64)>, files: &[(&str, &str)]) -> Result<(), Fail> {
        let here = self.mirror.position();
        if here != place.map(|(generation, sequence)| position(generation, sequence)) {
            return Err(Fail::new(format_args!("{here:?} in place of {place:?}")));
        }
        let paths = self.mirror.files()?;
        if paths.len() != files.len() {
            return Err(Fail::new(format_args!("{paths:?} in place of {files:?}")));
        }
        for (at, (name, text)) in paths.iter().zip(files) {
            let wanted = plain(self.alloc, text)?;
            if at.as_bytes() != name.as_bytes() || self.mirror.get(at) != Some(&wanted) {
                return Err(Fail::new(format_args!("{at:?} in place of {name} with {text}")));
            }
        }
        Ok(())
    }

    /// What the step says happens, as it says.
    fn happens(&mut self, step: &Step) -> Result<(), Fail> {
        match *step {
            Step::Write(at, text) => self.daemon.change(&write(self.alloc, at, text)?),
            Step::RenameDir(old, new) => self.daemon.change(&Change::RenameDir {
                old: path(self.alloc, old)?,
                new: path(self.alloc, new)?,
            }),
            Step::Remount(generation) => self.daemon.change(&Change::Remount { generation }),
            Step::Flush => self.daemon.change(&Change::Flush),
            Step::Begin => self.begin(),
            Step::Refilter => {
                self.mirror.refilter(Filter::all(self.alloc));
                Ok(())
            }
            Step::Asks(wanted) => self.asks(wanted),
            Step::Comes(said, outcome) => self.comes(&said, outcome),
            Step::Goes(said, outcome) => {
                self.asks(&[said])?;
                self.comes(&said, outcome)
            }
            Step::Awaits(number, prefixes, paths) => self.awaits(number, prefixes, paths),
            Step::Holds(place, files) => self.holds(place, files),
        }
    }

    /// Step after step happens as it says.
    pub(crate) fn goes(&mut self, steps: &[Step]) -> Result<(), Fail> {
        for step in steps {
            self.happens(step)?;
        }
        Ok(())
    }

    /// The steps of one part after the other happen so.
    pub(crate) fn goes_through(&mut self, parts: &[&[Step]]) -> Result<(), Fail> {
        for steps in parts {
            self.goes(steps)?;
        }
        Ok(())
    }
}
