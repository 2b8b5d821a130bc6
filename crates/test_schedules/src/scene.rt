//! A mount, mirrors of it, and every frame that was ever sent between them.

use crate::frames::{asked, replied, reply_in, served};
use crate::past::Past;
use eden_accumulate::Mount;
use eden_globs::Filter;
use eden_history::{Change, Marked, Position, SinceFault};
use eden_ids::{Content, GitNaming, Id, Path};
use eden_messages::{Cause, Outcome, Query, Reply, Request};
use eden_mirror::Mirror;
use eden_objects::Store;
use eden_world::Row;
use std::alloc::Global;
use std::test::Fail;
use test_kit::{LOT_PATHS, Outcomes, Roots, path};

/// One thing that happens. Mirrors, requests and replies are named by their place among those that there are.
#[derive(Debug, Drop)]
pub(crate) enum Step {
    /// The mount is changed, or refuses it.
    Change(Change),
    /// The mirror begins a round.
    Begin(usize),
    /// The mirror sends all that is outstanding in its round.
    Send(usize),
    /// The mount answers a request that was sent, over bytes.
    Serve(usize),
    /// A reply that was given comes to a mirror.
    Come {
        /// Which one.
        reply: usize,
        /// To which mirror.
        mirror: usize,
    },
    /// The mirror wants other paths.
    Refilter(usize, Filter),
    /// The mirror begins anew, under the next life.
    Restart(usize, Filter),
    /// A client that is no mirror sends a request.
    Strange(Request),
}

/// A frame, and the place of the mirror that sent it or asked for it. The place of a client that is no mirror is above all of them.
#[derive(Drop)]
pub(crate) struct Sent {
    pub(crate) owner: usize,
    frame: Vec<u8>,
}

/// A mirror and what it wants.
#[derive(Drop)]
pub(crate) struct Follower {
    pub(crate) mirror: Mirror,
    filter: Filter,
}

/// What was seen. After how many steps a mirror had a place, had one at the head, or held something else than the working copy; and then was
/// refused what changed since, or was sent it as a list. How often two mirrors at the head held the same file. How often one took a list of the
/// files below a directory, and one of none. And what became of imports and of renames of directories.
#[derive(Clone, Copy, Debug, Default)]
pub(crate) struct Tally {
    placed: u64,
    at_head: u64,
    behind: u64,
    refused: u64,
    told: u64,
    together: u64,
    listed: u64,
    emptied: u64,
    outcomes: Outcomes,
}

/// Returns whether a path changed, or is below a directory that files were moved from or to.
fn is_among(path: &Path, marked: &[Marked], prefixes: &[Path]) -> bool {
    marked.iter().any(|m| m.path == *path) || prefixes.iter().any(|prefix| path.is_below(prefix))
}

/// Returns whether a reply to a poll lists a path, or refuses it to a client that is behind.
fn tells(reply: &Reply, path: &Path) -> bool {
    match reply {
        Reply::ChangesAre {
            marked,
            prefixes,
            ..
        } => is_among(path, marked.as_slice(), prefixes.as_slice()),
        Reply::Refused { cause, .. } => match cause {
            Cause::Stale(_) | Cause::Truncated(_) | Cause::TooLarge => true,
            Cause::Ahead(_) => false,
        },
        _ => false,
    }
}

/// Returns whether each path changed since a place, or that is refused as stale or truncated.
fn is_covered(mount: &Mount<GitNaming>, place: &Position, behind: &[Path]) -> Result<bool, Fail> {
    match mount.changes_since(place) {
        Ok(changes) => Ok(
            behind.iter().all(|path| {
                is_among(path, changes.marked.as_slice(), changes.prefixes.as_slice())
            }),
        ),
        Err(SinceFault::Stale(_) | SinceFault::Truncated(_)) => Ok(true),
        Err(SinceFault::Ahead(_)) => Ok(false),
        Err(SinceFault::NoMemory) => Err(Fail::new("no memory")),
    }
}

/// Returns whether a mount has just this at a path.
fn reads(mount: &Mount<GitNaming>, path: &Path, file: Option<&Content>) -> bool {
    match (mount.read(path), file) {
        (Ok((kind, bytes)), Some(file)) => kind == file.kind && bytes == file.bytes.as_slice(),
        (read, file) => read.is_err() && file.is_none(),
    }
}

/// Returns what the mount replies, over bytes, to a poll since a place.
fn polled(
    alloc: Global,
    mount: &mut Mount<GitNaming>,
    since: Position,
    filter: &Filter,
) -> Result<Reply, Fail> {
    let query = Query {
        mirror: 77,
        life: 1,
        number: 1,
    };
    let filter = filter.copy()?;
    let request = Request::Poll {
        query,
        since,
        filter,
    };
    replied(alloc, mount, &request)
}

/// Adds 1 if this is so.
fn count(number: &mut u64, so: bool) {
    *number = number.saturating_add(u64::from(so));
}

impl Tally {
    /// Returns whether there was some of each but lists.
    ///
    /// Over a journal that holds nothing no list tells a mirror what it lacks.
    pub(crate) fn has_all(&self) -> bool {
        self.placed > 0
            && self.at_head > 0
            && self.behind > 0
            && self.refused > 0
            && self.together > 0
            && self.outcomes.has_all()
    }

    /// Returns whether there were lists.
    ///
    /// One told a mirror what it lacks. What is below a directory was listed to one, some files and no file.
    pub(crate) fn has_told(&self) -> bool {
        self.told > 0 && self.listed > 0 && self.emptied > 0
    }

    /// Counts a list of what is below a directory, if a mirror took it.
    fn count_list(&mut self, reply: &Reply, outcome: Outcome) {
        if let Reply::ListIs { paths, .. } = reply {
            let taken = outcome != Outcome::Ignored;
            let empty = paths.as_slice().is_empty();
            count(&mut self.listed, taken && !empty);
            count(&mut self.emptied, taken && empty);
        }
    }

    /// Counts a reply by which a mirror learned that it is behind.
    fn count_reply(&mut self, reply: &Reply) {
        let refused = matches!(reply, Reply::Refused { .. });
        count(&mut self.behind, true);
        count(&mut self.refused, refused);
        count(&mut self.told, !refused);
    }
}

impl Follower {
    fn new(alloc: Global, id: u64, life: u64, filter: Filter) -> Result<Follower, Fail> {
        let kept = filter.copy()?;
        Ok(Follower {
            mirror: Mirror::new(alloc, id, life, filter),
            filter: kept,
        })
    }

    fn wants(&self, path: &Path) -> bool {
        self.filter.admits(path)
    }

    /// Returns the file that it holds at a path.
    fn held(&self, path: &Path) -> Option<&Content> {
        self.mirror.get(path)
    }

    /// Returns those of the paths that it wants and at which it differs from the mount.
    fn behind(
        &self,
        alloc: Global,
        mount: &Mount<GitNaming>,
        paths: &[Path],
    ) -> Result<Vec<Path>, Fail> {
        let mut list = Vec::new(alloc);
        for path in paths {
            if self.wants(path) && !reads(mount, path, self.held(path)) {
                list.push(path.copy()?)?;
            }
        }
        Ok(list)
    }

    /// Returns whether what it holds is of its place.
    ///
    /// The mount was at that place, so it is not ahead. What it holds at each path that it wants was there then or later.
    fn is_of(&self, past: &Past, place: &Position, paths: &[Path]) -> bool {
        past.has(place)
            && paths.iter().all(|path| {
                !self.wants(path) || past.stood(place, path, self.held(path))
            })
    }

    /// Returns whether it has the generation and the number of a position.
    fn is_at(&self, now: &Position) -> bool {
        match self.mirror.position() {
            Some(place) => { (place.generation, place.sequence) == (now.generation, now.sequence) }
            None => false,
        }
    }

    /// Returns whether both hold the same at each path that both want, and counts their files.
    fn agrees_with(&self, other: &Follower, paths: &[Path], tally: &mut Tally) -> bool {
        for path in paths {
            if !self.wants(path) || !other.wants(path) {
                continue;
            }
            let held = self.held(path);
            if held != other.held(path) {
                return false;
            }
            count(&mut tally.together, held.is_some());
        }
        true
    }

    /// Returns whether it holds as many files as the mount has at paths that it wants.
    fn as_many(&self, mount: &Mount<GitNaming>, paths: &[Path]) -> Result<bool, Fail> {
        let wanted = paths
            .iter()
            .filter(|path| self.wants(path) && mount.read(path).is_ok())
            .count();
        Ok(self.mirror.files()?.len() == wanted)
    }
}

/// All of it, a world that goes through the mount's changes, and the paths at which there may be a file or has been one.
#[derive(Drop)]
pub(crate) struct Scene {
    paths: Vec<Path>,
    past: Past,
    pub(crate) mount: Mount<GitNaming>,
    pub(crate) followers: Vec<Follower>,
    pub(crate) sent: Vec<Sent>,
    pub(crate) replies: Vec<Sent>,
}

impl Scene {
    /// Mounts a commit in generation 7, beside what a world of it has been.
    fn beside(
        alloc: Global,
        store: Store<GitNaming>,
        root: Id,
        limit: u64,
        past: Past,
    ) -> Result<Scene, Fail> {
        let mount = Mount::mount(alloc, store, root, 7, limit)?;
        Ok(Scene {
            paths: Vec::new(alloc),
            past,
            mount,
            followers: Vec::new(alloc),
            sent: Vec::new(alloc),
            replies: Vec::new(alloc),
        })
    }

    /// Mounts a commit with a journal of this limit, beside a world.
    ///
    /// There is no mirror yet, and nothing is sent.
    pub(crate) fn mounted(
        alloc: Global,
        store: &mut Store<GitNaming>,
        root: Id,
        limit: u64,
    ) -> Result<Scene, Fail> {
        let past = Past::mounted(alloc, store.share()?, root, limit)?;
        Scene::beside(alloc, store.share()?, root, limit, past)
    }

    /// Adds the paths of which changes are drawn.
    pub(crate) fn add_paths(&mut self, alloc: Global) -> Result<(), Fail> {
        for text in LOT_PATHS {
            self.paths.push(path(alloc, text)?)?;
        }
        Ok(())
    }

    /// Adds a mirror in its first life, with the next id.
    pub(crate) fn add_follower(&mut self, alloc: Global, filter: Filter) -> Result<(), Fail> {
        let id = self.followers.len() as u64;
        self.followers.push(Follower::new(alloc, id, 1, filter)?)?;
        Ok(())
    }

    /// Returns what the world is now.
    pub(crate) fn now(&self) -> &Row {
        self.past.now()
    }

    /// Makes a change on the mount and the world, or both refuse it.
    fn change(&mut self, change: &Change, roots: &Roots, tally: &mut Tally) -> Result<(), Fail> {
        let told = self.mount.apply(change)?;
        let expected = self.past.apply(change)?;
        tally.outcomes.count(change, &told, roots);
        if told == expected && self.mount.position() == self.past.position() {
            return self.past.add_paths(&mut self.paths);
        }
        Err(Fail::new(format_args!("the mount says {told:?}, and the world {expected:?}")))
    }

    /// Sends a request.
    fn send(&mut self, alloc: Global, owner: usize, request: &Request) -> Result<(), Fail> {
        let frame = asked(alloc, request)?;
        self.sent.push(Sent { owner, frame })?;
        Ok(())
    }

    /// Has the mount answer a request, if it is there.
    fn serve(&mut self, alloc: Global, place: usize) -> Result<(), Fail> {
        if let Some(sent) = self.sent.get(place) {
            let frame = served(alloc, &mut self.mount, sent.frame.as_slice())?;
            let owner = sent.owner;
            self.replies.push(Sent { owner, frame })?;
        }
        Ok(())
    }

    /// Delivers a reply to a mirror, if both are there.
    fn come(
        &mut self,
        alloc: Global,
        reply: usize,
        mirror: usize,
        tally: &mut Tally,
    ) -> Result<(), Fail> {
        if let Some(given) = self.replies.get(reply) {
            let reply = reply_in(alloc, given.frame.as_slice())?;
            if let Some(follower) = self.followers.get_mut(mirror) {
                let outcome = follower.mirror.deliver(&reply)?;
                tally.count_list(&reply, outcome);
            }
        }
        Ok(())
    }

    /// Sends what is outstanding in a mirror's round.
    fn ask(&mut self, alloc: Global, owner: usize) -> Result<(), Fail> {
        if let Some(follower) = self.followers.get(owner) {
            let requests = follower.mirror.outstanding()?;
            for request in &requests {
                self.send(alloc, owner, request)?;
            }
        }
        Ok(())
    }

    /// Begins a round of a mirror, if it is there.
    fn begin(&mut self, mirror: usize) -> Result<(), Fail> {
        if let Some(follower) = self.followers.get_mut(mirror) {
            follower.mirror.begin()?;
        }
        Ok(())
    }

    /// Gives a mirror other paths to want.
    fn refilter(&mut self, mirror: usize, filter: &Filter) -> Result<(), Fail> {
        if let Some(follower) = self.followers.get_mut(mirror) {
            follower.mirror.refilter(filter.copy()?);
            follower.filter = filter.copy()?;
        }
        Ok(())
    }

    /// Begins a mirror anew, under its next life.
    fn restart(&mut self, alloc: Global, mirror: usize, filter: &Filter) -> Result<(), Fail> {
        if let Some(follower) = self.followers.get_mut(mirror) {
            let id = follower.mirror.id();
            let life = follower.mirror.life().saturating_add(1);
            *follower = Follower::new(alloc, id, life, filter.copy()?)?;
        }
        Ok(())
    }

    /// Does what a step says.
    pub(crate) fn happen(
        &mut self,
        alloc: Global,
        step: &Step,
        roots: &Roots,
        tally: &mut Tally,
    ) -> Result<(), Fail> {
        match step {
            Step::Change(change) => self.change(change, roots, tally),
            Step::Begin(mirror) => self.begin(*mirror),
            Step::Send(mirror) => self.ask(alloc, *mirror),
            Step::Serve(place) => self.serve(alloc, *place),
            Step::Come { reply, mirror } => self.come(alloc, *reply, *mirror, tally),
            Step::Refilter(mirror, filter) => self.refilter(*mirror, filter),
            Step::Restart(mirror, filter) => self.restart(alloc, *mirror, filter),
            Step::Strange(request) => {
                let nobody = self.followers.len();
                self.send(alloc, nobody, request)
            }
        }
    }

    /// Returns whether each two mirrors at the head agree on the paths that both want.
    fn agree_at_head(&self, tally: &mut Tally) -> bool {
        let now = self.mount.position();
        for one in &self.followers {
            for other in &self.followers {
                let both = one.mirror.id() < other.mirror.id()
                    && one.is_at(&now)
                    && other.is_at(&now);
                if both && !one.agrees_with(other, self.paths.as_slice(), tally) {
                    return false;
                }
            }
        }
        true
    }

    /// Returns what does not hold of the mirrors with a place, though it is promised.
    ///
    /// The place was a position of the mount, and what the mirror holds was there then or later. The paths at which it is behind are among the
    /// changes since its place, or the place is refused, and so a poll since then replies. At the head it is behind nowhere, holds nothing else,
    /// and agrees with others there.
    pub(crate) fn broken(
        &mut self,
        alloc: Global,
        tally: &mut Tally,
    ) -> Result<Option<&'static str>, Fail> {
        let paths = self.paths.as_slice();
        for follower in &self.followers {
            let Some(place) = follower.mirror.position() else {
                continue;
            };
            if !follower.is_of(&self.past, &place, paths) {
                return Ok(Some("a place or a file that the mount never had"));
            }
            let broken = broken_of(alloc, &mut self.mount, follower, place, paths, tally)?;
            if broken.is_some() {
                return Ok(broken);
            }
        }
        if !self.agree_at_head(tally) {
            return Ok(Some("two mirrors at the head hold other files"));
        }
        Ok(None)
    }
}

/// Returns what does not hold of the paths at which a mirror is behind.
///
/// If it is behind nowhere, nothing is promised of replies to it.
fn broken_behind(
    alloc: Global,
    mount: &mut Mount<GitNaming>,
    follower: &Follower,
    place: Position,
    behind: &[Path],
    tally: &mut Tally,
) -> Result<Option<&'static str>, Fail> {
    if behind.is_empty() {
        return Ok(None);
    }
    if !is_covered(mount, &place, behind)? {
        return Ok(Some("a path is not covered"));
    }
    let reply = polled(alloc, mount, place, &follower.filter)?;
    if !behind.iter().all(|path| tells(&reply, path)) {
        return Ok(Some("a path is not told"));
    }
    tally.count_reply(&reply);
    Ok(None)
}

/// Returns what does not hold of a mirror that has a place.
fn broken_of(
    alloc: Global,
    mount: &mut Mount<GitNaming>,
    follower: &Follower,
    place: Position,
    paths: &[Path],
    tally: &mut Tally,
) -> Result<Option<&'static str>, Fail> {
    let behind = follower.behind(alloc, mount, paths)?;
    let broken = broken_behind(alloc, mount, follower, place, behind.as_slice(), tally)?;
    if broken.is_some() {
        return Ok(broken);
    }
    let at_head = follower.is_at(&mount.position());
    if at_head && !(behind.is_empty() && follower.as_many(mount, paths)?) {
        return Ok(Some("a mirror at the head holds other files"));
    }
    count(&mut tally.placed, true);
    count(&mut tally.at_head, at_head);
    Ok(None)
}
