//! Schedules drawn by lot.

use crate::scene::{Scene, Step};
use eden_globs::Filter;
use eden_messages::{Query, Request};
use std::alloc::Global;
use std::test::Fail;
use test_kit::{Lot, Roots};

/// Draws steps, which follow from the seed and from what has happened so far. Mostly something goes on: the next reply comes, the next request
/// is served, or a mirror begins a round or sends what it asks. In between anything else happens.
#[derive(Drop)]
pub(crate) struct ScheduleLot {
    lot: Lot,
    served: usize,
    come: usize,
}

impl ScheduleLot {
    pub(crate) fn new(seed: u64) -> ScheduleLot {
        ScheduleLot {
            lot: Lot::new(seed),
            served: 0,
            come: 0,
        }
    }

    /// Draws a place among so many, if there is one.
    fn any(&mut self, count: usize) -> usize {
        if count == 0 {
            return 0;
        }
        self.lot.below(count)
    }

    /// Draws a filter, which is that of all paths as often as not.
    pub(crate) fn filter(&mut self, alloc: Global) -> Result<Filter, Fail> {
        let parsed = match self.lot.below(8) {
            0..=3 => Ok(Filter::all(alloc)),
            4 => Filter::parse(alloc, &[b"a*".as_slice(), b"**/e".as_slice()]),
            5 => Filter::parse(alloc, &[b"a/**".as_slice()]),
            6 => Filter::parse(alloc, &[b"b".as_slice(), b"d/?".as_slice()]),
            _ => Filter::parse(
                alloc,
                &[b"a?b".as_slice(), b"d".as_slice(), b"a".as_slice()],
            ),
        };
        Ok(parsed?)
    }

    /// Draws a request under a life that no mirror ever has, or an id that none has.
    fn strange(&mut self, alloc: Global, scene: &Scene) -> Result<Request, Fail> {
        let query = Query {
            mirror: self.lot.below(4) as u64,
            life: 0,
            number: 1,
        };
        Ok(match self.lot.below(4) {
            0 => Request::Basis {
                query,
                filter: self.filter(alloc)?,
            },
            1 => Request::Poll {
                query,
                since: scene.mount.position(),
                filter: self.filter(alloc)?,
            },
            2 => Request::List {
                query,
                prefix: self.lot.directory(alloc)?,
                filter: self.filter(alloc)?,
            },
            _ => Request::Fetch {
                query,
                path: self.lot.path(alloc)?,
            },
        })
    }

    /// Returns the next one after a place. Sometimes one is lost.
    fn after(&mut self, place: usize) -> usize {
        let lost = usize::from(self.lot.below(16) == 0);
        place.saturating_add(1).saturating_add(lost)
    }

    /// Returns a step by which something goes on.
    fn onwards(&mut self, scene: &Scene, mirror: usize) -> Step {
        if let Some(given) = scene.replies.get(self.come) {
            let reply = self.come;
            self.come = self.after(reply);
            let owner = given.owner;
            let mirror = if owner < scene.followers.len() {
                owner
            } else {
                mirror
            };
            return Step::Come { reply, mirror };
        }
        if self.served < scene.sent.len() {
            let place = self.served;
            self.served = self.after(place);
            return Step::Serve(place);
        }
        match scene.followers.get(mirror) {
            Some(follower) if !follower.mirror.is_idle() => Step::Send(mirror),
            _ => Step::Begin(mirror),
        }
    }

    /// Draws the next step.
    pub(crate) fn step(
        &mut self,
        alloc: Global,
        roots: &mut Roots,
        scene: &Scene,
    ) -> Result<Step, Fail> {
        let mirror = self.any(scene.followers.len());
        let now = scene.now();
        Ok(match self.lot.below(40) {
            0..=5 => Step::Change(
                self.lot
                    .change(alloc, roots, now.generation(), now.files())?,
            ),
            6 => Step::Refilter(mirror, self.filter(alloc)?),
            7 => Step::Restart(mirror, self.filter(alloc)?),
            8 => Step::Strange(self.strange(alloc, scene)?),
            9 => Step::Serve(self.any(scene.sent.len())),
            10 => Step::Come {
                reply: self.any(scene.replies.len()),
                mirror,
            },
            11 => Step::Send(mirror),
            12 => Step::Begin(mirror),
            _ => self.onwards(scene, mirror),
        })
    }
}
