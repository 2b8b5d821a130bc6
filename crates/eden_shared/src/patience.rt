//! For how long a request waits for a reply that names something, and for whom.

ghost use Rattle.std.specs.Prelude.{◌≡◌, ◌*◌, ◌↔◌, IsTrue, false, min};
ghost use Rattle.std.specs.Duration.{as_nanos};
ghost use Rattle.eden_shared.specs.internal.Patience.{NamesNothing};

use crate::bell::{Bell, Heard};
use eden_messages::Reply;
use std::sync::Wait;
use std::time::{Clock, Duration, Instant};

/// For how many milliseconds a request that comes in a frame waits at most.
///
/// A greater patience counts as this one.
pub const LONGEST: u32 = 60_000;

/// How many milliseconds a wait lasts at most before the peer is looked at again.
const SLICE: u64 = 1_000;

/// Who waits for the reply to a request.
pub trait Peer {
    /// Returns true if nobody waits for the reply any more.
    ///
    /// It is called about once a second while a request waits. It should return at once.
    fn is_gone(&self) -> bool;
}

/// A peer that waits for each reply.
#[derive(Clone, Copy, Debug, PartialEq, Eq)]
pub struct Present;

impl Peer for Present {
    fn is_gone(&self) -> bool
        ensures { result ≡ false }
    {
        false
    }
}

/// Returns for how long a request with these milliseconds in its frame may wait.
pub(crate) fn patience_of(milliseconds: u32) -> Duration
    ensures { as_nanos result ≡ min milliseconds 60000 * 1000000 }
{
    Duration::from_millis(u64::from(milliseconds.min(LONGEST)))
}

/// Returns true if a reply is that to a Poll, and names no path and no prefix.
pub(crate) fn names_nothing(reply: &Reply) -> bool
    ensures { IsTrue result ↔ NamesNothing reply.now }
{
    match reply {
        Reply::ChangesAre {
            marked,
            prefixes,
            ..
        } => marked.as_slice().is_empty() && prefixes.as_slice().is_empty(),
        _ => false,
    }
}

/// For how long a peer waits, from when on.
#[derive(Drop)]
pub(crate) struct Waiting<'a, P: Peer> {
    start: Option<Instant>,
    patience: Duration,
    peer: &'a P,
}

impl<'a, P: Peer> Waiting<'a, P> {
    /// Begins to wait. If the clock can't be read, there is no wait.
    pub(crate) fn begin(clock: &impl Clock, patience: Duration, peer: &'a P) -> Waiting<'a, P> {
        Waiting {
            start: Instant::now(clock).ok(),
            patience,
            peer,
        }
    }

    /// Returns the time that is left, or `None` once it is up.
    fn left(&self, clock: &impl Clock) -> Option<Duration> {
        let left = self.patience.checked_sub(self.start?.elapsed(clock).ok()?)?;
        if left.is_zero() { None } else { Some(left) }
    }

    /// Waits until a bell has rung more often than this.
    ///
    /// Returns false if it has not when the patience is up, when the bell's waits are ended, or when
    /// the peer is found to be gone, after a second at most.
    pub(crate) fn hears<R: Wait + Clock>(&self, rt: &R, bell: &Bell, times: u64) -> bool {
        for _ in rt.forever() {
            let Some(left) = self.left(rt) else {
                return false;
            };
            match bell.wait(rt, times, left.min(Duration::from_millis(SLICE))) {
                Heard::Ring => return true,
                Heard::End => return false,
                Heard::Nothing => {}
            }
            if self.peer.is_gone() {
                return false;
            }
        }
        unreachable!()
    }
}
