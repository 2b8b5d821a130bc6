//! A follower that keeps up with the head word.

use crate::line::Caller;
use crate::watch::Watch;
use crossbeam_channel::{Receiver, RecvTimeoutError};
use eden_follow::{Follower, StepFault};
use eden_history::Position;
use eden_ids::NoMemory;
use eden_messages::Request;
use eden_mirror::Outcome;
use std::alloc::Global;
use std::sync::Wait;
use std::time::{Clock, Duration};

/// The most rounds after the last change.
const LAST_ROUNDS: u32 = 1_000;

/// How many milliseconds a follower waits before it looks at the head word again.
const PAUSE: u64 = 1;

/// Holds what the thread of a follower begins with.
#[derive(Drop)]
pub(crate) struct Following {
    pub(crate) follower: Follower,
    pub(crate) line: Caller,
    pub(crate) watch: Watch,
    /// Says where the mount is after the last change.
    pub(crate) last: Receiver<Position>,
}

impl Following {
    /// Sends one request and delivers its reply. Returns whether the reply counted.
    fn ask(&mut self, rt: &impl Wait, alloc: Global, request: &Request) -> Result<bool, NoMemory> {
        match self.line.ask(rt, alloc, request)? {
            Some((ticket, reply)) => {
                let outcome = self.follower.deliver(ticket, &reply)?;
                Ok(!matches!(outcome, Outcome::Ignored))
            }
            None => Ok(false),
        }
    }

    /// Begins a round or continues one: sends the outstanding requests, and delivers a reply to
    /// each. Returns whether one counted.
    fn take_step(&mut self, rt: &impl Wait, alloc: Global) -> Result<bool, NoMemory> {
        let requests = match self.follower.step() {
            Ok(requests) => requests,
            Err(StepFault::NumbersExhausted) => return Ok(false),
            Err(StepFault::NoMemory) => return Err(NoMemory),
        };
        let mut counted = false;
        for request in &requests {
            counted |= self.ask(rt, alloc, request)?;
        }
        Ok(counted)
    }

    /// Runs a round until it has ended or no reply counts.
    fn run_round(&mut self, rt: &impl Wait, alloc: Global) -> Result<(), NoMemory> {
        for _ in rt.forever() {
            if !self.take_step(rt, alloc)? || self.follower.mirror().is_idle() {
                break;
            }
        }
        Ok(())
    }

    /// Runs a round whenever the head word has risen, until the last change was made.
    ///
    /// Returns the position after that change, or `None` if nobody says it.
    fn keep_up<R: Wait + Clock>(
        &mut self,
        rt: &R,
        alloc: Global,
    ) -> Result<Option<Position>, NoMemory> {
        let pause = Duration::from_millis(PAUSE);
        let mut seen = 0;
        let mut last = None;
        for _ in rt.forever() {
            let head = self.watch.load();
            if seen < head {
                seen = head;
                self.run_round(rt, alloc)?;
            }
            match self.last.recv_timeout(rt, pause) {
                Ok(position) => {
                    last = Some(position);
                    break;
                }
                Err(RecvTimeoutError::Timeout) => {}
                Err(RecvTimeoutError::Disconnected) => break,
            }
        }
        Ok(last)
    }

    /// Runs rounds until the mirror is at a position.
    fn catch_up(&mut self, rt: &impl Wait, alloc: Global, head: Position) -> Result<(), NoMemory> {
        for _ in 0..LAST_ROUNDS {
            if self.follower.mirror().position() == Some(head) {
                break;
            }
            self.run_round(rt, alloc)?;
        }
        Ok(())
    }

    /// Follows until the last change.
    pub(crate) fn run<R: Wait + Clock>(self, rt: &R, alloc: Global) -> Result<Follower, NoMemory> {
        let mut following = self;
        if let Some(head) = following.keep_up(rt, alloc)? {
            following.catch_up(rt, alloc, head)?;
        }
        let Following { follower, .. } = following;
        Ok(follower)
    }
}
