//! A bell that wakes threads which wait for a change.

use std::sync::{Condvar, Mutex, Wait};
use std::time::{Clock, Duration};

/// How often a bell has rung, and whether its waits are ended.
#[derive(Clone, Copy, Drop)]
struct Rung {
    times: u64,
    ended: bool,
}

/// How a wait for a bell ended.
#[derive(Clone, Copy, PartialEq, Eq, Drop)]
pub(crate) enum Heard {
    /// It rang.
    Ring,
    /// It did not ring in that time.
    Nothing,
    /// Its waits are ended.
    End,
}

/// A bell that threads ring, and for which others wait.
///
/// Its rings are counted. So none is missed between a look at what it rings for and a wait.
#[derive(Drop)]
pub(crate) struct Bell {
    rung: Mutex<Rung>,
    rings: Condvar,
}

impl Bell {
    /// Makes a bell that has not rung yet. Nothing is allocated.
    pub(crate) fn new() -> Bell {
        let rung = Rung {
            times: 0,
            ended: false,
        };
        Bell {
            rung: Mutex::new(rung),
            rings: Condvar::new(),
        }
    }

    /// Returns how often it has rung.
    pub(crate) fn times(&self, rt: &impl Wait) -> u64 {
        self.rung.lock(rt).times
    }

    /// Counts one more ring, and wakes all that wait.
    pub(crate) fn ring(&self, rt: &impl Wait) {
        let mut rung = self.rung.lock(rt);
        rung.times = rung.times.wrapping_add(1);
        drop(rung);
        self.rings.notify_all();
    }

    /// Ends all waits, also later ones.
    pub(crate) fn end(&self, rt: &impl Wait) {
        let mut rung = self.rung.lock(rt);
        rung.ended = true;
        drop(rung);
        self.rings.notify_all();
    }

    /// Waits until it has rung more often than this, but no longer than a time.
    pub(crate) fn wait<R: Wait + Clock>(&self, rt: &R, times: u64, longest: Duration) -> Heard {
        let rung = self.rung.lock(rt);
        let (rung, _) = self.rings.wait_timeout_while(rt, rung, longest, |rung| {
            rung.times == times && !rung.ended
        });
        if rung.ended {
            Heard::End
        } else if rung.times == times {
            Heard::Nothing
        } else {
            Heard::Ring
        }
    }
}
