//! How far the contents of a list have come, shown while they come.

ghost use Rattle.std.specs.Prelude.{◌≡◌, ◌-◌, ◌⊎◌, nat_le, true, IfSome, IfNone, IsSome, None};
ghost use Rattle.std.specs.Time.{instant_nanos};

use std::io::Write;
use std::time::{Clock, Duration, Instant};

/// The least time between two lines, in milliseconds.
const PAUSE: u64 = 100;

/// Hears how far a round has come.
///
/// No clause binds these calls. What rounds return does not depend on them, and each implementation
/// may do what it likes.
pub trait Progress {
    /// Hears that one more content has come: the `came`-th of the `named` that the round's lists
    /// have named.
    fn advance(&mut self, came: u64, named: u64);

    /// Hears that nothing more will come.
    fn finish(&mut self);
}

/// Shows nothing.
#[derive(Clone, Copy, Debug)]
pub struct Quiet;

impl Progress for Quiet {
    fn advance(&mut self, _came: u64, _named: u64) {}

    fn finish(&mut self) {}
}

/// Shows a line such as `follow: 1200 of 100000 paths` on a terminal.
///
/// The line is written again at most ten times a second, and cleared in the end. Write errors are
/// ignored. Nothing is written if the clock can't be read.
#[derive(Drop)]
pub struct Shown<E: Write, C: Clock> {
    errors: E,
    clock: C,
    /// When the line was written last, if it is there.
    last: Option<Instant>,
}

impl<E: Write, C: Clock> Shown<E, C> {
    /// Returns what shows the line on a terminal, by a clock.
    pub fn new(errors: E, clock: C) -> Shown<E, C>
        ensures errors { result.errors ≡ errors }
        ensures clock { result.clock ≡ clock }
        ensures unshown { result.last ≡ None }
    {
        Shown {
            errors,
            clock,
            last: None,
        }
    }

    /// Returns whether the line may be written at a time.
    fn is_due(&self, now: Instant) -> bool
        ensures later { IfSome self.now.last (λ last. result ≡ nat_le 100000000 (instant_nanos now - instant_nanos last)) }
        ensures first { IfNone self.now.last (result ≡ true) }
    {
        match self.last {
            None => true,
            Some(last) => now.duration_since(last) >= Duration::from_millis(PAUSE),
        }
    }
}

impl<E: Write, C: Clock> Progress for Shown<E, C> {
    // When it writes depends on the clock, which no clause can name.
    fn advance(&mut self, came: u64, named: u64)
        ensures shown { (self.new ≡ self.old) ⊎ IsSome self.new.last }
    {
        let Ok(now) = Instant::now(&self.clock) else {
            return;
        };
        if self.is_due(now) {
            self.last = Some(now);
            let _ = write!(self.errors, "\rfollow: {came} of {named} paths\x1b[K");
        }
    }

    fn finish(&mut self)
        ensures cleared { self.new.last ≡ None }
        ensures unshown { self.old.last ≡ None → self.new ≡ self.old }
    {
        if self.last.is_some() {
            self.last = None;
            let _ = write!(self.errors, "\r\x1b[K");
        }
    }
}
