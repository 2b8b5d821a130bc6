//! Devices that end once a flag is set.

ghost use Rattle.std.specs.Prelude.{◌≡◌, IsErr};
ghost use Rattle.std.specs.Bool.{OnTrue};

use std::io;
use std::io::{Error, ErrorKind, Read, Write};
use std::sync::Wait;
use std::sync::atomic::{AtomicBool, Ordering};

/// A device whose reads and writes end once a flag is set.
///
/// A read then returns no byte, as at the end of an input, and a write returns `TimedOut`. Until
/// then `WouldBlock` and `TimedOut` of the device are no answer: it is asked again, which counts as
/// no call. A socket with timeouts returns one of them again and again while it waits. So it ends
/// soon after the flag is set, whatever its peer does.
#[derive(Drop)]
pub struct Stoppable<'a, D, R: Wait> {
    rt: &'a R,
    stopped: &'a AtomicBool,
    device: D,
}

/// Returns whether the device would have had to wait longer.
fn has_waited(outcome: &io::Result<usize>) -> bool
    ensures { OnTrue result (IsErr outcome.now) }
{
    match outcome {
        Ok(_) => false,
        Err(error) => matches!(error.kind(), ErrorKind::WouldBlock | ErrorKind::TimedOut),
    }
}

impl<'a, D, R: Wait> Stoppable<'a, D, R> {
    /// Wraps a device, so that it ends once `stopped` is set.
    pub fn new(rt: &'a R, stopped: &'a AtomicBool, device: D) -> Stoppable<'a, D, R>
        ensures { result.device ≡ device }
    {
        Stoppable {
            rt,
            stopped,
            device,
        }
    }

    /// Returns true if the flag is set.
    fn is_stopped(&self) -> bool {
        self.stopped.load(Ordering::SeqCst)
    }
}

impl<'a, D: Read, R: Wait> Read for Stoppable<'a, D, R> {
    fn read(&mut self, buf: &mut [u8]) -> io::Result<usize> {
        for _ in self.rt.forever() {
            if self.is_stopped() {
                return Ok(0);
            }
            let outcome = self.device.read(buf);
            if !has_waited(&outcome) {
                return outcome;
            }
        }
        unreachable!()
    }
}

impl<'a, D: Write, R: Wait> Write for Stoppable<'a, D, R> {
    ghost contents = { λ stoppable. D.contents stoppable.device };

    #[tactic(auto, using(crate::proofs::Kept::keeps_at_first, crate::proofs::Kept::writes_on, crate::proofs::Kept::fails_on))]
    fn write(&mut self, buf: &[u8]) -> io::Result<usize> {
        for _ in self.rt.forever() {
            if self.is_stopped() {
                return Err(Error::from(ErrorKind::TimedOut));
            }
            let outcome = self.device.write(buf);
            if !has_waited(&outcome) {
                return outcome;
            }
        }
        unreachable!()
    }

    fn flush(&mut self) -> io::Result<()> {
        self.device.flush()
    }
}
