//! What goes wrong beside the replies, which ends nothing but itself.

use eden_history::{Change, ChangeFault};
use eden_stream::FrameFault;

/// Hears what goes wrong while a mount is served, from any thread.
pub trait Observer {
    /// Hears that a change that a line after `listen` asked for was refused.
    fn change_refused(&self, change: &Change, fault: ChangeFault);

    /// Hears that the line of this number, after `listen`, can't be read.
    fn line_refused(&self, number: u64);

    /// Hears that a connection has ended at the frame of this number, which can't be answered.
    fn frame_refused(&self, number: u64, fault: FrameFault);

    /// Hears that a connection has ended since its peer was slower than the limit.
    fn peer_late(&self);

    /// Hears that a connection has ended since no place was free for it within the limit.
    fn turned_away(&self);

    /// Hears that each place has a connection, so that the next one waits.
    fn places_taken(&self);
}

/// An observer that does nothing.
#[derive(Clone, Copy, Debug, Drop)]
pub struct Unobserved;

impl Observer for Unobserved {
    fn change_refused(&self, _change: &Change, _fault: ChangeFault) {}

    fn line_refused(&self, _number: u64) {}

    fn frame_refused(&self, _number: u64, _fault: FrameFault) {}

    fn peer_late(&self) {}

    fn turned_away(&self) {}

    fn places_taken(&self) {}
}
