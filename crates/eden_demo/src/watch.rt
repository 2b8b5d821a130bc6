//! A thread's view of the head word.

ghost use Rattle.std.specs.Prelude.{◌≡◌};
ghost use Rattle.std.specs.Arc.{arc_value};

use eden_ids::NoMemory;
use eden_shared::{HeadSeat, HeadWord};
use std::alloc::Global;
use std::sync::Arc;

/// Holds the head word, with a seat of its own.
#[derive(Drop)]
pub(crate) struct Watch {
    word: Arc<HeadWord, Global>,
    seat: HeadSeat,
    // The seat is the word's.
    ghost own: { seat.word ≡ arc_value word },
}

impl Watch {
    /// Returns the first view of a new head word.
    pub(crate) fn new(alloc: Global) -> Result<Watch, NoMemory> {
        let (word, seat) = HeadWord::new(alloc)?;
        let word = Arc::new(alloc, word)?;
        Ok(Watch { word, seat })
    }

    /// Returns one more view, for another thread.
    pub(crate) fn split(&mut self) -> Result<Watch, NoMemory> {
        let word = Arc::try_clone(&self.word)?;
        let seat = self.word.split(&mut self.seat);
        Ok(Watch { word, seat })
    }

    /// Returns the head word's number.
    pub(crate) fn load(&mut self) -> u64 {
        self.word.load(&mut self.seat)
    }

    /// Raises the head word's number to a ticket.
    pub(crate) fn raise(&mut self, ticket: u64) {
        self.word.raise(&mut self.seat, ticket);
    }
}
