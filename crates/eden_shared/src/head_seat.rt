//! What one thread has seen of a head word.

use atomic_table::Seat;
use std::marker::Model;

/// Says what one thread has seen of a head word: the greatest number that it has loaded or raised
/// there.
///
/// It belongs to one word, takes no memory, and can go to another thread. `HeadWord::new` gives the
/// first seat of a word and `HeadWord::split` each further one. There is no limit. One that is no
/// longer wanted is joined into another, or dropped.
#[derive(Drop)]
pub struct HeadSeat {
    pub(crate) seat: Seat<(), u64>,
}

impl Model for HeadSeat {
    ghost use Rattle.std.specs.Prelude.{◌≡◌, []};
    ghost use Rattle.eden_shared.specs.Seats.{SeatView};

    ghost Value = { SeatView };

    ghost view = { λ s. record { word = s.seat.table_id; seen = s.seat.me.0 } };

    ghost invariant = { λ s. s.seat.me.1 ≡ [] };
}
