//! A number that threads share, and that only rises.

ghost use Rattle.std.specs.Prelude.{◌≡◌, ◌≤◌, max, IfOk};

use crate::head_seat::HeadSeat;
use crate::head_steps::{Forks, Keeps, Loading, Raising, Rising};
use atomic_table::Table;
use eden_ids::NoMemory;
use std::alloc::Global;
use std::marker::Model;

/// A number that threads share, and that only rises.
///
/// It is 0 at first, and then the greatest number that any seat has raised. Each call is one atomic
/// step. After each the number is at least what any seat has loaded or raised. No clause says how
/// high it is. A seat is used with the word that it was made for, which is a condition of each
/// call. In a clause a word is its own identity.
#[derive(Drop)]
pub struct HeadWord {
    table: Table<(), u64, (), Rising, Global>,
}

impl Model for HeadWord {
    ghost use Rattle.std.specs.Prelude.{◌≡◌};
    ghost use Rattle.atomic_table.specs.Seated.{TableId, table_id_coded};

    ghost Value = { TableId };

    ghost coded = { table_id_coded };

    ghost view = { λ w. w.table.shared.table_id };

    ghost invariant = { λ w. w.table.shared.table_id.words ≡ 1 };
}

impl HeadWord {
    /// Makes a word that holds 0, and its first seat.
    ///
    /// `NoMemory` if an allocation fails.
    pub fn new(alloc: Global) -> Result<(HeadWord, HeadSeat), NoMemory>
        ensures own { IfOk result (λ made. made.1.word ≡ made.0) }
        ensures fresh { IfOk result (λ made. made.1.seen ≡ 0) }
    {
        let (table, seat) = Table::of_words(alloc, &[0], &())?;
        Ok((HeadWord { table }, HeadSeat { seat }))
    }

    /// Makes one more seat of the word, which has seen what this seat has.
    ///
    /// Nothing is allocated.
    #[tactic(auto, using(crate::proofs::HeadLemmas::forks))]
    pub fn split(&self, seat: &mut HeadSeat) -> HeadSeat
        requires own { seat.old.word ≡ self.now }
        ensures same { result ≡ seat.old }
        ensures kept { seat.new ≡ seat.old }
    {
        let seat = self.table.shared.split_seat::<Forks>(&mut seat.seat);
        HeadSeat { seat }
    }

    /// Takes a seat back.
    ///
    /// The other seat has seen what it had before, and nothing more. Nothing is allocated.
    #[tactic(auto, using(crate::proofs::HeadLemmas::joins))]
    pub fn join(&self, seat: &mut HeadSeat, spent: HeadSeat)
        requires own { seat.old.word ≡ self.now }
        requires spent { spent.word ≡ self.now }
        ensures kept { seat.new ≡ seat.old }
    {
        let HeadSeat { seat: spent } = spent;
        self.table.shared.join_seat::<Keeps>(&mut seat.seat, spent);
    }

    /// Returns the number.
    ///
    /// It is never below one that the seat has loaded or raised. Nothing is allocated, and no other
    /// seat changes.
    pub fn load(&self, seat: &mut HeadSeat) -> u64
        requires own { seat.old.word ≡ self.now }
        ensures risen { seat.old.seen ≤ result }
        ensures seen { seat.new.seen ≡ result }
        ensures word { seat.new.word ≡ seat.old.word }
    {
        self.table.shared.load::<Loading>(&mut seat.seat, 0)
    }

    /// Raises the number to a ticket, if it is lower.
    ///
    /// Nothing is allocated, and no other seat changes.
    pub fn raise(&self, seat: &mut HeadSeat, ticket: u64)
        requires own { seat.old.word ≡ self.now }
        ensures seen { seat.new.seen ≡ max seat.old.seen ticket }
        ensures word { seat.new.word ≡ seat.old.word }
    {
        self.table
            .shared
            .fetch_max::<Raising>(&mut seat.seat, 0, ticket);
    }
}
