//! How a stream is cut into items while it comes.
ghost use Rattle.std.specs.Prelude.{◌≤◌, ℕ, List, length};

use super::buffer::Buffer;

/// What the held bytes begin with.
#[derive(Clone, Copy)]
pub enum Next<E> {
    /// An item, which has `size` bytes from `place` on, and ends where `whole`
    /// bytes do.
    Item {
        place: usize,
        size: usize,
        whole: usize,
    },

    /// An item that asks for no answer, of this many bytes.
    Skipped(usize),

    /// No item that is all there.
    Partial,

    /// Bytes that can't become an item.
    Faulty(E),
}

/// A way of cutting a stream into items.
pub trait Framing<E: Copy> {
    ghost use Rattle.eden_stream.specs.Grammars.{Finds, Grammar, IsGrammar};

    // What the items are.
    ghost grammar: { Grammar E };

    /// Returns what the held bytes begin with. `ended` says that no
    /// more come. It may let bytes go that no item needs.
    fn next(held: &mut Buffer, ended: bool) -> Next<E>
        ensures finds { Finds grammar ended held.new result }
        ensures kept { (stream : List ℕ) (items : List (List ℕ)) → grammar.cut ended stream items held.old → grammar.cut ended stream items held.new }
        ensures room { length held.new ≤ length held.old };

    // It starts with no item, keeps what comes, and takes the end as it is.
    ghost lawful: { IsGrammar grammar };
}
