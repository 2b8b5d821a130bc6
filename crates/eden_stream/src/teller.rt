//! What answers the items of a stream.
ghost use Rattle.std.specs.Prelude.{ℕ, List, ◌++◌};

use super::framing::Framing;

/// What a server made of an item.
#[derive(Clone, Copy)]
pub enum Step<E> {
    /// It was answered, and what that prints is at the text's end.
    Told,

    /// It can't be answered.
    Fault(E),

    /// An allocation failed. The text may have grown.
    NoMemory,
}

/// Answers the items of a stream for a server, which each answer may change.
pub trait Teller<F: Framing<E>, T, E: Copy> {
    ghost use Rattle.eden_stream.specs.Stories.{IsStory, Story, Tells};

    // What can be said of the server, by what it was first and what it is now.
    ghost story: { Self → T → T → Story E };

    /// Answers one item, and appends what it prints to `text`.
    fn answer(&self, server: &mut T, item: &[u8], text: &mut Vec<u8>) -> Step<E>
        requires { F.grammar.item item.now }
        ensures { (before : T) (items : List (List ℕ)) (sent : List ℕ) → (story self.now before server.old).told items (sent ++ text.old.items)
            → Tells (story self.now before server.new) items sent item.now text.old.items text.new.items result };

    // An item that asks for no answer changes nothing.
    ghost lawful: { (teller : Self) (before now : T) → IsStory F.grammar (story teller before now) };
}
