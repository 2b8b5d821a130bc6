//! What answers requests and makes changes.

ghost use Rattle.std.specs.Prelude.{◌≡◌, ℕ, List, Option, true, IfOk, OnOk, OnErr};
ghost use Rattle.eden_objects.specs.Objects.{Held};
ghost use Rattle.eden_objects.specs.Commits.{commit_map};
ghost use Rattle.eden_history.specs.declared.answer.Answer.{Answer};
ghost use Rattle.eden_history.specs.declared.change.Change.{Change};
ghost use Rattle.eden_messages.specs.declared.message.Request.{Request};
ghost use Rattle.eden_history.specs.Legal.{IsSomeWorld};
ghost use Rattle.eden_history.specs.Spellable.{IsSpellable};
ghost use Rattle.eden_history.specs.Worlds.{WorldState};
ghost use Rattle.eden_query.specs.declared.raw.Raw.{Raw};
ghost use Rattle.eden_messages.specs.Replies.{reply_of};
ghost use Rattle.eden_history.specs.Outcome.{answer_of, world_after};
ghost use Rattle.eden_query.specs.Raws.{NamesCommits, is_answerable, patterns_of, told, wanted_told};
ghost use Rattle.eden_query.specs.Servers.{raised};
ghost use Rattle.eden_logs.specs.Histories.{settled_of};
ghost use Rattle.eden_query.specs.Settled.{settled};
ghost use Rattle.eden_wire.specs.declared.question.Wants.{Wants};
ghost use Rattle.eden_wire.specs.Wanted.{wanted_of};

use crate::raw::Raw;
use eden_history::{Answer, Change};
use eden_ids::{Naming, NoMemory};
use eden_messages::Request;
use eden_objects::Store;

/// A server of requests and changes: the present of some history of a mount.
///
/// Each call names its caller by a number, which a server may note.
pub trait Served<N: Naming + Drop> {
    // The worlds whose present it is.
    ghost stands_for: { Self → WorldState → Type 0 };

    // Each is a world, and each reply that it gives has a spelling.
    ghost spelled: { (server : Self) (world : WorldState) → stands_for server world → IsSomeWorld world × IsSpellable world };

    // The objects that it has.
    ghost held: { Self → List Held };

    // The length of its stored history, if it stores one.
    ghost stored: { Self → Option ℕ };

    // The caller made the change and got the answer, which took the server from the first state
    // to the second. If the server stores a history, this says which entry was added.
    ghost apply_gives: { Self → ℕ → Change → Answer → Self → Type 0 };

    // The same of a request and of what was held for it.
    ghost hold_gives: { Self → ℕ → Request → Raw → Self → Type 0 };

    /// Returns the objects, without an allocation.
    fn store(&self) -> &Store<N>
        ensures held { result.now ≡ held self.now }
        ensures worlds { (world : WorldState) → stands_for self.now world → held self.now ≡ world.held };

    /// Returns the number of entries of the stored history, without an allocation.
    ///
    /// It is `None` if the server stores no history.
    fn taken(&self) -> Option<u64>
        ensures { result ≡ stored self.now };

    /// Holds what a request asks for, with a copy of the store.
    ///
    /// `answer_request` makes the reply of the two, whatever the server is asked in between, and
    /// `append_answer` the frame of what else is wanted.
    /// `NoMemory` if an allocation fails. Then nothing has changed.
    fn hold(&mut self, caller: u64, request: &Request) -> Result<(Raw, Store<N>), NoMemory>
        // There is such a world.
        ensures world { (world : WorldState) × stands_for self.old world }
        ensures replies { IfOk result (λ given. (world : WorldState) → stands_for self.old world
            → told (held self.old) (patterns_of request.now) given.0 ≡ reply_of world request.now) }
        // What else is said of it is what each such world says.
        ensures wanted { IfOk result (λ given. (world : WorldState) → stands_for self.old world → (wants : Wants)
            → wanted_told N.id (held self.old) (patterns_of request.now) wants given.0 ≡ wanted_of N.id world wants request.now) }
        ensures settled { IfOk result (λ given. (world : WorldState) → stands_for self.old world → settled given.0 ≡ settled_of world request.now) }
        // Each commit that it names is there, so the reply can be made.
        ensures commits { IfOk result (λ given. NamesCommits (commit_map (held self.old)) given.0) }
        ensures answerable { IfOk result (λ given. is_answerable (commit_map (held self.old)) given.0 ≡ true) }
        ensures objects { IfOk result (λ given. given.1 ≡ held self.old) }
        ensures stands { (world : WorldState) → stands_for self.old world → stands_for self.new world }
        ensures held { held self.new ≡ held self.old }
        ensures given { IfOk result (λ given. hold_gives self.old caller request.now given.0 self.new) }
        ensures noted { OnOk result (stored self.new ≡ raised (stored self.old)) }
        ensures unchanged { OnErr result (self.new ≡ self.old) };

    /// Makes a change, and returns its answer.
    ///
    /// The answer is the position after the change, with the conflicts of a checkout, or why the
    /// change is refused. `NoMemory` if an allocation fails. Then nothing has changed.
    fn apply(&mut self, caller: u64, change: &Change) -> Result<Answer, NoMemory>
        ensures world { (world : WorldState) × stands_for self.old world }
        ensures answer { IfOk result (λ answer. (world : WorldState) → stands_for self.old world → answer ≡ answer_of N.id world change.now) }
        ensures stands { OnOk result ((world : WorldState) → stands_for self.old world → stands_for self.new (world_after N.id world change.now)) }
        ensures given { IfOk result (λ answer. apply_gives self.old caller change.now answer self.new) }
        ensures noted { OnOk result (stored self.new ≡ raised (stored self.old)) }
        ensures unchanged { OnErr result (self.new ≡ self.old) };
}
