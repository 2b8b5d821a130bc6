//! A server behind a lock, of which nothing is logged.

ghost use Rattle.std.specs.Prelude.{◌≡◌, ℕ, ◌+◌, ◌≤◌, true, IfErr, IfOk, OnErr, OnOk};
ghost use Rattle.eden_history.specs.Worlds.{WorldState};
ghost use Rattle.eden_messages.specs.Spells.{SpellsReply, reply_bytes};
ghost use Rattle.eden_objects.specs.Commits.{commit_map};
ghost use Rattle.eden_query.specs.Raws.{NamesCommits, is_answerable};
ghost use Rattle.eden_shared.specs.Gives.{IsHeld, IsMade, IsTold};
ghost use Rattle.eden_shared.specs.Reached.{IsReached};

use crate::bell::Bell;
use crate::origin::Origin;
use crate::pass::{Pass, Passes};
use crate::patience::{Peer, Waiting, names_nothing};
use eden_history::{Answer, Change};
use eden_ids::{Naming, NoMemory};
use eden_messages::{Reply, Request};
use eden_objects::Store;
use eden_query::{Raw, Served, answer_request};
use std::error::Error;
use std::fmt;
use std::marker::PhantomData;
use std::sync::ledger::{Blank, Book, Ledger};
use std::sync::{Mutex, Wait};
use std::time::{Clock, Duration};

/// As which caller the server is asked and changed. Nothing says who called.
const CALLER: u64 = 0;

/// How many passes a lock has of which nothing is logged.
const MOST_PASSES: u64 = 2047;

/// What was held for a request under the lock.
#[derive(Drop)]
pub struct Holding<N: Naming + Drop> {
    /// What the request asks for.
    pub raw: Raw,
    /// The objects of then. With them, `eden_query::answer_request` makes the reply, and
    /// `eden_query::append_answer` what else is wanted.
    pub store: Store<N>,
    // They have every commit that it names, so that it can be answered.
    pub ghost commits: { ∥ NamesCommits (commit_map store) raw ∥₁ },
    pub ghost answerable: { is_answerable (commit_map store) raw ≡ true },
}

/// What is under the lock: the server, and a count of its changes that takes no bytes.
///
/// No pass is here, so that nothing can be counted but by a caller's own.
#[derive(Drop)]
struct Tallied<N: Naming + Drop, T: Served<N>, L: Origin> {
    naming: PhantomData<N>,
    object: T,
    book: Book<L>,
    // The server is what exactly as many changes have made of its opening worlds.
    ghost reached: { IsReached N.id T.stands_for L.opens book.total object },
}

impl<N: Naming + Drop, T: Served<N>, L: Origin> Tallied<N, T, L> {
    /// Makes a change, and counts it in a pass.
    fn change(&mut self, pass: &mut Pass<L>, change: &Change) -> Result<Answer, NoMemory>
        ensures caller { pass.new.caller ≡ pass.old.caller }
        ensures share { OnOk result (pass.new.amount ≡ pass.old.amount + 1) }
        ensures least { OnOk result (pass.old.amount ≤ self.old.book.total) }
        ensures total { OnOk result (self.new.book.total ≡ self.old.book.total + 1) }
        ensures made { IfOk result (λ answer. IsMade (IsReached N.id T.stands_for L.opens) N.id T.stands_for T.apply_gives
            0 self.old.book.total change.now answer) }
        ensures unchanged { OnErr result ((pass.new ≡ pass.old) × (self.new.object ≡ self.old.object)) }
    {
        let Tallied { object, book, .. } = self;
        let answer = object.apply(CALLER, change)?;
        book.audit(&mut pass.share);
        book.add(&mut pass.share, 1);
        Ok(answer)
    }

    /// Holds what a request asks for. No change is made, and none is counted.
    #[tactic(auto, using(crate::proofs::Reaching::holds_reach))]
    fn hold(&mut self, request: &Request) -> Result<Holding<N>, NoMemory>
        ensures total { self.new.book.total ≡ self.old.book.total }
        ensures stands { (world : WorldState) → T.stands_for self.old.object world → T.stands_for self.new.object world }
        ensures held { IfOk result (λ holding. IsHeld (IsReached N.id T.stands_for L.opens) N.id T.stands_for T.held T.hold_gives
            0 self.old.book.total request.now holding.raw holding.store) }
        ensures unchanged { OnErr result (self.new.object ≡ self.old.object) }
    {
        let (raw, store) = self.object.hold(CALLER, request)?;
        Ok(Holding { raw, store })
    }
}

/// A server that any number of threads ask and change, one call at a time, and of which nothing is
/// logged.
///
/// It is no larger than the server and a lock, whatever was called. A caller that changes it has a
/// pass, which counts the changes. A caller that only asks needs none.
#[derive(Drop)]
pub struct Unlogged<N: Naming + Drop, T: Served<N>, L: Origin> {
    held: Mutex<Tallied<N, T, L>>,
    /// Rings after each change.
    changed: Bell,
}

/// Not all passes of a lock came back.
///
/// The lock and the passes are unchanged.
#[derive(Drop)]
pub struct PassOut<N: Naming + Drop, T: Served<N>, L: Origin> {
    /// The lock.
    pub unlogged: Unlogged<N, T, L>,
    /// The passes that came back, or were not given.
    pub passes: Passes<L>,
}

impl<N: Naming + Drop, T: Served<N>, L: Origin> fmt::Debug for PassOut<N, T, L> {
    fn fmt<W: fmt::Write>(&self, f: &mut fmt::Formatter<W>) -> fmt::Result {
        write!(f, "PassOut")
    }
}

impl<N: Naming + Drop, T: Served<N>, L: Origin> fmt::Display for PassOut<N, T, L> {
    fn fmt<W: fmt::Write>(&self, f: &mut fmt::Formatter<W>) -> fmt::Result {
        write!(f, "a pass is still out")
    }
}

impl<N: Naming + Drop, T: Served<N> + Drop, L: Origin> Error for PassOut<N, T, L> {}

impl<N: Naming + Drop, T: Served<N>, L: Origin> Unlogged<N, T, L> {
    /// Puts a server behind a lock, and returns the lock and its passes.
    ///
    /// The server stands for each of the worlds that `L` names. The blank becomes the ledger of its
    /// changes, with 2,048 parts: one for each of 2,047 passes, and one that is never given. Nothing
    /// is allocated.
    #[tactic(auto, using(crate::proofs::Reaching::begins_reached))]
    pub fn new(object: T, blank: Blank) -> (Unlogged<N, T, L>, Passes<L>)
        requires opens { (world : WorldState) → L.opens world → T.stands_for object world }
        requires name { blank.name ≡ L.name }
        requires parts { blank.parts ≡ L.parts }
        requires whole { blank.parts ≡ 2048 }
        ensures { result.1 ≡ record { most = 2047; given = 0; back = 0; amount = 0 } }
    {
        let (book, rest) = blank.open::<L>();
        let held = Mutex::new(Tallied {
            naming: PhantomData,
            object,
            book,
        });
        let changed = Bell::new();
        (Unlogged { held, changed }, Passes::new(rest, MOST_PASSES))
    }

    /// Makes a change, in one hold of the lock, and then wakes those that wait for one.
    ///
    /// Returns what `Served::apply` answers. It is right of what exactly some number of changes
    /// have made of the server, and all that the pass counts are among them. `NoMemory` if an
    /// allocation fails. Nothing has changed then.
    pub fn change(
        &self,
        rt: &impl Wait,
        pass: &mut Pass<L>,
        change: &Change,
    ) -> Result<Answer, NoMemory>
        ensures caller { pass.new.caller ≡ pass.old.caller }
        ensures share { OnOk result (pass.new.amount ≡ pass.old.amount + 1) }
        ensures made { IfOk result (λ answer. (number : ℕ) × (pass.old.amount ≤ number)
            × IsMade (IsReached N.id T.stands_for L.opens) N.id T.stands_for T.apply_gives 0 number change.now answer) }
        ensures unchanged { OnErr result (pass.new ≡ pass.old) }
    {
        let answer = self.held.lock(rt).change(pass, change)?;
        self.changed.ring(rt);
        Ok(answer)
    }

    /// Holds what a request asks for and the objects, in one hold of the lock.
    ///
    /// Returns what `Served::hold` gives. The reply is made of the two without the lock, whatever
    /// is changed meanwhile. No change is made. `NoMemory` if an allocation fails.
    pub fn hold(&self, rt: &impl Wait, request: &Request) -> Result<Holding<N>, NoMemory>
        ensures { IfOk result (λ holding. (number : ℕ) × IsHeld (IsReached N.id T.stands_for L.opens) N.id T.stands_for T.held T.hold_gives
            0 number request.now holding.raw holding.store) }
    {
        self.held.lock(rt).hold(request)
    }

    /// Returns the reply to a request, as it was when the request was held.
    ///
    /// The reply is made without the lock. No change is made. `NoMemory` if an allocation fails.
    pub fn ask(&self, rt: &impl Wait, request: &Request) -> Result<Reply, NoMemory>
        ensures told { IfOk result (λ reply. (number : ℕ) × IsTold (IsReached N.id T.stands_for L.opens) T.stands_for T.held T.hold_gives
            0 number request.now reply) }
        ensures spelled { IfOk result (λ reply. SpellsReply (reply_bytes reply) reply) }
    {
        let Holding { raw, store, .. } = self.hold(rt, request)?;
        answer_request(store.allocator(), raw, &store, request)
    }

    /// Returns the reply to a request as `ask` does, at one moment of the call.
    ///
    /// A poll whose reply names no path and no prefix is asked again after each change, until a
    /// reply names one or is a refusal. The last reply is returned when the patience is up, when
    /// `end_patience` is called, and about a second after the peer is gone. Any other request is
    /// asked once. The thread sleeps between two changes. No clause says that it waits or ends.
    /// `NoMemory` if an allocation fails.
    pub fn ask_patiently<R: Wait + Clock, P: Peer>(
        &self,
        rt: &R,
        request: &Request,
        patience: Duration,
        peer: &P,
    ) -> Result<Reply, NoMemory>
        ensures told { IfOk result (λ reply. (number : ℕ) × IsTold (IsReached N.id T.stands_for L.opens) T.stands_for T.held T.hold_gives
            0 number request.now reply) }
        ensures spelled { IfOk result (λ reply. SpellsReply (reply_bytes reply) reply) }
    {
        let waiting = Waiting::begin(rt, patience, peer);
        for _ in rt.forever() {
            // Before the request is asked, so that no change is missed between that and the wait.
            let times = self.changed.times(rt);
            let reply = self.ask(rt, request)?;
            if !names_nothing(&reply) || !waiting.hears(rt, &self.changed, times) {
                return Ok(reply);
            }
        }
        unreachable!()
    }

    /// Ends the patience of all requests, also of later ones. They are answered at once.
    pub fn end_patience(&self, rt: &impl Wait) {
        self.changed.end(rt);
    }

    /// Returns the server, once all passes are back.
    ///
    /// It is what exactly the changes that the passes count have made of its opening worlds.
    /// `PassOut` if a pass is still out. Nothing is allocated.
    pub fn finish(self, passes: Passes<L>) -> Result<T, PassOut<N, T, L>>
        ensures reached { IfOk result (λ object. IsReached N.id T.stands_for L.opens passes.amount object) }
        ensures back { IfOk result (λ object. passes.back ≡ passes.given) }
        ensures missing { IfErr result (λ fault. (fault.passes ≡ passes) × (passes.back ≡ passes.given → ⊥)) }
    {
        if passes.out() > 0 {
            return Err(PassOut {
                unlogged: self,
                passes,
            });
        }
        let Unlogged { held, .. } = self;
        let Tallied {
            object,
            mut book,
            ..
        } = held.into_inner();
        let mut passes = passes;
        passes.show_total(&mut book);
        Ok(object)
    }
}
