//! A server behind a lock.

ghost use Rattle.std.specs.Prelude.{◌≡◌, ◌+◌, ◌-◌, ◌<◌, ◌≤◌, Some, true, IfOk, IfErr, OnOk, OnErr};
ghost use Rattle.eden_history.specs.Outcome.{answer_of};
ghost use Rattle.eden_history.specs.Worlds.{WorldState};
ghost use Rattle.eden_messages.specs.Replies.{reply_of};
ghost use Rattle.eden_objects.specs.Commits.{commit_map};
ghost use Rattle.eden_query.specs.Raws.{NamesCommits, is_answerable, patterns_of, told, wanted_told};
ghost use Rattle.eden_wire.specs.declared.question.Wants.{Wants};
ghost use Rattle.eden_wire.specs.Wanted.{wanted_of};
ghost use Rattle.eden_shared.specs.Gives.{IsHeld, IsMade, IsTurnOf};
ghost use Rattle.eden_shared.specs.Passes.{made_by};
ghost use Rattle.eden_shared.specs.Reached.{IsDescended};

use crate::pass::{CallersSpent, Pass, Passes};
use eden_history::{Answer, Change};
use eden_ids::{Naming, NoMemory};
use eden_messages::Request;
use eden_objects::Store;
use eden_query::{Raw, Served};
use std::error::Error;
use std::fmt;
use std::marker::PhantomData;
use std::sync::ledger::{Blank, Book, Ledger};
use std::sync::{Mutex, Wait};

/// How many passes a lock has whose server stores its history.
const MOST_PASSES: u64 = 255;

/// What was held for a request under the lock, with the number of the call.
#[derive(Drop)]
pub struct Ticketed<N: Naming + Drop> {
    /// The number of the call, counted from 1 over the calls of all callers.
    pub ticket: u64,
    /// What the request asks for.
    pub raw: Raw,
    /// The objects of then. With them, `eden_query::answer_request` makes the reply, and
    /// `eden_query::append_answer` what else is wanted.
    pub store: Store<N>,
    // They have every commit that it names, so that it can be answered.
    pub ghost commits: { ∥ NamesCommits (commit_map store) raw ∥₁ },
    pub ghost answerable: { is_answerable (commit_map store) raw ≡ true },
}

/// What is under the lock: the server, how many calls it took, and the passes that no caller has.
#[derive(Drop)]
struct Locked<N: Naming + Drop, T: Served<N>, L: Ledger> {
    naming: PhantomData<N>,
    object: T,
    book: Book<L>,
    passes: Passes<L>,
    // The stored history has an entry for each call.
    ghost counted: { T.stored object ≡ Some book.total },
    ghost most: { passes.most ≡ 255 },
    // No pass is back yet, and all calls are of passes that are out.
    ghost none_back: { passes.back ≡ 0 },
    ghost unused: { passes.amount ≡ 0 },
    // The server descends by these calls from one of which nothing was asked.
    ghost descends: { IsDescended T.stored T.apply_gives T.hold_gives book.total object },
}

impl<N: Naming + Drop, T: Served<N>, L: Ledger> Locked<N, T, L> {
    /// Gives a pass to one more caller.
    fn pass(&mut self) -> Result<Pass<L>, CallersSpent>
        ensures pass { IfOk result (λ pass. pass ≡ record { caller = self.old.passes.given + 1; amount = 0 }) }
        ensures given { OnOk result (self.new.passes.given ≡ self.old.passes.given + 1) }
        ensures most { self.new.passes.given ≤ 255 }
        ensures spent { OnErr result (self.old.passes.given ≡ 255) }
    {
        self.passes.give()
    }

    /// Makes a caller's change, and counts it.
    fn change(&mut self, pass: &mut Pass<L>, change: &Change) -> Result<(u64, Answer), NoMemory>
        ensures caller { pass.new.caller ≡ pass.old.caller }
        ensures share { OnOk result (pass.new.amount ≡ pass.old.amount + 1) }
        ensures ticket { IfOk result (λ made. pass.new.amount ≤ made.0) }
        ensures stored { IfOk result (λ made. T.stored self.old.object ≡ Some (made.0 - 1)) }
        ensures world { (world : WorldState) × T.stands_for self.old.object world }
        ensures answer { IfOk result (λ made. (world : WorldState) → T.stands_for self.old.object world → made.1 ≡ answer_of N.id world change.now) }
        ensures given { IfOk result (λ made. T.apply_gives self.old.object pass.old.caller change.now made.1 self.new.object) }
        ensures unchanged { OnErr result (pass.new ≡ pass.old) }
    {
        let Locked { object, book, .. } = self;
        let answer = object.apply(pass.caller, change)?;
        book.add(&mut pass.share, 1);
        book.audit(&mut pass.share);
        let Some(ticket) = object.taken() else {
            // Its history is stored.
            unreachable!()
        };
        Ok((ticket, answer))
    }

    /// Holds what a caller's request asks for, and counts it.
    fn hold(&mut self, pass: &mut Pass<L>, request: &Request) -> Result<Ticketed<N>, NoMemory>
        ensures caller { pass.new.caller ≡ pass.old.caller }
        ensures share { OnOk result (pass.new.amount ≡ pass.old.amount + 1) }
        ensures ticket { IfOk result (λ ticketed. pass.new.amount ≤ ticketed.ticket) }
        ensures stored { IfOk result (λ ticketed. T.stored self.old.object ≡ Some (ticketed.ticket - 1)) }
        ensures world { (world : WorldState) × T.stands_for self.old.object world }
        ensures told { IfOk result (λ ticketed. (world : WorldState) → T.stands_for self.old.object world
            → told ticketed.store (patterns_of request.now) ticketed.raw ≡ reply_of world request.now) }
        ensures wanted { IfOk result (λ ticketed. (world : WorldState) → T.stands_for self.old.object world → (wants : Wants)
            → wanted_told N.id ticketed.store (patterns_of request.now) wants ticketed.raw ≡ wanted_of N.id world wants request.now) }
        ensures objects { IfOk result (λ ticketed. ticketed.store ≡ T.held self.old.object) }
        ensures given { IfOk result (λ ticketed. T.hold_gives self.old.object pass.old.caller request.now ticketed.raw self.new.object) }
        ensures unchanged { OnErr result (pass.new ≡ pass.old) }
    {
        let Locked { object, book, .. } = self;
        let (raw, store) = object.hold(pass.caller, request)?;
        book.add(&mut pass.share, 1);
        book.audit(&mut pass.share);
        let Some(ticket) = object.taken() else {
            // Its history is stored.
            unreachable!()
        };
        Ok(Ticketed { ticket, raw, store })
    }
}

/// A server that several callers ask and change, one call at a time.
///
/// The server stores its history. The ticket of a call is the number of its entry there.
#[derive(Drop)]
pub struct Shared<N: Naming + Drop, T: Served<N>, L: Ledger> {
    held: Mutex<Locked<N, T, L>>,
}

/// Not all passes of a lock were handed in.
///
/// The lock and the passes that were handed in are unchanged.
#[derive(Drop)]
pub struct PassMissing<N: Naming + Drop, T: Served<N>, L: Ledger> {
    /// The lock.
    pub shared: Shared<N, T, L>,
    /// The passes.
    pub passes: Vec<Pass<L>>,
}

impl<N: Naming + Drop, T: Served<N>, L: Ledger> fmt::Debug for PassMissing<N, T, L> {
    fn fmt<W: fmt::Write>(&self, f: &mut fmt::Formatter<W>) -> fmt::Result {
        write!(f, "PassMissing")
    }
}

impl<N: Naming + Drop, T: Served<N>, L: Ledger> fmt::Display for PassMissing<N, T, L> {
    fn fmt<W: fmt::Write>(&self, f: &mut fmt::Formatter<W>) -> fmt::Result {
        write!(f, "a pass is missing")
    }
}

impl<N: Naming + Drop, T: Served<N> + Drop, L: Ledger> Error for PassMissing<N, T, L> {}

impl<N: Naming + Drop, T: Served<N>, L: Ledger> Shared<N, T, L> {
    /// Puts a server behind a lock.
    ///
    /// Nothing was asked of the server yet. The blank becomes the ledger of its calls, with 256
    /// parts: one for each pass, and one that the lock keeps. Nothing is allocated. No clause can
    /// say what is behind the lock. What it keeps is said by its calls, and at the end by `finish`.
    #[tactic(auto, using(crate::proofs::Reaching::begins_descended))]
    pub fn new(object: T, blank: Blank) -> Shared<N, T, L>
        requires fresh { T.stored object ≡ Some 0 }
        requires name { blank.name ≡ L.name }
        requires parts { blank.parts ≡ L.parts }
        requires whole { blank.parts ≡ 256 }
    {
        let (book, rest) = blank.open::<L>();
        Shared {
            held: Mutex::new(Locked {
                naming: PhantomData,
                object,
                book,
                passes: Passes::new(rest, MOST_PASSES),
            }),
        }
    }

    /// Gives a pass to one more caller, under a number of its own: 1, 2 and so on.
    ///
    /// `CallersSpent` if 255 passes were given. Nothing is allocated. That no two passes have the
    /// same number is tested, since no clause sees two calls.
    pub fn pass(&self, rt: &impl Wait) -> Result<Pass<L>, CallersSpent>
        ensures caller { IfOk result (λ pass. (1 ≤ pass.caller) × (pass.caller ≤ 255)) }
        ensures unused { IfOk result (λ pass. pass.amount ≡ 0) }
    {
        self.held.lock(rt).pass()
    }

    /// Makes a change, in one hold of the lock.
    ///
    /// Returns the call's ticket, and what `Served::apply` answers. `NoMemory` if an allocation
    /// fails. No ticket is taken then.
    pub fn change(
        &self,
        rt: &impl Wait,
        pass: &mut Pass<L>,
        change: &Change,
    ) -> Result<(u64, Answer), NoMemory>
        ensures caller { pass.new.caller ≡ pass.old.caller }
        ensures share { OnOk result (pass.new.amount ≡ pass.old.amount + 1) }
        ensures ticket { IfOk result (λ made. pass.new.amount ≤ made.0) }
        ensures answer { IfOk result (λ made. IsMade (IsTurnOf T.stored) N.id T.stands_for T.apply_gives pass.old.caller made.0 change.now made.1) }
        ensures unchanged { OnErr result (pass.new ≡ pass.old) }
    {
        self.held.lock(rt).change(pass, change)
    }

    /// Holds what a request asks for and the objects, in one hold of the lock.
    ///
    /// Returns what `Served::hold` gives, and the call's ticket. The reply is made of these without
    /// the lock, whatever is changed meanwhile. `NoMemory` if an allocation fails. No ticket is
    /// taken then.
    pub fn hold(
        &self,
        rt: &impl Wait,
        pass: &mut Pass<L>,
        request: &Request,
    ) -> Result<Ticketed<N>, NoMemory>
        ensures caller { pass.new.caller ≡ pass.old.caller }
        ensures share { OnOk result (pass.new.amount ≡ pass.old.amount + 1) }
        ensures ticket { IfOk result (λ ticketed. pass.new.amount ≤ ticketed.ticket) }
        ensures held { IfOk result (λ ticketed. IsHeld (IsTurnOf T.stored) N.id T.stands_for T.held T.hold_gives
            pass.old.caller ticketed.ticket request.now ticketed.raw ticketed.store) }
        ensures unchanged { OnErr result (pass.new ≡ pass.old) }
    {
        self.held.lock(rt).hold(pass, request)
    }

    /// Returns the server, once all passes are handed in.
    ///
    /// The server has taken exactly the calls that the passes count. `PassMissing` if fewer passes
    /// are handed in than were given. Nothing is allocated.
    pub fn finish(self, passes: Vec<Pass<L>>) -> Result<T, PassMissing<N, T, L>>
        ensures count { IfOk result (λ object. T.stored object ≡ Some (made_by passes.items)) }
        ensures descends { IfOk result (λ object. IsDescended T.stored T.apply_gives T.hold_gives (made_by passes.items) object) }
        ensures back { IfErr result (λ missing. missing.passes ≡ passes) }
    {
        let Shared { held } = self;
        let locked = held.into_inner();
        if passes.len() as u64 != locked.passes.out() {
            let shared = Shared {
                held: Mutex::new(locked),
            };
            return Err(PassMissing { shared, passes });
        }
        let Locked {
            object,
            mut book,
            passes: mut all,
            ..
        } = locked;
        all.take_all_back(passes);
        all.show_total(&mut book);
        Ok(object)
    }
}
