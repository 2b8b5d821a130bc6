//! The passes of callers.

ghost use Rattle.std.specs.Prelude.{◌≡◌, ◌+◌, ◌≤◌, IfOk, OnErr, OnOk, length};
ghost use Rattle.eden_shared.specs.Passes.{made_by};

use std::marker::Model;
use std::sync::ledger::{Book, Ledger, Share};
use thiserror::Error;

/// What a caller calls with: its number, and how many of its calls are counted.
///
/// A lock takes all passes back at its end (`Shared::finish`, `Unlogged::finish`). One that was
/// dropped is missing there.
#[derive(Drop)]
pub struct Pass<L: Ledger> {
    pub(crate) caller: u64,
    pub(crate) share: Share<L>,
}

impl<L: Ledger> Model for Pass<L> {
    ghost use Rattle.std.specs.Prelude.{◌≡◌};
    ghost use Rattle.eden_shared.specs.Passes.{PassView};

    ghost Value = { PassView };

    ghost view = { λ pass. record { caller = pass.caller; amount = pass.share.amount } };

    ghost invariant = { λ pass. pass.share.parts ≡ 1 };
}

impl<L: Ledger> Pass<L> {
    /// Returns which caller it is.
    ///
    /// No two passes of a lock have the same number. Nothing is allocated.
    pub fn caller(&self) -> u64
        ensures { result ≡ self.now.caller }
    {
        self.caller
    }
}

/// The passes of a lock that no caller has, and the calls that those count which came back.
///
/// A lock has a part of a ledger for each pass, and one more. Each pass that a caller has is one of
/// them, and the rest is here.
#[derive(Drop)]
pub struct Passes<L: Ledger> {
    rest: Share<L>,
    most: u64,
    given: u64,
    back: u64,
}

impl<L: Ledger> Model for Passes<L> {
    ghost use Rattle.std.specs.Prelude.{◌≡◌, ◌+◌, ◌≤◌};
    ghost use Rattle.eden_shared.specs.Passes.{PassesView};

    ghost Value = { PassesView };

    ghost view = { λ passes. record { most = passes.most; given = passes.given; back = passes.back; amount = passes.rest.amount } };

    ghost invariant = { λ passes. (passes.rest.parts + passes.given ≡ passes.most + 1 + passes.back) × (passes.back ≤ passes.given) × (passes.given ≤ passes.most) × (L.parts ≡ passes.most + 1) };
}

impl<L: Ledger> Passes<L> {
    /// Makes this many passes of a lock, of which none is given yet.
    pub(crate) fn new(rest: Share<L>, most: u64) -> Passes<L>
        requires parts { rest.parts ≡ most + 1 }
        requires whole { L.parts ≡ most + 1 }
        ensures { result ≡ record { most = most; given = 0; back = 0; amount = rest.amount } }
    {
        Passes {
            rest,
            most,
            given: 0,
            back: 0,
        }
    }

    /// Returns how many passes callers have.
    pub(crate) fn out(&self) -> u64
        ensures { result + self.now.back ≡ self.now.given }
    {
        self.given - self.back
    }

    /// Gives a pass to one more caller, under the next number: 1, 2 and so on.
    ///
    /// `CallersSpent` if all passes were given. Nothing is allocated.
    pub fn give(&mut self) -> Result<Pass<L>, CallersSpent>
        ensures pass { IfOk result (λ pass. pass ≡ record { caller = self.old.given + 1; amount = 0 }) }
        ensures given { OnOk result (self.new ≡ record { most = self.old.most; given = self.old.given + 1; back = self.old.back; amount = self.old.amount }) }
        ensures most { self.new.given ≤ self.old.most }
        ensures spent { OnErr result ((self.old.given ≡ self.old.most) × (self.new ≡ self.old)) }
    {
        if self.given >= self.most {
            return Err(CallersSpent);
        }
        let Passes { rest, given, .. } = self;
        let share = rest.split_off(1, 0);
        *given += 1;
        Ok(Pass {
            caller: *given,
            share,
        })
    }

    /// Takes a pass back, with the calls that it counts.
    ///
    /// Nothing is allocated.
    pub fn take_back(&mut self, pass: Pass<L>)
        ensures { self.new ≡ record { most = self.old.most; given = self.old.given; back = self.old.back + 1; amount = self.old.amount + pass.amount } }
    {
        let Passes { rest, back, .. } = self;
        rest.merge(pass.share);
        *back += 1;
    }

    /// Takes these passes back.
    #[tactic(auto, using(crate::proofs::Counting::made_by_snoc))]
    pub(crate) fn take_all_back(&mut self, passes: Vec<Pass<L>>)
        ensures most { self.new.most ≡ self.old.most }
        ensures given { self.new.given ≡ self.old.given }
        ensures back { self.new.back ≡ self.old.back + length passes.items }
        ensures amount { self.new.amount ≡ self.old.amount + made_by passes.items }
    {
        for pass in passes {
            self.take_back(pass);
        }
    }

    /// Shows that the passes count all calls of the book, if all of them are back.
    pub(crate) fn show_total(&mut self, book: &mut Book<L>)
        requires all_back { self.old.back ≡ self.old.given }
        ensures total { book.old.total ≡ self.old.amount }
        ensures same_book { book.new.total ≡ book.old.total }
        ensures same { self.new ≡ self.old }
    {
        book.audit(&mut self.rest);
    }
}

/// A lock has given all its passes.
#[derive(Clone, Copy, Debug, PartialEq, Eq, Error)]
#[error("all passes are given")]
pub struct CallersSpent;
