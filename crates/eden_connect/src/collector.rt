//! A mirror, and what has come for it.

ghost use Rattle.std.specs.Prelude.{◌≡◌, true, IfOk, OnErr};
ghost use Rattle.eden_messages.specs.Mirrors.{begun, delivered, has_number};
ghost use Rattle.eden_connect.specs.Rounds.{counts};

use crate::progress::Progress;
use eden_ids::NoMemory;
use eden_messages::{Reply, Request};
use eden_mirror::{Mirror, Outcome};
use std::marker::Model;

/// A mirror, and how many contents have come in its round.
#[derive(Drop)]
pub(crate) struct Collector {
    mirror: Mirror,
    came: u64,
}

impl Model for Collector {
    ghost use Rattle.eden_messages.specs.Mirrors.{MirrorState};
    ghost use Rattle.eden_mirror.specs.contracts.mirror.Mirror as kept;

    ghost Value = { MirrorState };

    ghost coded = { kept.the_row.coded };

    ghost view = { λ c. c.mirror };
}

impl Collector {
    /// Returns a mirror for which nothing has come yet.
    pub(crate) fn new(mirror: Mirror) -> Collector
        ensures { result ≡ mirror }
    {
        Collector { mirror, came: 0 }
    }

    /// Returns the mirror.
    pub(crate) fn mirror(&self) -> &Mirror
        ensures { result.now ≡ self.now }
    {
        &self.mirror
    }

    /// Gives the mirror back.
    pub(crate) fn into_mirror(self) -> Mirror
        ensures { result ≡ self }
    {
        let Collector { mirror, .. } = self;
        mirror
    }

    /// Begins a round.
    pub(crate) fn begin(&mut self)
        requires { has_number self.old ≡ true }
        ensures { self.new ≡ begun self.old }
    {
        self.came = 0;
        let Ok(()) = self.mirror.begin() else {
            unreachable!()
        };
    }

    /// Returns how many contents the lists of the round have named so far, if these are the
    /// outstanding requests.
    pub(crate) fn named(&self, requests: &[Request]) -> u64 {
        let fetches = requests
            .iter()
            .filter(|request| matches!(request, Request::Fetch { .. }))
            .count();
        self.came.saturating_add(fetches as u64)
    }

    /// Delivers a reply, and returns whether it counted.
    ///
    /// `progress` hears of each content that counted.
    pub(crate) fn deliver<P: Progress>(
        &mut self,
        reply: Reply,
        named: u64,
        progress: &mut P,
    ) -> Result<bool, NoMemory>
        ensures taken { IfOk result (λ _. self.new ≡ (delivered self.old reply).0) }
        ensures told { IfOk result (λ counted. counted ≡ counts (delivered self.old reply).1) }
        ensures kept { OnErr result (self.new ≡ self.old) }
    {
        let is_content = matches!(&reply, Reply::ContentIs { .. });
        let outcome = self.mirror.deliver_owned(reply)?;
        if outcome == Outcome::Ignored {
            return Ok(false);
        }
        if is_content {
            self.came = self.came.saturating_add(1);
            progress.advance(self.came, named);
        }
        Ok(true)
    }
}
