//! Parts of a mount's reply to a request.

ghost use Rattle.std.specs.Prelude.{◌≡◌, ◌≢◌, IfOk, OnOk, OnErr};
ghost use Rattle.eden_history.specs.Marks.{admitted};
ghost use Rattle.eden_messages.specs.Replies.{bounded, cause_of};

use crate::message::{Cause, Query, Reply};
use eden_globs::Filter;
use eden_history::{Marked, SinceFault};
use eden_ids::{NoMemory, Sequence};
use std::alloc::Global;

impl Cause {
    /// Returns the cause, with its number, that a client is sent.
    ///
    /// Does not allocate.
    ///
    /// # Errors
    ///
    /// - `NoMemory` if the fault is `NoMemory`, which clients are not sent.
    pub fn of(fault: SinceFault) -> Result<Cause, NoMemory>
        ensures cause { IfOk result (λ cause. cause ≡ cause_of fault) }
        ensures known { OnOk result (fault ≢ SinceFault.NoMemory) }
        ensures refuses { OnErr result (fault ≡ SinceFault.NoMemory) }
    {
        match fault {
            SinceFault::Stale(generation) => Ok(Cause::Stale(generation)),
            SinceFault::Ahead(head) => Ok(Cause::Ahead(head)),
            SinceFault::Truncated(floor) => Ok(Cause::Truncated(floor)),
            SinceFault::NoMemory => Err(NoMemory),
        }
    }
}

/// Returns the marked paths that the filter admits, in their order.
///
/// # Errors
///
/// - `NoMemory` if an allocation fails.
pub fn admitted(
    alloc: Global,
    marked: Sequence<Marked>,
    filter: &Filter,
) -> Result<Sequence<Marked>, NoMemory>
    ensures { IfOk result (λ list. list ≡ admitted filter.now marked) }
{
    let items = marked.into_vec().into_iter();
    let wanted = items
        .filter(|marked| filter.admits(&marked.path))
        .collect(alloc)?;
    Ok(Sequence::from_vec(wanted))
}

impl Reply {
    /// Returns the reply, or a refusal if it is too long.
    ///
    /// The refusal is `TooLarge`; it is returned if the body would have more than
    /// 16,777,216 bytes. Does not allocate.
    #[tactic(auto, using(crate::proofs::BodyLengths::kept_small, crate::proofs::BodyLengths::refused_large))]
    pub fn bounded(self, query: Query) -> Reply
        ensures { result ≡ bounded query self }
    {
        match self.body_len() {
            Some(_) => self,
            None => Reply::Refused {
                query,
                cause: Cause::TooLarge,
            },
        }
    }
}
