//! What a row of the table can be played over.

use eden_history::{Answer, Change, MountFault};
use eden_ids::{GitNaming, Id};
use eden_messages::{Reply, Request};
use eden_objects::Store;
use std::alloc::Global;
use std::test::Fail;

/// What a row can be played over: it stands for a mount, is changed, and replies to requests.
pub trait Played {
    /// One of a commit, under a generation and with a limit, or why there is none.
    fn mount(
        alloc: Global,
        store: Store<GitNaming>,
        root: Id,
        generation: u64,
        limit: u64,
    ) -> Result<Self, MountFault<GitNaming>>;

    /// What a change is answered with.
    fn change(&mut self, change: &Change) -> Result<Answer, Fail>;

    /// What is replied to a request.
    fn ask(&mut self, alloc: Global, request: &Request) -> Result<Reply, Fail>;
}
