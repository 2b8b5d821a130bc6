//! Followers: mirrors that note what they ask and receive, and the check of these notes.
//!
//! A `Follower` is a mirror with notes. `step` returns the requests to send, and
//! `deliver` takes a reply with the ticket under which the mount took its request. It
//! needs no part of a mount.
//!
//! `vouch` checks a follower's notes against the logs of a mount's callers. If it
//! accepts, the notes make one schedule with each history with which the logs agree. So
//! what eden_headline's `schedule_law` says of each mirror is true of this one.
//!
//! ```rust
//! use eden_follow::{Follower, VouchFault, vouch};
//! use eden_globs::Filter;
//! use eden_messages::{Cause, Query, Reply, Request};
//!
//! let mut follower = Follower::new(alloc, 1, 1, Filter::all(alloc));
//! let requests = follower.step()?;
//! assert!(rt; matches!(requests.as_slice(), [Request::Basis { .. }]));
//! assert!(rt; vouch(alloc, &[], &follower).is_ok());
//! // No log has this reply.
//! let query = Query {
//!     mirror: 1,
//!     life: 1,
//!     number: 1,
//! };
//! let reply = Reply::Refused {
//!     query,
//!     cause: Cause::TooLarge,
//! };
//! follower.deliver(1, &reply)?;
//! assert!(rt; matches!(vouch(alloc, &[], &follower), Err(VouchFault::StrangeReply)));
//! ```
#![tactic(auto)]

pub use crate::fault::{StepFault, VouchFault};
pub use crate::follower::Follower;
pub use crate::vouching::vouch;

mod fault;
mod follower;
mod judging;
mod marking;
mod ordering;
mod rows;
mod vouching;
