//! Mirrors: a client's copy of the files of a mount that its filter admits.
//!
//! A `Mirror` follows a mount over a network that may lose, repeat and reorder messages.
//! It works in rounds. `begin` starts a round, `outstanding` lists the requests to send,
//! and `deliver` takes each reply that arrives. Requests may be sent again at any time. A
//! round ends when the last awaited reply is delivered; the mirror then has a new
//! position.
//!
//! What a mirror does is defined in eden_messages' `specs/Mirrors.antt`, as functions of
//! its state; `Mirror` is that state. `Mirror::round_law` states how a round counts down
//! to its end.
//!
//! ```rust
//! use eden_globs::Filter;
//! use eden_messages::Request;
//! use eden_mirror::Mirror;
//!
//! let mut mirror = Mirror::new(alloc, 1, 1, Filter::all(alloc));
//! assert!(rt; mirror.begin().is_ok());
//! // It has no position yet, so it asks for all paths.
//! assert!(rt; matches!(mirror.outstanding()?.as_slice(), [Request::Basis { .. }]));
//! ```
#![tactic(auto)]

pub use crate::mirror::{Mirror, NumbersExhausted};
pub use eden_messages::Outcome;

mod awaited;
mod deliver;
mod laws;
mod listing;
mod mirror;
