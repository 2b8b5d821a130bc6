//! The messages between a mount and its clients: requests, replies, and how they are
//! encoded.
//!
//! A client asks with a `Request`: which paths there are (`Basis`), which changed since a
//! position (`Poll`), the file at a path (`Fetch`) or the paths below a directory
//! (`List`). Each carries a `Query`, which identifies the question, and a mount answers
//! with a `Reply` that carries the same query. What a caller inside the process asks and gets
//! is in eden_logs.
//!
//! The definitions are in `specs/`: `Spells.antt` gives the bytes of a message,
//! `Replies.antt` the reply of a mount, and `Mirrors.antt` what a mirror does with replies. What
//! can happen between them, and what is true after it, is in eden_headline.
//!
//! ```rust
//! use eden_globs::Filter;
//! use eden_messages::{Query, Request};
//!
//! let query = Query {
//!     mirror: 1,
//!     life: 1,
//!     number: 1,
//! };
//! let request = Request::Basis {
//!     query,
//!     filter: Filter::all(alloc),
//! };
//! // A version, a tag, three numbers of eight bytes, and how many patterns there are.
//! assert_eq!(rt; request.body_len(), 26 + 1);
//! ```
#![tactic(auto)]

pub use crate::lengths::{len_of_filter, len_of_marked};
pub use crate::message::{Cause, Query, Reply, Request};
pub use crate::outcome::Outcome;
pub use crate::replies::admitted;
pub use crate::spelling_law::{one_spelling_law, reply_spelling_law};
pub use crate::text_laws::{filter_law, position_law, query_law, request_text_law};

mod lengths;
mod message;
mod outcome;
mod replies;
mod spelling_law;
mod text_laws;
