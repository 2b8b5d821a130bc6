//! Replies to requests, from a mount or any other server, and their service over a reader and a
//! writer.
//!
//! A server first holds what a request asks for (`Served::hold`). Then the reply is made without
//! the server (`answer_request`), or the frame of what else a question wants (`append_answer`). The calls for the bytes of messages are eden_wire's.
//!
//! ```rust
//! use eden_accumulate::Mount;
//! use eden_messages::{Query, Request};
//! use eden_ids::{GitNaming, Id, Path};
//! use eden_objects::Store;
//! use eden_query::{encode_request, serve};
//! use eden_stream::Counted;
//!
//! let query = Query {
//!     mirror: 1,
//!     life: 1,
//!     number: 1,
//! };
//! let path = Path::parse(alloc, b"a".as_slice())?;
//! let frame = encode_request(alloc, &Request::Fetch { query, path })?;
//!
//! let store = Store::new(alloc, GitNaming);
//! let mut mount = Mount::mount(alloc, store, Id::ZERO, 7, 1000)?;
//! let mut replies = Counted::new(Vec::new(alloc));
//! let mut requests = Counted::new(frame.as_slice());
//! let served = serve(alloc, &mut requests, &mut replies, &mut mount);
//! assert_eq!(rt; served, Ok(1));
//! ```
#![tactic(auto)]

pub use crate::answering::{answer, answer_held, answer_request, append_answer, append_beside};
pub use crate::laws::told_over_law;
pub use crate::naming::UnitNaming;
pub use crate::raw::Raw;
pub use crate::served::Served;
pub use crate::serving::{fault_of_frame, reply_to, serve, serve_writable};
pub use eden_stream::{BODY_LIMIT, FrameFault, ServeFault, tell_frames};
pub use eden_wire::{
    DecodeFault, EncodeFault, append_reply, decode_reply, decode_request, encode_reply,
    encode_request, reply_law, request_law,
};

mod answering;
mod laws;
mod mount;
mod naming;
mod raw;
mod served;
mod serving;
