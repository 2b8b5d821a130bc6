//! The encoding of requests and replies as bytes.
//!
//! `encode_request` and `encode_reply` return the frame of a message: four bytes of
//! length, and its body. `decode_request` and `decode_reply` read a body. Each message
//! has at most one encoding, and exactly the bodies that encode a message are accepted;
//! any other is refused with the first `DecodeFault` from the left. What a filter excludes
//! comes before its request. A question is a request, or it wants something else than the reply: a
//! Stat asks for a file without its bytes, attributes for many files without theirs, and a status
//! for the paths that differ from the commit. A question may come after a patience, which says for
//! how long its reply may wait. `append_asked` and `decode_asked` write and read all of these.
//! `append_wanted` writes the reply to a Stat, `append_attributes` and `append_status` write the
//! others, and `decode_stat`, `decode_attributes` and `decode_status` read them.
//!
//! A body can also ask for a change of the mount: `encode_do` writes its frame, and
//! `decode_command` reads it or a request. What became of the change is a `Done`, which
//! `append_done` writes and `decode_done` reads.
//!
//! The bytes of a message are defined in eden_messages' `specs/Spells.antt`, and the
//! faults here: `specs/Messages.antt` has the format of each message, which says in which
//! order its fields are read, and `specs/Formats.antt` what formats are made of.
//! `specs/Commands.antt` has the formats of changes and of their answers, `specs/Questions.antt`
//! those of questions, and `specs/Stats.antt`, `specs/Attributes.antt` and `specs/Statuses.antt`
//! those of the replies to them. Nothing here depends on a mount, so a client links only the
//! messages.
//!
//! ```rust
//! use eden_ids::Path;
//! use eden_messages::{Query, Request};
//! use eden_wire::{DecodeFault, decode_request, encode_request};
//!
//! let query = Query {
//!     mirror: 1,
//!     life: 1,
//!     number: 1,
//! };
//! let path = Path::parse(alloc, b"a".as_slice())?;
//! let frame = encode_request(alloc, &Request::Fetch { query, path })?;
//! // Four bytes of length, and then the body.
//! assert_eq!(rt; frame.len(), 4 + 29);
//! let request = decode_request(alloc, &frame.as_slice()[4..])?;
//! assert!(rt; matches!(request, Request::Fetch { .. }));
//! let fault = decode_request(alloc, b"\x01\x03".as_slice());
//! assert!(rt; matches!(fault, Err(DecodeFault::Version)));
//! ```
#![tactic(auto)]

pub use crate::asked::{Asked, append_asked, decode_asked};
pub use crate::attributes::{AttributesAre, append_attributes, decode_attributes};
pub use crate::command::{Command, Doing, decode_command, encode_do};
pub use crate::decoding::{decode_reply, decode_request};
pub use crate::done::{Done, append_done, decode_done};
pub use crate::encoding::{append_reply, encode_reply, encode_request};
pub use crate::fault::{DecodeFault, EncodeFault};
pub use crate::laws::{
    answer_law, asked_law, attributes_law, command_law, done_law, one_message_law, question_law,
    reply_law, request_law, stat_law, status_law,
};
pub use crate::question::{Question, Wants, decode_question};
pub use crate::stat::{StatIs, append_stat, append_wanted, decode_stat};
pub use crate::status::{StatusIs, append_status, decode_status};
pub use eden_history::Described;
pub use eden_objects::Stat;

mod asked;
mod attributes;
mod command;
mod decoding;
mod done;
mod encoding;
mod fault;
mod fields;
mod laws;
mod question;
mod stat;
mod status;
