//! The language of scripts: what a line asks for, and what it prints.
//!
//! `words` splits a line at single spaces and undoes escapes. In a word `\\` is a
//! backslash, `\n` a line feed, `\s` a space and `\e` nothing at all. So any bytes can be
//! written as one word. A number is the decimal text of a `u64`, without sign and leading
//! zeros.
//!
//! `Command::read` reads the words of a line: put an object and bind a `Label` to it,
//! mount a commit, change the mount or ask it something. The result of a line is a
//! `Told`, with a `Refusal` if nothing was done. `push_refusal`, `push_listed` and others
//! write the parts of what is printed.
//!
//! The definitions are in `specs/`: the words of each line, what labels are bound to, and
//! the text that each line prints, over the objects put so far and the mount.
//!
//! ```rust
//! use eden_script::words;
//!
//! let Some(words) = words(alloc, b"write notes plain to\\sdo".as_slice())? else {
//!     return Ok(());
//! };
//! assert_eq!(rt; words.len(), 4);
//! assert!(rt; words[3].as_bytes() == b"to do".as_slice());
//! ```
#![tactic(auto)]

pub use crate::command::{AskLine, ChangeLine, Command, MountLine, PutLine, TreeEntry};
pub use crate::escapes::{push_bytes, push_escaped};
pub use crate::label::{Binding, Label};
pub use crate::laws::{
    decimal_law, escape_law, line_feed_law, line_law, number_law, number_text_law, word_law,
};
pub use crate::lines::{Word, words};
pub use crate::numbers::push_number;
pub use crate::texts::{
    kind_name, push_all_marked, push_content, push_id, push_id_line, push_listed, push_ok,
    push_refusal,
};
pub use crate::told::{Lent, Refusal, Told};
pub use eden_git::number;

mod command;
mod escapes;
mod label;
mod laws;
mod lines;
mod numbers;
mod reading;
mod texts;
mod told;
mod unread;
