//! The programs `edend` and `follow` as functions over any devices: their command lines, what they
//! do, and their statuses.
//!
//! ```rust
//! use eden_programs::{Screen, follow};
//!
//! let mut words = Vec::new(alloc);
//! for word in ["follow", "--version"] {
//!     words.push(String::from_str(alloc, word)?)?;
//! }
//! let (mut output, mut errors) = (Vec::new(alloc), Vec::new(alloc));
//! let words = words.as_slice();
//! let status = follow(rt, alloc, words, &mut output, &mut errors, Screen::None);
//! assert_eq!(rt; status, 0);
//! assert!(rt; output.as_slice() == b"follow 0.1.0\n".as_slice());
//! ```
#![tactic(auto)]

pub use crate::daemon::edend;
pub use crate::ends::{end_connect, end_daemon, end_demo};
pub use crate::follower::{Screen, follow};
pub use crate::objects::Shelf;
pub use crate::words::command_words;

mod daemon;
mod daemon_words;
mod devices;
mod ends;
mod explained;
mod follower;
mod follower_words;
mod log;
mod objects;
mod options;
mod reason;
mod script;
mod words;
