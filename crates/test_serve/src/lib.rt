//! Tests of `edend serve` as a library, of daemons that stay, and of mirrors that follow over sockets, with threads of one process at both ends.
//! What they share is public, for rigs that use sockets too: an input of lines that goes on until a flag is set, ports on which nobody listens, a
//! client of single frames, what it asks, a daemon whose lines go on, and hostile peers.
//!
//! ```rust
//! use std::io::Read;
//! use std::sync::atomic::AtomicBool;
//! use test_serve::Feed;
//!
//! let ended = AtomicBool::new(true);
//! let mut text = Vec::new(alloc);
//! let mut feed = Feed::new(rt, b"listen\n", b"flush\n", b"remount 8\n", &ended);
//! assert_eq!(rt; feed.read_to_end(&mut text)?, 17);
//! assert!(rt; text.as_slice() == b"listen\nremount 8\n".as_slice());
//! ```
#![tactic(auto)]

pub use crate::asking::{
    BIG_SEQUENCE, LINES, QUERY, big_script, fetch_frame, poll_frame, told_up_to,
};
pub use crate::client::{ask, connect, free_port, listen, port_of, read_reply};
pub use crate::feed::Feed;
pub use crate::hostile::{hostile_texts, send_all};
pub use crate::served::serve_feed;
pub use crate::staying::stay;

mod asking;
#[cfg(test)]
mod checking;
mod client;
#[cfg(test)]
mod connection_tests;
#[cfg(test)]
mod ending_tests;
mod feed;
mod hostile;
#[cfg(test)]
mod mirror_tests;
#[cfg(test)]
mod peer_tests;
#[cfg(test)]
mod script_tests;
mod served;
#[cfg(test)]
mod serving;
#[cfg(test)]
mod session_tests;
#[cfg(test)]
mod stay_tests;
mod staying;
#[cfg(test)]
mod stopping_tests;
#[cfg(test)]
mod timely_tests;
#[cfg(test)]
mod writing_tests;
