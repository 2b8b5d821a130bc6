//! Devices for tests: they give and take a few bytes at a time, break off at a chosen place, or never end; and what a stream carries to them, with
//! where each item ends.
//!
//! What they give and take is for the test to compare: they promise no more than std's `Read` and `Write` do. The pump of
//! `eden_stream` is tested over them here.
//!
//! ```rust
//! use test_devices::{Sink, Source};
//! use std::io::{Read, Write};
//!
//! let mut source = Source::new(b"some bytes");
//! source.most = 2;
//! let mut place = [0; 4];
//! assert_eq!(rt; source.read(&mut place)?, 2);
//! let mut sink = Sink::new(alloc);
//! sink.write_all(&place[..2])?;
//! assert_eq!(rt; sink.bytes.as_slice(), b"so".as_slice());
//! ```
#![tactic(auto)]

mod exchange;
#[cfg(test)]
mod frame_tests;
#[cfg(test)]
mod line_tests;
#[cfg(test)]
mod pieces;
mod sink;
mod source;
#[cfg(test)]
mod tests;

pub use exchange::Exchange;
pub use sink::Sink;
pub use source::{Endless, Source};
