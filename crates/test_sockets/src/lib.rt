//! Tests of places, listeners and streams, with real ports and files.
//!
//! Paths for sockets, and which of their files are there, are public for the tests of daemons.
#![tactic(auto)]

pub use crate::files::{files_of, fresh_path};

#[cfg(test)]
mod file_tests;
mod files;
#[cfg(test)]
mod path_tests;
#[cfg(test)]
mod stream_tests;
