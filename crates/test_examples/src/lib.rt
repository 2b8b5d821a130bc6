//! The examples that stand at the heads of the libraries, as functions that a test calls; and a longer one, of a mount and a mirror that
//! follows it by frames (`src/following.rt`).
//!
//! A crate of its own, since no other depends on all of them.
#![tactic(auto)]

#[cfg(test)]
mod example_tests;
#[cfg(test)]
mod following;
#[cfg(test)]
mod locks;
#[cfg(test)]
mod mounts;
