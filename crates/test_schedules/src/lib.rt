//! Mirrors that follow a mount over a network that loses, repeats and reorders what is sent: tests compare what they hold with the plain, slow
//! program that keeps whole histories.
//!
//! A crate of its own, so that no crate that ships depends on the plain program.
#![tactic(auto)]

#[cfg(test)]
mod frames;
#[cfg(test)]
mod past;
#[cfg(test)]
mod scene;
#[cfg(test)]
mod schedule_lot;
#[cfg(test)]
mod schedule_tests;
