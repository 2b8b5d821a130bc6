//! A mount beside the plain, slow program that keeps whole histories: tests make the same changes on both, and compare what they say.
//! And filters beside a plain matcher.
//!
//! A crate of its own, so that no crate that ships depends on the plain program.
#![tactic(auto)]

#[cfg(test)]
mod audit_tests;
#[cfg(test)]
mod changes_tests;
#[cfg(test)]
mod comparing;
#[cfg(test)]
mod filters_tests;
#[cfg(test)]
mod generated_tests;
#[cfg(test)]
mod import_tests;
#[cfg(test)]
mod messages_tests;
#[cfg(test)]
mod mount_tests;
#[cfg(test)]
mod names_tests;
#[cfg(test)]
mod patterns;
#[cfg(test)]
mod snapshot_tests;
#[cfg(test)]
mod stores;
