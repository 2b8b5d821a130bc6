//! Tests of what puts several objects at once: imports, batches that Git printed, and the table of segments that a store is made of.
#![tactic(auto)]

#[cfg(test)]
mod batch_tests;
#[cfg(test)]
mod import_tests;
#[cfg(test)]
mod segment_tests;
