//! Tests of what stands below a store and beside it: ids, paths and columns, filters, Git's format, records and the journal of them,
//! comparisons of columns, and the language of scripts.
//!
//! What is expected comes from the formats, from Git itself, or from tables that were written by hand.
#![tactic(auto)]

#[cfg(test)]
mod column_tests;
#[cfg(test)]
mod command_tests;
#[cfg(test)]
mod delta_tests;
#[cfg(test)]
mod filter_tests;
#[cfg(test)]
mod git_tests;
#[cfg(test)]
mod id_tests;
#[cfg(test)]
mod journal_tests;
#[cfg(test)]
mod lane_tests;
#[cfg(test)]
mod name_tests;
#[cfg(test)]
mod path_tests;
#[cfg(test)]
mod text_tests;
#[cfg(test)]
mod word_tests;
