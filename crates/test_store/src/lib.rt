//! Tests of the store of objects: what is put and refused, how the files of a commit are looked up and listed, and where two commits
//! differ.
#![tactic(auto)]

#[cfg(test)]
mod difference_tests;
#[cfg(test)]
mod entries_tests;
#[cfg(test)]
mod lookup_tests;
#[cfg(test)]
mod passing_tests;
#[cfg(test)]
mod put_tests;
