//! Tests of the plain, slow program: the table of scripts that were worked out by hand is played over it. And of what it is made of: file
//! maps, and messages with their lengths.
#![tactic(auto)]

#[cfg(test)]
mod file_tests;
#[cfg(test)]
mod message_tests;
#[cfg(test)]
mod renames;
#[cfg(test)]
mod row_tests;
