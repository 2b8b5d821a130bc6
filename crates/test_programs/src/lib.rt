//! Tests of the programs `edend` and `follow`: their command lines, what they write, and their statuses.
#![tactic(auto)]

#[cfg(test)]
mod daemon_tests;
#[cfg(test)]
mod follower_tests;
#[cfg(test)]
mod observed_tests;
#[cfg(test)]
mod socket_tests;
