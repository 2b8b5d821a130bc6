//! Mirrors that follow a mount, in tests: beside the oracle's replies, and by frames over a mount; and the largest reply that a mount makes.
#![tactic(auto)]

#[cfg(test)]
mod basis_tests;
#[cfg(test)]
mod daemon;
#[cfg(test)]
mod exclusion_tests;
#[cfg(test)]
mod largest_tests;
#[cfg(test)]
mod owned_tests;
#[cfg(test)]
mod prefix_tests;
#[cfg(test)]
mod rounds_tests;
#[cfg(test)]
mod strange_tests;
#[cfg(test)]
mod wanted;
