//! Tests of clients: one that keeps a mirror over TCP, beside a listener in threads of one process, on ports that the system gives; and a
//! follower, beside logs that a test writes.
#![tactic(auto)]

#[cfg(test)]
mod directory_tests;
#[cfg(test)]
mod faithful_tests;
#[cfg(test)]
mod listener;
#[cfg(test)]
mod lost_tests;
#[cfg(test)]
mod many_tests;
#[cfg(test)]
mod memory_tests;
#[cfg(test)]
mod output_tests;
#[cfg(test)]
mod progress_tests;
#[cfg(test)]
mod strange_tests;
#[cfg(test)]
mod talks;
#[cfg(test)]
mod vouch_tests;
