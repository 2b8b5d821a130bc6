//! Tests of serving: requests over a mount, by calls and by frames that devices give and take all at once, little at a time, or not at all; what
//! was held for a request while the mount goes on; and audits of what was asked.
#![tactic(auto)]

#[cfg(test)]
mod asked_tests;
#[cfg(test)]
mod audit_tests;
#[cfg(test)]
mod calls;
#[cfg(test)]
mod device_tests;
#[cfg(test)]
mod generated_tests;
#[cfg(test)]
mod held_tests;
#[cfg(test)]
mod listed_tests;
#[cfg(test)]
mod row_tests;
#[cfg(test)]
mod serving_tests;
#[cfg(test)]
mod writable_tests;
