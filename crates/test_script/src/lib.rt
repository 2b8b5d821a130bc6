//! Tests of scripts: what each line prints, over devices that give and take all at once, little at a time, or fail,
//! and scripts that are made to take long.
#![tactic(auto)]

#[cfg(test)]
mod device_tests;
#[cfg(test)]
mod hostile_tests;
#[cfg(test)]
mod row_tests;
#[cfg(test)]
mod script_tests;
