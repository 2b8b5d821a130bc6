//! Tests of working copies, of checkouts and of ranges of a journal, over stores that are put by hand.
#![tactic(auto)]

#[cfg(test)]
mod checkout_tests;
#[cfg(test)]
mod mounted;
#[cfg(test)]
mod overlay_tests;
#[cfg(test)]
mod range_tests;
#[cfg(test)]
mod rename_tests;
#[cfg(test)]
mod renamed_tests;
#[cfg(test)]
mod steps;
#[cfg(test)]
mod workcopy_tests;
