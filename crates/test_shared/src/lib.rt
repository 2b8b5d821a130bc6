//! Tests of a mount that threads share: with its history and without, its passes, its frames, and the head word.
#![tactic(auto)]

#[cfg(test)]
mod audits;
#[cfg(test)]
mod calls;
#[cfg(test)]
mod change_frame_tests;
#[cfg(test)]
mod change_thread_tests;
#[cfg(test)]
mod desk_change_tests;
#[cfg(test)]
mod desk_tests;
#[cfg(test)]
mod frame_tests;
#[cfg(test)]
mod gate_tests;
#[cfg(test)]
mod head_tests;
#[cfg(test)]
mod mounts;
#[cfg(test)]
mod pass_tests;
#[cfg(test)]
mod patience_tests;
#[cfg(test)]
mod unlogged;
#[cfg(test)]
mod unlogged_call_tests;
#[cfg(test)]
mod unlogged_frame_tests;
#[cfg(test)]
mod unlogged_thread_tests;
