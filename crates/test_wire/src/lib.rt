//! Tests of messages as bytes: each request, each reply, each other question with its reply and each change with its answer as the format spells it, bodies that spell none, each change of one byte of a body,
//! and bodies that are drawn by lot, all of them read as a plain reader reads them.
//!
//! The messages and the plain reader are shared with the tests of what serves messages.
#![tactic(auto)]

pub use crate::messages::{
    Asked, EMPTY, Told, frame_of_reply, frame_of_request, position, read_reply, read_request,
    reply_of, request_of,
};
pub use crate::plain::{QUESTION_TAGS, REPLY_TAGS, REQUEST_TAGS, plain_fault};

#[cfg(test)]
mod asked_tests;
#[cfg(test)]
mod attributes_tests;
#[cfg(test)]
mod command_tests;
#[cfg(test)]
mod done_tests;
#[cfg(test)]
mod excluding_tests;
#[cfg(test)]
mod message_tests;
mod messages;
mod plain;
#[cfg(test)]
mod reading_tests;
#[cfg(test)]
mod stat_tests;
