//! What changed since a position, each path by name.
//!
//! A range lists the directories that were renamed, and any path below them may have
//! changed. `name_paths` names those paths. It takes the working copy as it is now and
//! goes back over what the journal recorded, newest first, to where files were at the
//! position. Then it lists what was below these directories, and what is there now.
//!
//! It needs no history, and neither the mount nor its lock: a copy of the working copy
//! and the journal's newest runs are enough.
#![tactic(auto)]

pub use crate::names::name_paths;

mod back;
mod names;
