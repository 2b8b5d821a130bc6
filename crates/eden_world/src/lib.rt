//! The model of a mount with its whole history: a plain, slow program that computes the
//! definitions.
//!
//! A `World` keeps whole file maps, one for each row, and visits every path and every
//! event. So it can be read beside the definitions in eden_history and eden_messages.
//! Only questions about single paths, such as why a change is refused, are left to
//! eden_history's functions over trees of files. The programs that keep less are tested
//! against it, and none of them depends on it.
//!
//! The plain types of the definitions are re-exported here. So are the counting devices of
//! eden_stream, and eden_headline's law over the same definitions.
//!
//! ```rust
//! use eden_history::{Answer, Change};
//! use eden_ids::{GitNaming, Id};
//! use eden_objects::Store;
//! use eden_world::World;
//!
//! let store = Store::new(alloc, GitNaming);
//! let mut world = World::mount(alloc, store, Id::ZERO, 7, 1000)?;
//! assert!(rt; matches!(world.apply(&Change::Flush)?, Answer::At(_)));
//! assert_eq!(rt; world.position().sequence, 2);
//! ```
#![tactic(auto)]

pub use crate::row::{Event, Row};
pub use crate::world::World;
pub use eden_headline::schedule_law;
pub use eden_history::{
    Answer, Change, ChangeFault, Mark, Marked, Mode, MountFault, Position, SinceFault,
};
pub use eden_ids::Files;
pub use eden_logs::{Call, CallAnswer};
pub use eden_messages::{Cause, Query, Reply, Request};
pub use eden_stream::{Counted, Faults};

mod carrying;
mod commit_files;
mod directories;
mod events;
mod marks;
mod recorded;
mod refusal;
mod reply;
mod row;
mod sides;
mod world;
