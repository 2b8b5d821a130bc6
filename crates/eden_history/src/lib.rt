//! The meaning of a mount: its history of changes, and what has changed since a position.
//!
//! A mount is modelled as a world (`specs/Worlds.antt`): the objects of a store, an
//! opening row and the events since. A `Change` is what a client asks for;
//! `specs/Outcome.antt` says whether it is refused and which event it makes, and with
//! which `Answer`. A `Position` names a row by its generation and sequence number, as
//! EdenFS's `JournalPosition` does. `specs/Changes.antt` and `specs/Marks.antt` say which
//! paths changed since a position, and how (`Mark`).
//!
//! The definitions are in `specs/`, one subject to a file. The other crates are proved
//! against them. The code here is the values of this vocabulary, and questions that do
//! not depend on how files are kept: why a change is refused (`write_fault`,
//! `rename_fault` ..) and what a checkout does at a path (`Sides`).
//!
//! ```rust
//! use eden_history::Change;
//! use eden_ids::Path;
//!
//! // A change is a value: what it does to a mount is said by `specs/Outcome.antt`, and no code here makes it.
//! let path = Path::parse(alloc, b"notes".as_slice())?;
//! let change = Change::Remove { path };
//! assert_eq!(rt; change.copy()?, change);
//! ```
#![tactic(auto)]

pub use crate::answer::{Answer, SinceFault};
pub use crate::change::{Change, ChangeFault, Mode};
pub use crate::checkout_laws::checkout_law;
pub use crate::described::Described;
pub use crate::dir_rename_laws::dir_rename_law;
pub use crate::dirty::Dirty;
pub use crate::listed::is_listed;
pub use crate::mark::{Mark, Marked};
pub use crate::mount_fault::MountFault;
pub use crate::position::Position;
pub use crate::presence::presence_at;
pub use crate::sides::Sides;
pub use crate::text_laws::change_law;
pub use crate::touches::Touch;
pub use crate::tree_faults::{
    absent_fault, free_fault, place_fault, rename_fault, source_fault, write_fault,
};

mod answer;
mod change;
mod checkout_laws;
mod described;
mod dir_rename_laws;
mod dirty;
mod listed;
mod mark;
mod mount_fault;
mod position;
mod presence;
mod sides;
mod text_laws;
mod touches;
mod tree_faults;
