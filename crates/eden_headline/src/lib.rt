//! The theorem about a mount and its mirrors, after any schedule of steps.
//!
//! Suppose that a mirror with a position differs from the working copy at a path that it
//! wants. Then its next poll lists that path or a renamed directory above it, or is
//! refused. `schedule_law` does nothing at run time: its contract is that this holds
//! after every schedule. It needs two files of definitions, besides what a mount, a reply
//! and a mirror are: `specs/Schedules.antt` says what can happen, step by step, and
//! `specs/Headline.antt` what holds at the end. In a schedule a store grows by a step of
//! its own. In `specs/Imports.antt` a change may also be an import of objects, and the
//! contract of `import_law` is that the same holds.
//!
//! A real run was such a schedule if the notes of it fit together. `specs/Notes.antt`
//! says what a follower notes, and `specs/Vouched.antt` when the logs of a mount's
//! callers vouch for its notes. `specs/Merges.antt` says how a history and the notes
//! merge into one schedule, and what follows. This is the contract of `merge_law`.
//!
//! ```rust
//! use eden_headline::{import_law, merge_law, schedule_law};
//!
//! schedule_law();
//! import_law();
//! merge_law();
//! ```
#![tactic(auto)]

pub use crate::import_laws::import_law;
pub use crate::merge_laws::merge_law;
pub use crate::note::Note;
pub use crate::schedule_laws::schedule_law;

mod import_laws;
mod merge_laws;
mod note;
mod schedule_laws;
