//! What changed since a position: ranges of a journal, and the marked paths that they
//! name.
//!
//! `accumulate` takes a `Range` from a journal, as EdenFS's `accumulateRange` does: the
//! paths at which files changed, the directories that were renamed, the unclean paths,
//! and the roots that the mount passed through. It needs no store, so it can be done
//! quickly under a mount's lock.
//!
//! `expand` then adds the paths at which neighbouring roots differ, which it finds by
//! comparing their trees in a store, and gives each path its `Mark`. `expand_admitted`
//! does so for the paths that a filter admits alone, and `expand_owned` moves the paths
//! of a range that is no longer needed.
//!
//! `owe` takes what a range is made of and gathers nothing. `Due::expand_admitted` makes the
//! marked paths of that at once, without a range.
//!
//! ```rust
//! use eden_history::Position;
//! use eden_ids::{GitNaming, Id, Path};
//! use eden_journal::{FileDelta, Journal};
//! use eden_objects::Store;
//! use eden_ranges::{accumulate, expand};
//!
//! let mut journal = Journal::new(alloc, 7, Id::ZERO, 1000);
//! let delta = FileDelta::created(Path::parse(alloc, b"notes".as_slice())?);
//! assert_eq!(rt; journal.add_file(&delta), Ok(2));
//! let mounted = Position {
//!     generation: 7,
//!     sequence: 1,
//!     root: Id::ZERO,
//! };
//! let range = accumulate(alloc, &journal, &mounted)?;
//! let store = Store::new(alloc, GitNaming);
//! assert_eq!(rt; expand(alloc, &store, &range)?.len(), 1);
//! ```
#![tactic(auto)]

pub use crate::expanding::{expand, expand_admitted, expand_owned};
pub use crate::laws::{changes_law, commits_law, range_law};
pub use crate::ranges::{Due, Range, accumulate, owe};

mod expanding;
mod gathering;
mod laws;
mod mentions;
mod merging;
mod owed;
mod ranges;
mod sorting;
