//! A working copy: the files of a commit, and those that were changed since.
//!
//! A [`WorkCopy`] has three parts: the id of its root's commit, which directories of the commit
//! were renamed ([`eden_renames::Renames`]), and an overlay of changed paths
//! ([`eden_overlay::Overlay`]). It borrows a store for each call, and holds no copy of a file that
//! was not changed. `specs/Meanings.antt` says which files it holds there, as `means`.
//!
//! `over` lends these files as a tree, and the questions ask that. `write`, `remove`, `rename` and
//! `rename_dir` say why they refuse before they change anything; `put_file`, `take_file`,
//! `move_file` and `set` change without asking, for callers that have asked. `revert` takes changes
//! at a path back, `dirty` and `touched` list what was changed, and `reroot` puts the same files
//! over another commit.
//!
//! ```rust
//! use eden_ids::{GitNaming, Id, Kind, Path};
//! use eden_objects::Store;
//! use eden_workcopy::WorkCopy;
//!
//! let store = Store::new(alloc, GitNaming);
//! let mut work = WorkCopy::new(alloc, &store, Id::ZERO)?;
//! let notes = Path::parse(alloc, b"notes".as_slice())?;
//! work.write(&store, &notes, Kind::Plain, b"to do".as_slice())?;
//! assert_eq!(rt; work.dirty(&store)?.len(), 1);
//! ```
#![tactic(auto)]

pub use crate::laws::{elsewhere_law, touched_law};
pub use crate::marking::dirty_marks;
pub use crate::work::WorkCopy;
pub use crate::working::Working;

mod carrying;
mod changes;
mod dirty;
mod flat;
mod laws;
mod list;
mod marking;
mod renaming;
mod reroot;
mod revert;
mod touching;
mod unjudged;
mod work;
mod working;
