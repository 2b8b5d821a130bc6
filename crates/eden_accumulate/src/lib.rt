//! A mount: a working copy of a commit, and the journal of what changed in it.
//!
//! A `Mount` owns a store of objects, a working copy and a journal. The changes are
//! `write`, `remove`, `rename`, `rename_dir`, `checkout`, `reset`, `flush`, `remount` and
//! `import`. Each is refused with a `ChangeFault`, or is made and answered with the
//! position after it. The journal records those that make an event. `apply` makes a
//! change that is given as a value.
//!
//! `range_since` and `changes_since` say what changed since a position. A `Snapshot`
//! remembers which files there were, without contents, so that they can be listed after
//! the mount's lock is released.
//!
//! A mount keeps no history. Its contracts compare it with a world (eden_history), which
//! does. Its tests are in `test_beside`.
//!
//! ```rust
//! use eden_accumulate::Mount;
//! use eden_ids::{GitNaming, Id, Kind, Path};
//! use eden_objects::Store;
//!
//! let store = Store::new(alloc, GitNaming);
//! let mut mount = Mount::mount(alloc, store, Id::ZERO, 7, 1000)?;
//! let mounted = mount.position();
//! let notes = Path::parse(alloc, b"notes".as_slice())?;
//! mount.write(&notes, Kind::Plain, b"to do".as_slice())?;
//! let changes = mount.changes_since(&mounted)?;
//! assert_eq!(rt; (changes.to.sequence, changes.marked.len()), (2, 1));
//! ```
#![tactic(auto)]

pub use crate::laws::more_objects_law;
pub use crate::mount::Mount;
pub use crate::range::Changes;
pub use crate::root::Checked;
pub use crate::snapshot::Snapshot;
pub use eden_history::{ChangeFault, Mode, MountFault, Position};
pub use eden_ranges::{Due, Range, accumulate, expand};

mod apply;
mod change;
mod directory;
mod import;
mod importer;
mod laws;
mod mount;
mod names;
mod range;
mod root;
mod snapshot;
