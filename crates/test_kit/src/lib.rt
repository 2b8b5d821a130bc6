//! What tests share: stores that lines of a script put, changes, payloads in Git's format, right or wrong as the test wants them, a naming
//! under which objects collide, a batch that Git printed, bodies of messages and ones that are drawn by lot, and a table of scripts with what each
//! prints, which can be played over whatever stands for a mount.
//!
//! ```rust
//! use eden_ids::Id;
//! use test_kit::{Objects, commit_of, push_entry};
//!
//! let objects = Objects::of(alloc, "blob x hello;tree t 100644 a x;commit c t")?;
//! assert!(rt; objects.store.has_commit(objects.id("c")));
//! let mut tree = Vec::new(alloc);
//! push_entry(&mut tree, "100644", b"notes".as_slice(), Id::ZERO)?;
//! assert_eq!(rt; tree.len(), 33);
//! assert_eq!(rt; commit_of(alloc, Id::ZERO, "")?.len(), 46);
//! ```
#![tactic(auto)]

pub use crate::batch::{GIT_PRINTED, GIT_PRINTED_IDS};
pub use crate::bodies::{PLACE_BYTES, QUERY_BYTES, REPLY_BODIES, REQUEST_BODIES};
pub use crate::changes::{filter_of, path, plain, remove, rename, write, write_too_large};
pub use crate::commits::{Commits, family};
pub use crate::generated::{Bodies, framed};
pub use crate::imports::Roots;
pub use crate::lot::{LOT_PATHS, Lot};
pub use crate::naming::FirstByte;
pub use crate::objects::{Objects, PUT_FAULTS};
pub use crate::outcomes::Outcomes;
pub use crate::payload::{commit_of, push_entry, tree_of};
pub use crate::played::Played;
pub use crate::player::first_wrong;
pub use crate::rows::{ANSWER_ROWS, CHANGE_ROWS, LABEL_ROWS, OBJECT_ROWS, Row};
pub use crate::text::{differing_line, joined, lines, spaced};

mod batch;
mod bodies;
mod changes;
mod commits;
mod generated;
mod imports;
mod labels;
mod lot;
mod mounted;
mod naming;
mod objects;
mod outcomes;
mod payload;
mod played;
mod player;
mod rows;
mod text;
