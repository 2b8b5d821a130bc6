//! Git's format: the types of objects, the entries of trees and their order, and the tree of a
//! commit.
//!
//! ```rust
//! use eden_git::{number, tree_named};
//!
//! let commit = b"tree 4b825dc642cb6eb9a060e54bf8d69288fbee4904\n".as_slice();
//! let tree = tree_named(commit);
//! assert!(rt; tree.is_some());
//! assert_eq!(rt; number(b"65536".as_slice()), Some(65_536));
//! assert_eq!(rt; number(b"065536".as_slice()), None);
//! ```
#![tactic(auto)]

pub use crate::columns::Columns;
pub use crate::commit::tree_named;
pub use crate::decimal::number;
pub use crate::directory::next_entry;
pub use crate::entry::{RawEntry, cut, read_entry};
pub use crate::fault::EntryFault;
pub use crate::object_type::{ObjectType, same_type};
pub use crate::order::key_order;
pub use crate::rows::{Entries, Rows};

mod columns;
mod commit;
mod decimal;
mod directory;
mod entry;
mod fault;
mod object_type;
mod order;
mod rows;
mod search;
