//! Reads the objects that `git cat-file --batch` prints into a store or a mount.
//!
//! A whole repository can be read in this way. The definitions are in `specs/`: the bytes of
//! objects, what is held after they are put, and how a reading ends.
//!
//! ```rust
//! use eden_batch::read_objects;
//! use eden_ids::GitNaming;
//! use eden_objects::Store;
//! use eden_stream::Counted;
//!
//! let mut store = Store::new(alloc, GitNaming);
//! let printed = b"ce013625030ba8dba906f756967f9e9ca394464a blob 6\nhello\n\n".as_slice();
//! let ids = read_objects(alloc, &mut Counted::new(printed), &mut store)?;
//! assert_eq!(rt; ids.len(), 1);
//! assert!(rt; store.blob(ids.as_slice()[0]) == Some(b"hello\n".as_slice()));
//! ```
#![tactic(auto)]

pub use crate::batch::read_objects;
pub use crate::fault::{ObjectFault, ObjectsFault};
pub use crate::laws::objects_law;

mod batch;
mod fault;
mod fields;
mod framing;
mod header;
mod laws;
mod putting;
