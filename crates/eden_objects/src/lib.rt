//! A store of Git's objects: blobs, trees and commits, in memory.
//!
//! `put_blob`, `put_tree` and `put_commit` add an object under the id that a naming gives
//! it. An object refers only to objects that are in the store already, so every tree and
//! every commit can be read whole. An object stays forever, and no other one gets its id.
//! `import` puts several objects, all or none, and shares their payloads rather than copy
//! them. `share` returns a copy of the store that shares its objects.
//!
//! A commit's files are found by `lookup` and `list`, or through `Commit`, which is found
//! once and then asked as a `FileTree`. A `Stat` is a file without its bytes. A store keeps each tree's entries in columns
//! (`rows`), with its size and the number of its files. So trees are checked and counted
//! without reading what is below them.
//!
//! ```rust
//! use bytes::Bytes;
//! use eden_ids::{GitNaming, Naming, Path};
//! use eden_objects::{Object, Store, ObjectType};
//!
//! let mut store = Store::new(alloc, GitNaming);
//! let file = store.put_blob(b"hello\n".as_slice())?;
//! let mut tree = Vec::new(alloc);
//! tree.extend_from_slice(b"100644 README\0".as_slice())?;
//! tree.extend_from_slice(file.0.as_slice())?;
//! let tree = store.put_tree(tree.as_slice())?;
//! let mut commit = Vec::new(alloc);
//! commit.extend_from_slice(b"tree ".as_slice())?;
//! commit.extend_from_slice(tree.to_hex().as_slice())?;
//! commit.extend_from_slice(b"\n".as_slice())?;
//! let commit = store.put_commit(commit.as_slice())?;
//! let readme = Path::parse(alloc, b"README".as_slice())?;
//! assert!(rt; matches!(store.lookup(commit, &readme), Ok(Some((_, id))) if id == file));
//!
//! // A copy keeps the objects that it has, and several objects are imported together, or none of them.
//! let copy = store.share()?;
//! let mut objects = Vec::new(alloc);
//! for bytes in [b"more\n".as_slice(), b"and more\n".as_slice()] {
//!     let payload = Bytes::copy_from_slice(alloc, bytes)?;
//!     objects.push(Object {
//!         object_type: ObjectType::Blob,
//!         payload,
//!     })?;
//! }
//! store.import(objects.as_slice())?;
//! let more = GitNaming.id_of(b"blob".as_slice(), b"more\n".as_slice());
//! assert!(rt; store.blob(more).is_some() && copy.blob(more).is_none());
//! ```
#![tactic(auto)]

pub use crate::commit::Commit;
pub use crate::entries::Entry;
pub use crate::fault::{CommitFault, NoCommit, PutFault};
pub use crate::import::{ImportFault, Object};
pub use crate::importer::Importer;
pub use crate::laws::{commit_map_law, grown_law, same_object_law, tree_law};
pub use crate::passing::{Nothing, Passes};
pub use crate::payload::Payload;
pub use crate::size::Size;
pub use crate::stat::Stat;
pub use crate::store::Store;
pub use eden_git::{ObjectType, RawEntry, Rows, key_order, next_entry};

mod commit;
mod counts;
mod earlier_entries;
mod entries;
mod fault;
mod import;
mod importer;
mod judge;
mod laws;
mod list;
mod lookups;
mod outline;
mod passing;
mod payload;
mod search;
mod size;
mod stat;
mod store;
mod stored;
mod trail;
mod walk;
