//! Ids, paths, file contents and file maps: the values that all other crates share.
//!
//! An `Id` names an object by twenty bytes, and a `Naming` gives the id of an object's
//! type and payload; `GitNaming` does so as Git does. A `Path` holds the bytes of a path
//! in a working copy, checked once when it is made. A `Content` is one file: its kind and
//! its bytes, which its copies share.
//!
//! `Files` maps paths to files: what a commit or a working copy holds. Whatever else can
//! look up the file at a path implements `FileTree`, and the functions beside it
//! (`has_file`, `clashes_any`, `is_same_at` ..) take any such tree. `PathTable` is a set
//! of paths, `IdColumn` a compact list of ids, and `Sequence` a `Vec` that is compared by
//! its items alone.
//!
//! Paths are ordered by their bytes everywhere.
//!
//! ```rust
//! use bytes::Bytes;
//! use eden_ids::{Content, Files, GitNaming, Kind, Naming, Path};
//!
//! let file = Path::parse(alloc, b"src/lib.rs".as_slice())?;
//! let directory = Path::parse(alloc, b"src".as_slice())?;
//! assert!(rt; file.is_below(&directory));
//!
//! // The id that Git gives a file of these bytes.
//! let id = GitNaming.id_of(b"blob".as_slice(), b"hello\n".as_slice());
//! assert!(rt; id.to_hex().as_slice() == b"ce013625030ba8dba906f756967f9e9ca394464a".as_slice());
//!
//! // A map of one file.
//! let mut files = Files::new(alloc);
//! let content = Content {
//!     kind: Kind::Plain,
//!     bytes: Bytes::new(),
//! };
//! files.insert(file.copy()?, content)?;
//! assert!(rt; files.get(&file).is_some());
//! ```
#![tactic(auto)]

pub use crate::below::{AtPath, has_path_below, paths_below};
pub use crate::column::IdColumn;
pub use crate::content::{Content, Kind};
pub use crate::file_tree::{
    FileTree, clashes_any, has_file, has_file_above, is_same_at, is_same_file, is_same_kind,
};
pub use crate::files::Files;
pub use crate::hex_text::{HexFault, hex_law, hex_text_law};
pub use crate::id::Id;
pub use crate::laws::{file_map_law, path_set_law};
pub use crate::memory::NoMemory;
pub use crate::naming::{GitNaming, Naming};
pub use crate::path::{NoPath, Path, PathFault, is_component, is_path};
pub use crate::path_table::PathTable;
pub use crate::sequence::Sequence;
pub use crate::text_laws::{bytes_law, id_law, path_law};
pub use crate::wanted::push_where;

mod below;
mod column;
mod content;
mod file_tree;
mod files;
mod hex_text;
mod id;
mod laws;
mod memory;
mod naming;
mod path;
mod path_table;
mod sequence;
mod text_laws;
mod wanted;
