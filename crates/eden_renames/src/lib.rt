//! Renamed directories of a commit, and the commit's files as they are seen after the
//! renames.
//!
//! A rename lists and copies nothing of the commit. `Renames` notes for some directories
//! which directory of the commit is seen there, or that nothing is; `rename` adds to it.
//! The nearest such directory above a path decides which file is seen at the path.
//!
//! `Renamed` is a commit together with such renames. It is asked for its files as any other
//! `FileTree`, and lists them in byte order. `Renames::unsettled` returns the paths at
//! which another file may be seen than the commit's own.
//!
//! ```rust
//! use eden_globs::Filter;
//! use eden_ids::{GitNaming, Id, Path};
//! use eden_renames::{Renamed, Renames};
//! use eden_objects::Store;
//!
//! let store = Store::new(alloc, GitNaming);
//! let mut renames = Renames::new(alloc);
//! let old = Path::parse(alloc, b"src".as_slice())?;
//! let new = Path::parse(alloc, b"lib".as_slice())?;
//! renames.rename(&old, &new)?;
//! assert_eq!(rt; renames.entries().len(), 2);
//! let renamed = Renamed::of(store.commit_files(Id::ZERO), &renames);
//! assert!(rt; renamed.file(b"lib/main".as_slice()).is_none());
//! assert!(rt; renamed.list(alloc, &Filter::all(alloc))?.is_empty());
//! ```
#![tactic(auto)]

pub use crate::laws::renames_law;
pub use crate::renamed::Renamed;
pub use crate::renames::Renames;
pub use crate::renaming::Renaming;
pub use crate::source::{Source, joined};

mod below;
mod laws;
mod listing;
mod passes;
mod renamed;
mod renames;
mod renaming;
mod searching;
mod sorting;
mod source;
mod unsettled;
