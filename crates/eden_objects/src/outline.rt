//! What is kept of a tree besides its payload.
//!
//! With it no child is read to check a tree, and entries are found and compared without
//! reading them one by one.
use crate::size::Size;
use eden_git::Columns;

/// The size of a tree, its number of files and its columns.
#[derive(Drop)]
pub(crate) struct Outline {
    pub(crate) size: Size,
    /// The number of files below the tree, at most `usize::MAX`.
    pub(crate) files: usize,
    pub(crate) columns: Columns,
}
