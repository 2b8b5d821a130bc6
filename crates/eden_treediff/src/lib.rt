//! The paths at which two commits of a store differ.
//!
//! `diff` walks both trees together, directory by directory. Directories with the same id
//! on both sides are not read. If two directories have the same names, their columns of
//! ids and kinds are compared whole (`eden_lanes`), and only the rows that differ are
//! visited. Pairs of trees that were found to hold the same files under different ids are
//! remembered and not read again.
//!
//! `diff_admitted` does the same for the paths that a filter admits, and reads no
//! directory below which the filter admits nothing. `merge_law` states what a difference
//! is.
//!
//! ```rust
//! use eden_ids::{GitNaming, Id};
//! use eden_objects::Store;
//! use eden_treediff::diff;
//!
//! let store = Store::new(alloc, GitNaming);
//! // The empty commit differs from itself nowhere.
//! assert!(rt; diff(alloc, &store, Id::ZERO, Id::ZERO)?.is_empty());
//! ```
#![tactic(auto)]

mod changed;
mod commit_diff;
mod difference;
mod known_pairs;
mod laws;
mod merge;
mod pair;
mod side;

pub use commit_diff::{diff, diff_admitted};
pub use laws::merge_law;
