//! Why a commit cannot be mounted.

use eden_ids::Naming;
use eden_objects::{CommitFault, Store};
use std::error::Error;
use std::fmt;

/// Why a commit cannot be mounted, with the store passed in.
#[derive(Drop)]
pub struct MountFault<N: Naming + Drop> {
    /// The store, unchanged.
    pub store: Store<N>,
    /// The cause: the id is not that of a commit, or an allocation failed.
    pub cause: CommitFault,
}

impl<N: Naming + Drop> fmt::Debug for MountFault<N> {
    fn fmt<W: fmt::Write>(&self, f: &mut fmt::Formatter<W>) -> fmt::Result {
        write!(f, "{:?}", self.cause)
    }
}

impl<N: Naming + Drop> fmt::Display for MountFault<N> {
    fn fmt<W: fmt::Write>(&self, f: &mut fmt::Formatter<W>) -> fmt::Result {
        write!(f, "{}", self.cause)
    }
}

impl<N: Naming + Drop> Error for MountFault<N> {}
