//! The plan of a checkout: what it would do to a working copy.
//!
//! `plan` takes a store, a working copy and a commit, and returns the working copy after
//! the checkout, the unclean paths and the conflicts. It changes nothing itself; a mount
//! adopts the plan and records it in its journal. The modes are those of EdenFS's
//! `CheckoutMode`: `Normal` keeps changed files, `Force` replaces them, and `Dry` reports
//! the conflicts alone.
//!
//! The rules for single paths are in eden_history (`Sides`, `specs/Checkouts.antt`).
//!
//! ```rust
//! use eden_checkout::plan;
//! use eden_history::Mode;
//! use eden_ids::{GitNaming, Id};
//! use eden_objects::Store;
//! use eden_workcopy::WorkCopy;
//!
//! let store = Store::new(alloc, GitNaming);
//! let work = WorkCopy::new(alloc, &store, Id::ZERO)?;
//! let planned = plan(alloc, &store, &work, Id::ZERO, Mode::Normal)?;
//! assert!(rt; planned.conflicts.is_empty() && planned.unclean.is_empty());
//! ```
#![tactic(auto)]

pub use crate::checkout::{Planned, plan};

mod apply;
mod checkout;
