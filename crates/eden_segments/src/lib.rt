//! Tables from ids to values that grow in place, and whose copies take a few pointers.
//!
//! ```rust
//! use eden_ids::Id;
//! use eden_segments::{Counted, Table};
//!
//! let mut table = Table::new(alloc);
//! table.add(Id([1; 20]), Counted::new(alloc, 1)?)?;
//!
//! // A copy keeps its rows, and each of the two tables grows by itself.
//! let copy = table.share()?;
//! if table.get(Id([2; 20])).is_none() {
//!     table.add(Id([2; 20]), Counted::new(alloc, 2)?)?;
//! }
//! assert!(rt; copy.get(Id([1; 20])).is_some_and(|value| **value == 1));
//! assert!(rt; table.get(Id([2; 20])).is_some() && copy.get(Id([2; 20])).is_none());
//! ```
#![tactic(auto)]

pub use crate::counted::Counted;
pub use crate::share::Share;
pub use crate::table::Table;

mod counted;
mod freezing;
mod segment;
mod share;
mod table;
