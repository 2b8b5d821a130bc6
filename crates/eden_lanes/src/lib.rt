//! Comparisons of whole columns: which rows differ, how many do, and which row holds an
//! id.
//!
//! `differ_rows`, `count_differing` and `find_row` work on columns of ids (`IdColumn`),
//! and `differ_kinds` on columns of kinds, one byte each. Ids are compared eight at a
//! time, word by word, and kinds thirty-two at a time; the rest is compared one by one.
//! The results are the same as one by one, at every length. A column is read once and
//! never copied.
//!
//! `rows_law` and `kinds_law` state what the rows are.
//!
//! ```rust
//! use eden_ids::{Id, IdColumn};
//! use eden_lanes::{differ_rows, find_row};
//!
//! let mut before = IdColumn::new(alloc);
//! let mut after = IdColumn::new(alloc);
//! for row in 0..9 {
//!     before.push(Id([row; 20]))?;
//!     after.push(Id([if row == 8 { 255 } else { row }; 20]))?;
//! }
//! assert_eq!(rt; before.len(), after.len());
//! assert!(rt; differ_rows(alloc, &before, &after)?.as_slice() == [8].as_slice());
//! assert_eq!(rt; find_row(&after, Id([255; 20])), Some(8));
//! ```
#![tactic(auto)]

mod find;
mod ids;
mod kinds;
mod laws;
mod vectors;

pub use find::find_row;
pub use ids::{count_differing, differ_rows};
pub use kinds::differ_kinds;
pub use laws::{kinds_law, rows_law};
