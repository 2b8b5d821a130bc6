//! Filters: which paths a client is interested in.
//!
//! A `Filter` has patterns, such as `src/**` or `*.md`. It admits a path if one of its
//! included patterns matches the whole path, and none of its excluded patterns does; a
//! filter without included patterns admits every path that is not excluded. Patterns are
//! read once, when the filter is made, and are then matched in a time that grows with the
//! pattern's length times the path's, without allocating.
//!
//! A walk over a tree asks `Filter::admits_below` before it reads a directory. `Front`
//! does this for it: it keeps the path of the directory that is read, and makes a `Path`
//! only of a file that the filter admits. `filter_law` states what the common patterns
//! admit and exclude.
//!
//! ```rust
//! use eden_globs::Filter;
//! use eden_ids::Path;
//!
//! let filter = Filter::parse(alloc, &[b"src/**".as_slice(), b"*.md".as_slice()])?;
//! assert!(rt; filter.admits(&Path::parse(alloc, b"src/lib.rs".as_slice())?));
//! assert!(rt; filter.admits(&Path::parse(alloc, b"README.md".as_slice())?));
//! assert!(rt; !filter.admits(&Path::parse(alloc, b"docs/formats.md".as_slice())?));
//!
//! let sources = filter.except(&Filter::parse(alloc, &[b"**/*.md".as_slice()])?)?;
//! assert!(rt; sources.admits(&Path::parse(alloc, b"src/lib.rs".as_slice())?));
//! assert!(rt; !sources.admits(&Path::parse(alloc, b"README.md".as_slice())?));
//! ```
#![tactic(auto)]

pub use crate::filter::{Filter, FilterFault};
pub use crate::front::Front;
pub use crate::laws::filter_law;

mod filter;
mod front;
mod laws;
mod matching;
mod pattern;
mod stored;
