//! `follow demo` as a library.
//!
//! Two writers change a mount while two followers keep mirrors of it, each in a thread of its own.
//! Then the mount's history is audited, and the followers are vouched for.
//!
//! ```rust
//! use eden_demo::demo;
//!
//! let mut text = Vec::new(alloc);
//! assert_eq!(rt; demo(rt, alloc, &mut text), Ok(()));
//! assert!(rt; text.as_slice() == b"audit ok\nfollowers agree\n".as_slice());
//! ```
#![tactic(auto)]

pub use crate::demonstration::demo;
pub use crate::fault::DemoFault;

mod crew;
mod demonstration;
mod fault;
mod following;
mod judging;
mod line;
mod serving;
mod threads;
mod verdict;
mod watch;
mod writing;
