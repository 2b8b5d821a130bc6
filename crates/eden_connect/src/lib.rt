//! Keeps a mirror of a mount, as a client of the service that listens at a port or a Unix socket.
//!
//! A mirror follows by rounds. A round sends the outstanding requests and delivers a reply for
//! each, until the round has ended or no reply counted in it. Requests are sent before the replies
//! to earlier ones have come, as far as two full sockets can't block each other. If a connection is
//! lost, a new one is made, and the outstanding requests are sent again.
//!
//! ```rust
//! use eden_connect::{ConnectFault, Quiet, connect_program};
//! use eden_globs::Filter;
//! use eden_sockets::Place;
//!
//! let mut output = Vec::new(alloc);
//! let filter = Filter::all(alloc);
//! // Mirror 1 in its first life, for one round. Nobody listens on port 1.
//! let place = Place::Port(1);
//! let ended = connect_program(rt, alloc, &mut output, place, 1, 1, 1, &filter, &mut Quiet);
//! assert_eq!(rt; ended, Err(ConnectFault::NoConnection));
//! ```
#![tactic(auto)]

pub use crate::dial::Dial;
pub use crate::fault::{ConnectFault, RoundFault};
pub use crate::program::{connect_program, keep_mirror};
pub use crate::progress::{Progress, Quiet, Shown};
pub use crate::rounds::follow_rounds;

mod collector;
mod dial;
mod fault;
mod link;
mod program;
mod progress;
mod report;
mod rounds;
mod window;
