//! `edend serve` as a library: a daemon that serves the mount of a script at a port, or at a Unix
//! socket.
//!
//! A script makes a mount up to its line `listen`. Then the mount is served to connections, while
//! the lines after `listen` change it. `Until` says how long: for a number of connections, after
//! which an audit compares what all callers noted with the mount's history; or as long as there is
//! input, while nothing is noted. Connections may change the mount too, if `Desks` or `Terms` say so.
//!
//! ```rust
//! use eden_edend::Objects;
//! use eden_serve::{Daemon, Desks, ScriptInput, Unobserved, Until, run_daemon};
//! use eden_sockets::Place;
//! use eden_stream::Counted;
//!
//! let script = b"mount empty 7 1000\nlisten\nwrite notes plain to\\sdo\n";
//! let mut input = ScriptInput::new(alloc, script.as_slice())?;
//! let mut text = Vec::new(alloc);
//! let mut writer = Counted::new(&mut text);
//! // A port that nobody listens at, and no connection.
//! let daemon = Daemon {
//!     objects: Objects::new(alloc),
//!     place: Place::Port(port),
//!     until: Until::Connections(Desks {
//!         count: 0,
//!         writable: false,
//!     }),
//! };
//! let ended = run_daemon(rt, alloc, daemon, &mut input, &mut writer, &Unobserved);
//! assert_eq!(rt; ended, Ok(()));
//! assert!(rt; text.starts_with(b"at 7 1 empty\nlistening ".as_slice()));
//! assert!(rt; text.ends_with(b"\naudit ok\n".as_slice()));
//! ```
#![tactic(auto)]

pub use crate::fault::DaemonFault;
pub use crate::input::ScriptInput;
pub use crate::listening::{Listening, listen};
pub use crate::observing::{Observer, Unobserved};
pub use crate::program::{Daemon, Desks, Terms, Until, run_daemon, serve_listener, serve_program};
pub use crate::stopping::Stoppable;
pub use crate::timely::Timely;

mod auditing;
mod changes;
mod connections;
mod end_of_lines;
mod fault;
mod input;
mod listening;
mod observing;
mod printing;
mod program;
mod station;
mod staying;
mod stopping;
mod timely;
