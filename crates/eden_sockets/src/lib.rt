//! Where a daemon is reached: at a port of this machine, or at a Unix socket that is its owner's.
//!
//! A `Listener` accepts connections at a `Place`, and `Place::connect` opens one there. Both ends
//! are a `Stream`, whichever kind of place it is. A socket is a file that nobody but its owner can
//! open, from its first moment on; anybody who has an account can connect to a port.
//!
//! ```rust
//! use eden_sockets::{Listener, Place, SocketPath};
//! use std::io::{Read, Write};
//!
//! let place = Place::Socket(SocketPath::new("example.socket")?);
//! let listener = Listener::open(rt, place)?;
//! let asking = place.connect(rt)?;
//! let asked = listener.accept()?;
//! (&asking).write_all(b"ping".as_slice())?;
//! let mut said = [0; 4];
//! (&asked).read_exact(&mut said)?;
//! assert!(rt; said == *b"ping");
//! // Both files stay until they are removed, or the next one who listens takes them over.
//! drop(listener);
//! place.remove_files(rt);
//! ```
#![tactic(auto)]

pub use crate::listener::{ListenFault, Listener};
pub use crate::place::Place;
pub use crate::socket_path::{SocketPath, SocketPathFault};
pub use crate::stream::Stream;

mod binding;
mod listener;
mod place;
mod socket_path;
mod stream;
