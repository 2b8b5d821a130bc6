//! Changes that lie over files: for some paths the file there, or that the path is absent.
//!
//! [`Overlay`] keeps these entries in byte order of their paths, cut into blocks. So a change moves
//! the entries of one block alone. [`Overlay::carry`] moves a directory's entries to another
//! directory. No call lists or copies the files below. [`woven`] lists the paths that are seen, from
//! a list of those below and the touched ones.
//!
//! [`place_of`], [`value_at`] and [`put_reserved`] are for any entries in byte order of their paths.
//!
//! An overlay knows paths and contents. It knows no store and no commit: a working copy says over
//! which files it lies. `specs/Layers.antt` says what is seen then, as `over`, and
//! `specs/Carried.antt` what it means to carry a directory; [`carried_path`] carries one path.
//!
//! ```rust
//! use bytes::Bytes;
//! use eden_ids::{Content, Kind, Path};
//! use eden_overlay::Overlay;
//!
//! let notes = Path::parse(alloc, b"notes".as_slice())?;
//! let empty = Content {
//!     kind: Kind::Plain,
//!     bytes: Bytes::new(),
//! };
//! let mut overlay = Overlay::new(alloc);
//! overlay.set(notes.copy()?, Some(empty))?;
//! // The file is there, of another path nothing is said.
//! assert!(rt; overlay.get(notes.as_bytes()).is_some());
//! assert!(rt; overlay.get(b"other".as_slice()).is_none());
//! // That no file is there is an entry too, until it is forgotten.
//! overlay.set(notes.copy()?, None)?;
//! assert!(rt; overlay.get(notes.as_bytes()).is_some());
//! overlay.forget(notes.as_bytes());
//! assert!(rt; overlay.get(notes.as_bytes()).is_none());
//! ```
#![tactic(auto)]

pub use crate::ascending::{place_of, put_reserved, value_at};
pub use crate::carried::{CarryFault, carried_path};
pub use crate::carried_laws::carried_law;
pub use crate::entries_walk::Walk;
pub use crate::laws::over_law;
pub use crate::overlay::Overlay;
pub use crate::weaving::woven;

mod ascending;
mod blocks;
mod carried;
mod carried_laws;
mod edge;
mod entries_below;
mod entries_walk;
mod laws;
mod marks;
mod overlay;
mod overlay_carry;
mod weaving;
