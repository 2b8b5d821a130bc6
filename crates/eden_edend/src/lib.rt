//! A script of objects, changes and questions, run over a store and a mount.
//!
//! ```rust
//! use eden_edend::run;
//! use eden_stream::Counted;
//!
//! let mut text = Counted::new(Vec::new(alloc));
//! let mut script = Counted::new(b"mount empty 7 1000\nposition\n".as_slice());
//! assert_eq!(rt; run(alloc, &mut script, &mut text), Ok(2));
//! ```
#![tactic(auto)]

pub use crate::changer::{Changer, run_changes};
pub use crate::changes::change_of;
pub use crate::input::LineInput;
pub use crate::labels::Labels;
pub use crate::objects::Objects;
pub use crate::opened::{Opened, run_to_listen};
pub use crate::script::{run, run_over};
pub use eden_stream::RunFault;

mod changer;
mod changes;
mod commits;
mod input;
mod labels;
mod objects;
mod opened;
mod printing;
mod questions;
mod script;
mod session;
