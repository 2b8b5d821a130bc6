//! Devices that count, and a pump over them: it cuts a stream into items, lines among them, has
//! each answered, and writes the answers.
//!
//! ```rust
//! use eden_stream::{Counted, Faults, FrameFault, ServeFault};
//! use std::io::Read;
//!
//! let mut reader = Counted::new(b"some bytes".as_slice());
//! let mut place = [0; 4];
//! assert_eq!(rt; reader.read(&mut place)?, 4);
//! assert_eq!(rt; (reader.calls(), reader.faults()), (1, 0));
//! // What ended the serving of frames.
//! let fault = ServeFault::Frame {
//!     number: 2,
//!     fault: FrameFault::TooLarge,
//! };
//! assert!(rt; format!(in alloc; "{fault}")?.as_bytes() == b"frame 2: TooLarge".as_slice());
//! ```
#![tactic(auto)]

mod buffer;
mod counts;
mod cutting;
mod frame_fault;
mod frames;
mod framing;
mod lines;
mod machine;
mod nowhere;
mod output;
mod pump;
mod teller;
mod transfer;

pub use buffer::Buffer;
pub use counts::{Counted, CountedRead, CountedWrite, Faults};
pub use cutting::{BODY_LIMIT, frames_law};
pub use frame_fault::FrameFault;
pub use frames::{Frames, ServeFault, tell_frames};
pub use framing::{Framing, Next};
pub use lines::{Lines, RunFault, tell_lines};
pub use machine::{Answered, LineMachine, run_lines};
pub use nowhere::Nowhere;
pub use output::print;
pub use pump::{Stop, pump_items};
pub use teller::{Step, Teller};
pub use transfer::write_text;
