//! What programs that measure share: numbers in some order, times, and a commit of many files.
#![tactic(auto)]

pub use crate::commit::put_commit;
pub use crate::order::{Order, scattered};
pub use crate::time::{each, nanoseconds};

mod commit;
mod order;
mod time;
