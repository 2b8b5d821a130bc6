//! One mount that several threads ask and change at once.
//!
//! A lock is held for a change, or for what a request asks for as it is then. The reply is made
//! without the lock. There are two such locks.
//!
//! `Shared` is over a server that stores its history. Each call that is taken gets a ticket: the
//! number of the call in the one order in which all were taken. What each caller did and was
//! answered is in the log of its `Desk`. An audit says whether the logs agree with the history. The
//! audited mount and the audit are eden_shared's, and are exported from here too. `serve_shared`
//! answers the requests of a connection at a desk. `serve_shared_writable` also makes the changes
//! that it asks for.
//!
//! `Unlogged` is over any server. No call has a number, and no caller has a log, so nothing grows
//! with the number of calls, and no audit can be made. Proofs still count the changes: each reply
//! is right of what exactly some number of changes have made of the server. A poll can wait until
//! there is a change that it would name. `serve_unlogged` answers the frames of a connection, which
//! may change the server if it has a pass.
//!
//! `HeadWord` is a number that threads share and that only rises. It is a hint when to poll. A
//! caller that has changed something raises the ticket of the change. A follower loads the number,
//! and polls if it has risen. None of its calls waits or takes a lock.
//!
//! What makes a lock is a function over a ledger, here `L: Ledger` and `K: Origin`, which is called
//! with `Brand`:
//!
//! ```rust
//! use eden_accumulate::Mount;
//! use eden_history::Change;
//! use eden_ids::{GitNaming, Id, Path};
//! use eden_messages::{Query, Reply, Request};
//! use eden_objects::Store;
//! use eden_shared::{Audited, Desk, HeadWord, Shared, Unlogged, audit};
//!
//! // A mount that stores its history.
//! let store = Store::new(alloc, GitNaming);
//! let mount = Mount::mount(alloc, store, Id::ZERO, 7, 1000)?;
//! let shared = Shared::<GitNaming, _, L>::new(Audited::new(alloc, mount)?, blank);
//! let mut desk = Desk::new(alloc, shared.pass(rt)?);
//! let (ticket, _) = desk.change(rt, &shared, &Change::Flush)?;
//! assert_eq!(rt; ticket, 1);
//! let (pass, log) = desk.finish();
//! let mut audited = shared.finish(vec![in alloc; pass]?)?;
//! let logs = vec![in alloc; log]?;
//! assert_eq!(rt; audit(alloc, &mut audited, logs.as_slice()), Ok(()));
//!
//! // One of which nothing is logged.
//! let store = Store::new(alloc, GitNaming);
//! let mount = Mount::mount(alloc, store, Id::ZERO, 7, 1000)?;
//! let (unlogged, mut passes) = Unlogged::<GitNaming, _, K>::new(mount, other);
//! let mut pass = passes.give()?;
//! let _position = unlogged.change(rt, &mut pass, &Change::Flush)?;
//! let query = Query {
//!     mirror: 1,
//!     life: 1,
//!     number: 1,
//! };
//! let path = Path::parse(alloc, b"a".as_slice())?;
//! let reply = unlogged.ask(rt, &Request::Fetch { query, path })?;
//! assert!(rt; matches!(&reply, Reply::ContentIs { content: None, .. }));
//! passes.take_back(pass);
//! let mount = unlogged.finish(passes)?;
//! assert_eq!(rt; mount.position().sequence, 2);
//!
//! // When to ask again.
//! let (head, mut writer) = HeadWord::new(alloc)?;
//! let mut follower = head.split(&mut writer);
//! assert_eq!(rt; head.load(&mut follower), 0);
//! head.raise(&mut writer, 5);
//! head.raise(&mut writer, 3);
//! assert_eq!(rt; head.load(&mut follower), 5);
//! ```
#![tactic(auto)]

pub use crate::audited::{Audited, AuditedFault};
pub use crate::auditing::audit;
pub use crate::desk::Desk;
pub use crate::following::{FollowFault, follows};
pub use crate::gate::{Gate, OpenGate};
pub use crate::head_seat::HeadSeat;
pub use crate::head_word::HeadWord;
pub use crate::origin::Origin;
pub use crate::pass::{CallersSpent, Pass, Passes};
pub use crate::patience::{LONGEST, Peer, Present};
pub use crate::serving::{serve_shared, serve_shared_writable};
pub use crate::shared::{PassMissing, Shared, Ticketed};
pub use crate::unlogged::{Holding, PassOut, Unlogged};
pub use crate::unlogged_serving::serve_unlogged;
pub use eden_logs::{AuditFault, Call, CallAnswer, CallLog, CallOutcome, HistoryEntry, LogEntry};

mod audited;
mod auditing;
mod bell;
mod checking;
mod desk;
mod following;
mod gate;
mod head_seat;
mod head_steps;
mod head_word;
mod judging;
mod marking;
mod origin;
mod pass;
mod patience;
mod replaying;
mod serving;
mod settling;
mod shared;
mod unlogged;
mod unlogged_serving;
