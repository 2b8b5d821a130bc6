//! The table of worked scripts, played over a mount that is asked by calls and by frames.

use crate::calls::{opened, served};
use eden_accumulate::Mount;
use eden_history::{Answer, Change, ChangeFault, MountFault};
use eden_ids::{GitNaming, Id};
use eden_messages::{Reply, Request};
use eden_objects::Store;
use eden_query::reply_to;
use std::alloc::Global;
use std::test::Fail;
use test_kit::{Played, first_wrong, write_too_large};
use test_wire::{frame_of_request, read_reply};

/// A mount that is asked everything twice: by a call, and by a frame.
#[derive(Drop)]
struct Asked {
    mount: Mount<GitNaming>,
}

/// What a mount replies by a frame to a request in one.
fn framed(alloc: Global, mount: &mut Mount<GitNaming>, request: &Request) -> Result<Reply, Fail> {
    let frame = frame_of_request(alloc, request)?;
    let (written, ended) = served(alloc, frame.as_slice(), mount);
    if ended != Ok(1) {
        return Err(Fail::new("one frame is not answered"));
    }
    let body = written.get(4..).unwrap_or(b"".as_slice());
    Ok(read_reply(alloc, body)?)
}

impl Played for Asked {
    fn mount(
        alloc: Global,
        store: Store<GitNaming>,
        root: Id,
        generation: u64,
        limit: u64,
    ) -> Result<Asked, MountFault<GitNaming>> {
        let mount = Mount::mount(alloc, store, root, generation, limit)?;
        Ok(Asked { mount })
    }

    fn change(&mut self, change: &Change) -> Result<Answer, Fail> {
        Ok(self.mount.apply(change)?)
    }

    fn ask(&mut self, alloc: Global, request: &Request) -> Result<Reply, Fail> {
        let reply = reply_to(&mut self.mount, 1, request)?;
        if framed(alloc, &mut self.mount, request)? == reply {
            return Ok(reply);
        }
        Err(Fail::new("another reply is framed"))
    }
}

#[test]
fn worked_rows(rt: HostRuntime) -> Result<(), Fail> {
    assert_eq!(rt; first_wrong::<Asked>(rt.alloc())?, None);
    Ok(())
}

/// Returns whether a mount refuses a file that is too large.
fn refuses_too_large(alloc: Global, mount: &mut Mount<GitNaming>) -> Result<bool, Fail> {
    let answer = mount.apply(&write_too_large(alloc)?)?;
    Ok(answer == Answer::Refused(ChangeFault::TooLarge))
}

/// The same of a mount of the empty commit.
fn is_refused(alloc: Global) -> Result<bool, Fail> {
    let mut mount = opened(alloc)?;
    refuses_too_large(alloc, &mut mount)
}

// No line of a script is long enough for this one.
#[test]
fn change_refusals(rt: HostRuntime) -> Result<(), Fail> {
    assert!(rt; is_refused(rt.alloc())?);
    Ok(())
}
