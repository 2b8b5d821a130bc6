//! Ten thousand bodies that are drawn by lot, served as a plain reader reads them.

use crate::calls::{opened, served};
use eden_accumulate::Mount;
use eden_ids::GitNaming;
use eden_query::{ServeFault, fault_of_frame};
use std::alloc::Global;
use std::test::Fail;
use test_kit::{Bodies, framed};
use test_wire::{QUESTION_TAGS, plain_fault};

/// Returns whether a body's frame is served where the plain reader reads a question, and else ends the serving by the plain reader's fault.
fn is_served_plainly(
    alloc: Global,
    mount: &mut Mount<GitNaming>,
    body: &[u8],
) -> Result<bool, Fail> {
    let wanted = match plain_fault(body, QUESTION_TAGS.as_slice()) {
        None => Ok(1),
        Some(fault) => {
            let fault = fault_of_frame(fault).ok_or("a plain reader wants memory")?;
            Err(ServeFault::Frame { number: 1, fault })
        }
    };
    let frame = framed(alloc, body)?;
    let (_, ended) = served(alloc, frame.as_slice(), mount);
    Ok(ended == wanted)
}

/// Returns the number of the first of ten thousand bodies that is served otherwise.
fn first_wrong(alloc: Global, mount: &mut Mount<GitNaming>) -> Result<Option<usize>, Fail> {
    let mut bodies = Bodies::new(1);
    for number in 0..10_000 {
        let body = bodies.body(alloc, 600)?;
        if !is_served_plainly(alloc, mount, body.as_slice())? {
            return Ok(Some(number));
        }
    }
    Ok(None)
}

/// The same of a mount of the empty commit.
fn first_wrong_body(alloc: Global) -> Result<Option<usize>, Fail> {
    let mut mount = opened(alloc)?;
    first_wrong(alloc, &mut mount)
}

#[test]
fn ten_thousand_bodies(rt: HostRuntime) -> Result<(), Fail> {
    assert_eq!(rt; first_wrong_body(rt.alloc())?, None);
    Ok(())
}
