//! The table of worked scripts, played over the plain program.

use crate::renames::first_wrong_case;
use eden_history::{Answer, Change, ChangeFault, MountFault};
use eden_ids::{GitNaming, Id};
use eden_messages::{Reply, Request};
use eden_objects::{CommitFault, Store};
use eden_world::World;
use std::alloc::Global;
use std::test::Fail;
use test_kit::{Objects, Played, first_wrong, write_too_large};

/// The plain program, which is given copies of what is asked of it, and gives copies of what it answers.
#[derive(Drop)]
struct Plain {
    world: World<GitNaming>,
}

impl Played for Plain {
    fn mount(
        alloc: Global,
        store: Store<GitNaming>,
        root: Id,
        generation: u64,
        limit: u64,
    ) -> Result<Plain, MountFault<GitNaming>> {
        let world = World::mount(alloc, store, root, generation, limit)?;
        Ok(Plain { world })
    }

    fn change(&mut self, change: &Change) -> Result<Answer, Fail> {
        Ok(self.world.apply(&change.copy()?)?.copy()?)
    }

    fn ask(&mut self, _alloc: Global, request: &Request) -> Result<Reply, Fail> {
        Ok(self.world.reply(&request.copy()?)?.copy()?)
    }
}

#[test]
fn worked_rows(rt: HostRuntime) -> Result<(), Fail> {
    assert_eq!(rt; first_wrong::<Plain>(rt.alloc())?, None);
    Ok(())
}

// A store in which there is no such commit comes back as it was.
#[test]
fn no_such_commit(rt: HostRuntime) -> Result<(), Fail> {
    let alloc = rt.alloc();
    let objects = Objects::of(alloc, "blob b x")?;
    let blob = objects.id("b");
    let Err(fault) = World::mount(alloc, objects.store, blob, 7, 1000) else {
        return Err(Fail::new("a blob is no commit"));
    };
    assert!(rt; fault.cause == CommitFault::NoCommit);
    assert!(rt; fault.store.blob(blob) == Some(b"x".as_slice()));
    Ok(())
}

// No line of a script is long enough for the first one.
#[test]
fn change_refusals(rt: HostRuntime) -> Result<(), Fail> {
    let alloc = rt.alloc();
    let store = Store::new(alloc, GitNaming);
    let mut world = World::mount(alloc, store, Id::ZERO, 7, 1000)?;
    let answer = world.apply(&write_too_large(alloc)?)?;
    assert!(rt; answer == Answer::Refused(ChangeFault::TooLarge));
    assert_eq!(rt; world.floor()?, 1);
    assert_eq!(rt; first_wrong_case(alloc)?, None);
    Ok(())
}
