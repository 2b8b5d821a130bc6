//! Imports that are made or refused, by a mount and by the world alike.

use bytes::Bytes;
use eden_accumulate::Mount;
use eden_history::{Answer, Change, ChangeFault, Position};
use eden_ids::{Id, Sequence};
use eden_objects::{Object, ObjectType, PutFault, Store};
use eden_world::World;
use std::alloc::Global;
use std::process::Abort;
use std::test::Fail;
use test_kit::FirstByte;

/// Returns files of these texts, as objects that are imported.
fn files(alloc: Global, texts: &[&str]) -> Result<Sequence<Object>, Fail> {
    let mut objects = Vec::new(alloc);
    for text in texts {
        let payload = Bytes::copy_from_slice(alloc, text.as_bytes())?;
        objects.push(Object {
            object_type: ObjectType::Blob,
            payload,
        })?;
    }
    Ok(Sequence::from_vec(objects))
}

/// A mount and a world whose objects come to the same id where their first bytes are the same.
#[derive(Drop)]
struct Colliding {
    mount: Mount<FirstByte>,
    world: World<FirstByte>,
}

impl Colliding {
    fn opened(alloc: Global) -> Result<Colliding, Fail> {
        let world = World::mount(alloc, Store::new(alloc, FirstByte), Id::ZERO, 7, 1000)?;
        let mount = Mount::mount(alloc, Store::new(alloc, FirstByte), Id::ZERO, 7, 1000)?;
        Ok(Colliding { mount, world })
    }

    /// Imports such files by a change, and returns what both answer.
    fn import(&mut self, alloc: Global, texts: &[&str]) -> Result<Answer, Fail> {
        let objects = files(alloc, texts)?;
        let change = Change::Import { objects };
        let told = self.mount.apply(&change)?;
        if told == self.world.apply(&change)? {
            return Ok(told);
        }
        Err(Fail::new("the world answers otherwise"))
    }

    /// Imports such files by the mount's call, and returns the answer.
    fn call(&mut self, alloc: Global, texts: &[&str]) -> Result<Answer, Fail> {
        Ok(match self.mount.import(files(alloc, texts)?.as_slice()) {
            Ok(position) => Answer::At(position),
            Err(fault) => Answer::Refused(fault),
        })
    }
}

/// Which object an import is refused for, and why; none where it is made.
type Refusal = Option<(u64, PutFault)>;

/// Returns what an import is answered in a mount at this position.
fn answer_of(opening: Position, refusal: Refusal) -> Answer {
    match refusal {
        Some((place, fault)) => Answer::Refused(ChangeFault::BadObject { place, fault }),
        None => Answer::At(opening),
    }
}

/// Files that are imported together, the refusal, and the file under `a` after that.
const IMPORTS: &[(&[&str], Refusal, Option<&str>)] = &[
    (&["ab", "ac"], Some((1, PutFault::IdTaken)), None),
    (&["c", "", "ab", "ac"], Some((1, PutFault::ZeroId)), None),
    (&[], None, None),
    // Neither of the first two is there, nor the file before the one that has no id.
    (&["ac", "cd"], None, Some("ac")),
    (&["ac"], None, Some("ac")),
    (&["ac", "ac"], None, Some("ac")),
    (&["b", "ab"], Some((1, PutFault::IdTaken)), Some("ac")),
    (&["bc"], None, Some("ac")),
];

impl Colliding {
    /// Returns whether both are at a position, and have this file under `a`.
    fn has(&self, at: Position, file: Option<&str>) -> bool {
        let held = self.mount.store().blob(Id([b'a'; 20]));
        held == file.map(|text: &str| text.as_bytes())
            && self.mount.position() == at
            && self.world.position() == at
    }

    /// Imports each row, by a change and by a call, and checks what comes of it.
    fn import_all(&mut self, rt: &impl Abort, alloc: Global) -> Result<(), Fail> {
        let opening = Position {
            generation: 7,
            sequence: 1,
            root: Id::ZERO,
        };
        for (texts, refusal, file) in IMPORTS {
            let answer = answer_of(opening, *refusal);
            assert!(rt; self.import(alloc, texts)? == answer, "{texts:?}");
            assert!(rt; self.call(alloc, texts)? == answer, "{texts:?}");
            assert!(rt; self.has(opening, *file), "{texts:?}");
        }
        Ok(())
    }
}

#[test]
fn import_refusals(rt: HostRuntime) -> Result<(), Fail> {
    let alloc = rt.alloc();
    let mut both = Colliding::opened(alloc)?;
    both.import_all(&rt, alloc)
}
