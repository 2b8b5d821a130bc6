//! Which positions a mount has had, and what was where then.

use eden_history::{Answer, Change, Position};
use eden_ids::{Content, Files, GitNaming, Id, Path};
use eden_objects::Store;
use eden_world::{Row, World};
use std::alloc::Global;
use std::test::Fail;

/// A position, and the files of then.
#[derive(Drop)]
struct Moment {
    position: Position,
    files: Files,
}

/// A world, and all that it has been, the oldest moment first.
#[derive(Drop)]
pub(crate) struct Past {
    world: World<GitNaming>,
    moments: Vec<Moment>,
}

/// Returns what the world is now, to be kept.
fn moment_of(world: &World<GitNaming>) -> Result<Moment, Fail> {
    let position = world.position();
    let files = world.now().files().copy()?;
    Ok(Moment { position, files })
}

/// Returns the first moment of a world.
fn first_moments(alloc: Global, world: &World<GitNaming>) -> Result<Vec<Moment>, Fail> {
    Ok(vec![in alloc; moment_of(world)?]?)
}

impl Past {
    /// Mounts a commit as a world, in generation 7, with a journal of this limit.
    pub(crate) fn mounted(
        alloc: Global,
        store: Store<GitNaming>,
        root: Id,
        limit: u64,
    ) -> Result<Past, Fail> {
        let world = World::mount(alloc, store, root, 7, limit)?;
        let moments = first_moments(alloc, &world)?;
        Ok(Past { world, moments })
    }

    /// Makes a change, and keeps what the world is after it.
    pub(crate) fn apply(&mut self, change: &Change) -> Result<Answer, Fail> {
        let before = self.world.position();
        let answer = self.world.apply(change)?;
        if self.world.position() != before {
            self.moments.push(moment_of(&self.world)?)?;
        }
        Ok(answer)
    }

    /// Returns the present position.
    pub(crate) fn position(&self) -> Position {
        self.world.position()
    }

    /// Adds the paths of the present files that are not among these.
    pub(crate) fn add_paths(&self, paths: &mut Vec<Path>) -> Result<(), Fail> {
        for path in self.now().files().paths() {
            if !paths.contains(path) {
                paths.push(path.copy()?)?;
            }
        }
        Ok(())
    }

    /// Returns what the world is now.
    pub(crate) fn now(&self) -> &Row {
        self.world.now()
    }

    /// Returns whether the world was at a place.
    pub(crate) fn has(&self, place: &Position) -> bool {
        self.moments.iter().any(|then| then.position == *place)
    }

    /// Returns whether this was at a path in the generation of a place, then or later.
    pub(crate) fn stood(&self, place: &Position, path: &Path, file: Option<&Content>) -> bool {
        self.moments.iter().any(|then| {
            then.position.generation == place.generation
                && then.position.sequence >= place.sequence
                && then.files.get(path) == file
        })
    }
}
