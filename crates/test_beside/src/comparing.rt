//! A mount and a world side by side, and what each of them answers.

use eden_accumulate::{Mount, Range, expand};
use eden_globs::Filter;
use eden_history::{Answer, Change, Marked, Position, SinceFault};
use eden_ids::{Content, GitNaming, Id, Kind, Path, PathTable, Sequence};
use eden_objects::Store;
use eden_world::World;
use std::alloc::Global;
use std::fmt::Debug;
use std::test::Fail;

/// The limits of journals over which a mount and a world are compared: of none, of few and of all of their changes.
pub(crate) const LIMITS: &[u64] = &[0, 150, 400, 2000, 1_000_000];

/// The change that both made last, and its place among those of its seed.
#[derive(Clone, Copy)]
pub(crate) struct Step<'a> {
    pub(crate) seed: u64,
    pub(crate) number: usize,
    pub(crate) change: &'a Change,
}

impl Step<'_> {
    /// Checks that the mount and the world answer the same.
    pub(crate) fn alike<T: Debug + PartialEq + Drop>(
        &self,
        told: T,
        expected: T,
    ) -> Result<(), Fail> {
        if told == expected {
            return Ok(());
        }
        Err(Fail::new(format_args!(
            "seed {}, step {}: after {:?} the mount says {told:?}, and the world {expected:?}",
            self.seed, self.number, self.change
        )))
    }
}

/// Returns the file at a path of a world.
fn file<'a>(world: &'a World<GitNaming>, path: &Path) -> Option<&'a Content> {
    world.now().files().get(path)
}

/// Returns the paths at which two worlds differ, in byte order.
fn differing(
    alloc: Global,
    one: &World<GitNaming>,
    other: &World<GitNaming>,
) -> Result<Vec<Path>, Fail> {
    let mut table = PathTable::new(alloc);
    one.now().files().add_paths(&mut table)?;
    other.now().files().add_paths(&mut table)?;
    let mut paths = Vec::new(alloc);
    for path in table.list(alloc)? {
        if file(one, &path) != file(other, &path) {
            paths.push(path)?;
        }
    }
    Ok(paths)
}

/// Returns the paths of the files that a mount lists.
pub(crate) fn listed(alloc: Global, mount: &Mount<GitNaming>) -> Result<Vec<Path>, Fail> {
    Ok(mount.snapshot()?.files(mount.store(), &Filter::all(alloc))?)
}

/// Paths with their marks, and directories.
type Told = (Sequence<Marked>, Sequence<Path>);

/// Returns the kind and the bytes of a file.
fn seen(file: &Content) -> (Kind, &[u8]) {
    (file.kind, file.bytes.as_slice())
}

/// A mount and a world over copies of one store.
#[derive(Drop)]
pub(crate) struct Pair {
    pub(crate) mount: Mount<GitNaming>,
    pub(crate) world: World<GitNaming>,
}

/// Mounts a commit in generation 7, with a journal of this limit.
pub(crate) fn mounted(
    alloc: Global,
    store: &mut Store<GitNaming>,
    root: Id,
    limit: u64,
) -> Result<Mount<GitNaming>, Fail> {
    let store = store.share()?;
    Ok(Mount::mount(alloc, store, root, 7, limit)?)
}

impl Pair {
    /// Mounts a commit as both, in generation 7, with a journal of this limit.
    pub(crate) fn mounted(
        alloc: Global,
        store: &mut Store<GitNaming>,
        root: Id,
        limit: u64,
    ) -> Result<Pair, Fail> {
        let world = World::mount(alloc, store.share()?, root, 7, limit)?;
        let mount = mounted(alloc, store, root, limit)?;
        Ok(Pair { mount, world })
    }

    /// Makes the change on both, and checks that they answer alike.
    pub(crate) fn apply(&mut self, step: &Step) -> Result<Answer, Fail> {
        let told = self.mount.apply(step.change)?;
        step.alike(&told, &self.world.apply(step.change)?)?;
        step.alike(self.mount.position(), self.world.position())?;
        Ok(told)
    }

    /// Checks that both have the same file at a path.
    fn same_file(&self, step: &Step, path: &Path) -> Result<(), Fail> {
        let expected = file(&self.world, path).map(seen);
        step.alike((path, self.mount.read(path).ok()), (path, expected))
    }

    /// Checks that the mount lists just the world's files, and reads each of them.
    pub(crate) fn same_files(&self, alloc: Global, step: &Step) -> Result<(), Fail> {
        let listed = listed(alloc, &self.mount)?;
        step.alike(listed.len(), self.world.now().files().paths().count())?;
        for path in &listed {
            self.same_file(step, path)?;
        }
        Ok(())
    }

    /// Makes a world of the mount's root, which nothing has changed.
    fn clean(&mut self, alloc: Global) -> Result<World<GitNaming>, Fail> {
        let store = self.mount.share()?;
        Ok(World::mount(alloc, store, self.mount.work().root(), 1, 0)?)
    }

    /// Returns the paths on which the world differs from one of the mount's root.
    fn differing(&mut self, alloc: Global) -> Result<Vec<Path>, Fail> {
        let clean = self.clean(alloc)?;
        differing(alloc, &self.world, &clean)
    }

    /// Checks that just those paths are dirty in the mount.
    pub(crate) fn same_dirty(&mut self, alloc: Global, step: &Step) -> Result<(), Fail> {
        let expected = self.differing(alloc)?;
        let dirty = self.mount.work().dirty(self.mount.store())?;
        step.alike(dirty.as_slice(), expected.as_slice())
    }

    /// Returns what changed in the world since a position.
    ///
    /// These are the paths with their marks, and the directories that were renamed.
    fn world_since(&self, since: &Position) -> Result<Result<Told, SinceFault>, Fail> {
        if let Some(fault) = self.world.now().status(self.world.floor()?, *since) {
            return Ok(Err(fault));
        }
        let marked = self.world.marked_since(since.sequence)?;
        let prefixes = self.world.prefixes_since(since.sequence)?;
        Ok(Ok((marked, prefixes)))
    }

    /// Checks that a range of the mount is what changed in the world since a position.
    fn same_range(
        &self,
        alloc: Global,
        step: &Step,
        since: &Position,
        range: &Range,
        expected: &Told,
    ) -> Result<(), Fail> {
        let (marked, prefixes) = expected;
        let told = expand(alloc, self.mount.store(), range)?;
        step.alike((since, told.as_slice()), (since, marked.as_slice()))?;
        step.alike((since, &range.prefixes), (since, prefixes))
    }

    /// Checks that both answer the same of what changed since a position.
    fn same_since(&self, alloc: Global, step: &Step, since: &Position) -> Result<(), Fail> {
        match (self.mount.range_since(since), self.world_since(since)?) {
            (Ok(range), Ok(expected)) => self.same_range(alloc, step, since, &range, &expected),
            (told, expected) => step.alike((since, told.err()), (since, expected.err())),
        }
    }

    /// Checks so since each of the first hundred numbers, up to the present one.
    pub(crate) fn same_past(&self, alloc: Global, step: &Step) -> Result<(), Fail> {
        let mut since = self.world.position();
        for sequence in 0..=since.sequence.min(99) {
            since.sequence = sequence;
            self.same_since(alloc, step, &since)?;
        }
        Ok(())
    }
}
