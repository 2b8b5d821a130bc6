//! What was changed over a commit, beside a map of std.

ghost use Rattle.std.proofs.Props.{props};
ghost use Rattle.eden_workcopy.specs.Meanings.{FitsIn};

use eden_ids::{GitNaming, Id, Kind, Path};
use eden_objects::Store;
use eden_workcopy::WorkCopy;
use std::alloc::Global;
use std::collections::BTreeMap;
use std::test::Fail;
use test_kit::path;

/// So many paths are told in each order. It is a prime number, so that the multiples of a lesser one come to each path once.
const PATHS: usize = 1_201;

/// A path of four digits.
fn numbered(alloc: Global, number: usize) -> Result<Path, Fail> {
    path(alloc, format!(in alloc; "{number:04}")?.as_str())
}

/// Empty files over the empty commit, and their paths as a map of std has them; and a working copy that was set aside.
#[derive(Drop)]
struct Beside {
    store: Store<GitNaming>,
    work: WorkCopy,
    aside: WorkCopy,
    map: BTreeMap<Path, ()>,
    ghost fits: { FitsIn store work } by { Prim.hlevel props },
    ghost aside_fits: { FitsIn store aside } by { Prim.hlevel props },
}

impl Beside {
    fn new(alloc: Global) -> Result<Beside, Fail> {
        let store = Store::new(alloc, GitNaming);
        let work = WorkCopy::new(alloc, &store, Id::ZERO)?;
        let aside = WorkCopy::new(alloc, &store, Id::ZERO)?;
        let map = BTreeMap::new(alloc);
        Ok(Beside {
            store,
            work,
            aside,
            map,
        })
    }

    /// Writes all paths, each N after the one before, and past the end those from the first on.
    fn write_each(&mut self, alloc: Global, step: usize) -> Result<(), Fail> {
        for turn in 0..PATHS {
            let path = numbered(alloc, turn.wrapping_mul(step) % PATHS)?;
            self.work
                .write(&self.store, &path, Kind::Plain, b"".as_slice())?;
            let _ = self.map.insert(path, ())?;
        }
        Ok(())
    }

    /// Without the paths between two numbers.
    fn forget(&mut self, alloc: Global, from: usize, to: usize) -> Result<(), Fail> {
        for number in from..to {
            let path = numbered(alloc, number)?;
            self.work.revert(&self.store, &path)?;
            let _ = self.map.remove(&path);
        }
        Ok(())
    }

    fn has(&self, path: &Path) -> bool {
        self.work.read(&self.store, path).is_ok()
    }

    /// Whether both list the same paths, and the working copy has a file at each of them.
    fn is_alike(&self) -> Result<bool, Fail> {
        let touched = self.work.touched()?;
        let mut entries = touched.iter();
        for path in self.map.keys() {
            let is_next = matches!(entries.next(), Some(entry) if entry.0 == *path && entry.1);
            if !is_next || !self.has(path) {
                return Ok(false);
            }
        }
        Ok(entries.next().is_none())
    }

    /// Returns whether both stay alike when all paths are written and a thousand of them forgotten, and a copy from before has those.
    fn stays_alike(&mut self, alloc: Global, step: usize) -> Result<bool, Fail> {
        self.write_each(alloc, step)?;
        if !self.is_alike()? {
            return Ok(false);
        }
        self.aside = self.work.copy()?;
        self.forget(alloc, 100, 1_100)?;
        let middle = numbered(alloc, 500)?;
        if !self.is_alike()? || self.has(&middle) {
            return Ok(false);
        }
        self.work = self.aside.copy()?;
        Ok(self.has(&middle))
    }
}

/// Returns whether a working copy and a map stay alike, told all paths, each N after the one before.
fn stay_alike(alloc: Global, step: usize) -> Result<bool, Fail> {
    let mut beside = Beside::new(alloc)?;
    beside.stays_alike(alloc, step)
}

// Ascending, descending and scattered. Blocks are cut, and when a thousand paths are forgotten some have no entry any more.
#[test]
fn paths_told_in_any_order(rt: HostRuntime) -> Result<(), Fail> {
    for step in [1, PATHS - 1, 618] {
        assert!(rt; stay_alike(rt.alloc(), step)?, "step {step}");
    }
    Ok(())
}
