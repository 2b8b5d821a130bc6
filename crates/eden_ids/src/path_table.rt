//! Sets of paths.

ghost use Rattle.std.specs.Prelude.{◌≡◌, ◌++◌, IfOk, OnOk, OnErr};
ghost use Rattle.std.specs.Map.Iter.{deref, ShowsInOrder};
ghost use Rattle.std.specs.FinMap as fin;
ghost use Rattle.eden_ids.specs.FileMaps.{AddsSomePaths, listing, no_paths, path_set, union};

use crate::memory::NoMemory;
use crate::path::Path;
use std::alloc::Global;
use std::collections::BTreeMap;
use std::marker::Model;

/// A set of paths, listed in byte order.
#[derive(Drop)]
pub struct PathTable {
    paths: BTreeMap<Path, ()>,
}

impl Model for PathTable {
    ghost use Rattle.std.specs.Coded.{coded_list, coded_ℕ};
    ghost use Rattle.std.specs.FinSet as set;
    ghost use Rattle.std.specs.FinMap as fin;
    ghost use Rattle.eden_ids.specs.FileMaps.{PathSet};

    ghost Value = { PathSet };

    ghost coded = { set.code (coded_list coded_ℕ) };

    ghost view = { λ t. fin.from_entries t.paths.entries };
}

impl PathTable {
    /// Returns an empty set. Does not allocate.
    pub fn new(alloc: Global) -> PathTable
        ensures { result ≡ no_paths }
    {
        PathTable {
            paths: BTreeMap::new(alloc),
        }
    }

    /// Adds a path. `NoMemory` if an allocation fails; then nothing is changed.
    pub fn add(&mut self, path: &Path) -> Result<(), NoMemory>
        ensures ok { OnOk result (self.new ≡ fin.insert self.old path.now tt) }
        ensures err { OnErr result (self.new ≡ self.old) }
    {
        let path = path.copy()?;
        self.paths.insert(path, ())?;
        Ok(())
    }

    /// Adds paths. `NoMemory` if an allocation fails; then some first ones were added.
    pub fn add_all(&mut self, paths: &[Path]) -> Result<(), NoMemory>
        ensures ok { OnOk result (self.new ≡ union (path_set paths.now) self.old) }
        ensures err { OnErr result (AddsSomePaths paths.now self.old self.new) }
    {
        for path in paths {
            self.add(path)?;
        }
        Ok(())
    }

    /// Returns the paths, in byte order. `NoMemory` if an allocation fails.
    pub fn list(&self, alloc: Global) -> Result<Vec<Path>, NoMemory>
        ensures { IfOk result (λ paths. paths.items ≡ listing self.now) }
    {
        let mut list = Vec::new(alloc);
        for path in self.paths.keys() {
            list.push(path.copy()?)?;
        }
        Ok(list)
    }
}
