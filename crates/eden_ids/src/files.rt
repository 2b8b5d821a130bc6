//! File maps: paths, each with a file, in byte order of the paths.

ghost use Rattle.std.specs.Prelude.{◌≡◌, IfOk, OnOk, OnErr};
ghost use Rattle.std.specs.Option.{option_copied};
ghost use Rattle.std.specs.FinMap as fin;
ghost use Rattle.std.specs.Map.Iter.{deref, ShowsInOrder};
ghost use Rattle.eden_ids.specs.FileMaps.{AddsSomePaths, file_at, no_files, path_set, paths, put_option, union};

use crate::content::{Content, Kind};
use crate::file_tree::FileTree;
use crate::memory::NoMemory;
use crate::path::Path;
use crate::path_table::PathTable;
use bytes::Bytes;
use std::alloc::Global;
use std::collections::BTreeMap;
use std::collections::btree_map::Keys;
use std::marker::Model;

/// The files of a working copy or a commit, in path order.
///
/// Any paths can be added; the caller must see to it that no two of them clash.
#[derive(Drop)]
pub struct Files {
    entries: BTreeMap<Path, Content>,
}

impl Model for Files {
    ghost use Rattle.std.specs.Coded.{coded_list, coded_ℕ};
    ghost use Rattle.std.specs.FinMap as fin;
    ghost use Rattle.eden_ids.specs.contracts.content.Content as content;
    ghost use Rattle.eden_ids.specs.FileMaps.{FileMap};

    ghost Value = { FileMap };

    ghost coded = { fin.code (coded_list coded_ℕ) content.the_row.coded };

    ghost view = { λ f. fin.from_entries f.entries.entries };
}

impl Files {
    /// Returns an empty map. Does not allocate.
    pub fn new(alloc: Global) -> Self
        ensures { result ≡ no_files }
    {
        Files {
            entries: BTreeMap::new(alloc),
        }
    }

    /// Returns the file at a path, if there is one. Does not allocate.
    pub fn get(&self, path: &Path) -> Option<&Content>
        ensures { option_copied result ≡ file_at self.now path.now }
    {
        self.entries.get(path)
    }

    /// Puts a file at a path, replacing any other.
    ///
    /// # Errors
    ///
    /// - `NoMemory` if an allocation fails; nothing changes.
    pub fn insert(&mut self, path: Path, content: Content) -> Result<(), NoMemory>
        ensures ok { OnOk result (self.new ≡ fin.insert self.old path content) }
        ensures err { OnErr result (self.new ≡ self.old) }
    {
        match self.entries.insert(path, content) {
            Ok(_) => Ok(()),
            Err(_) => Err(NoMemory),
        }
    }

    /// Puts a file at a path, or removes the one there.
    ///
    /// # Errors
    ///
    /// - `NoMemory` if an allocation fails; nothing changes.
    pub fn put(&mut self, path: &Path, file: Option<Content>) -> Result<(), NoMemory>
        ensures ok { OnOk result (self.new ≡ put_option self.old path.now file) }
        ensures err { OnErr result (self.new ≡ self.old) }
    {
        match file {
            Some(content) => self.insert(path.copy()?, content),
            None => {
                self.remove(path);
                Ok(())
            }
        }
    }

    /// Removes the file at a path, if there is one. Does not allocate.
    pub fn remove(&mut self, path: &Path)
        ensures { self.new ≡ fin.remove self.old path.now }
    {
        let _ = self.entries.remove(path);
    }

    /// Returns the paths that hold a file, in byte order. Does not allocate.
    pub fn paths(&self) -> Keys<'_, Path, Content>
        ensures rest { result ≡ paths self.now }
        ensures runs { ShowsInOrder (deref {X = Path}) }
    {
        let keys = self.entries.keys();
        keys
    }

    /// Adds the paths that hold a file to a table.
    ///
    /// # Errors
    ///
    /// - `NoMemory` if an allocation fails; then some first ones were added.
    pub fn add_paths(&self, table: &mut PathTable) -> Result<(), NoMemory>
        ensures ok { OnOk result (table.new ≡ union (path_set (paths self.now)) table.old) }
        ensures err { OnErr result (AddsSomePaths (paths self.now) table.old table.new) }
    {
        for path in self.paths() {
            table.add(path)?;
        }
        Ok(())
    }

    /// Returns a copy of this map.
    ///
    /// # Errors
    ///
    /// - `NoMemory` if an allocation fails.
    pub fn copy(&self) -> Result<Files, NoMemory>
        ensures { IfOk result (λ files. files ≡ self.now) }
    {
        match self.entries.clone() {
            Ok(entries) => Ok(Files { entries }),
            Err(_) => Err(NoMemory),
        }
    }
}

impl FileTree for Files {
    ghost files = { λ f. f };

    /// Returns the kind and the bytes of the file at a path.
    ///
    /// The time grows with the number of files, since the bytes need not be a `Path`. If
    /// you have a `Path`, `get` is faster.
    fn file(&self, path: &[u8]) -> Option<(Kind, &Bytes)> {
        for at in self.paths() {
            if at.as_bytes() == path {
                let content = self.get(at)?;
                return Some((content.kind, &content.bytes));
            }
        }
        None
    }

    /// Returns true if there are files below a path. The time grows with the number of
    /// files.
    fn has_file_below(&self, path: &Path) -> bool {
        self.entries.keys().any(|p| p.is_below(path))
    }
}
