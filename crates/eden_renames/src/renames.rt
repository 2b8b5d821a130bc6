//! Renamed directories: which directory of the commit is seen at each.

ghost use Rattle.std.specs.Prelude.{◌≡◌, ◌<◌, ◌≤◌, ◌+◌, ◌++◌, ◌↔◌, T, Some, IsTrue, IfOk, OnOk, OnErr, MatchOption, filter, length, option_copied, option_map};
ghost use Rattle.std.specs.Vec.{vec_len, vec_capacity};
ghost use Rattle.std.specs.FinMap as fin;
ghost use Rattle.std.specs.FinMap.{is_sorted};
ghost use Rattle.eden_ids.specs.Paths.{IsPath, lies_below};
ghost use Rattle.eden_renames.specs.Renames.{by_bytes, nearest, path_alone, source_dir, source_of};
ghost use Rattle.eden_renames.specs.Sources.{path_meant};
ghost use Rattle.eden_renames.specs.internal.Told.{entry_told, said_before};

use crate::source::{Source, joined};
use arrayvec::ArrayVec;
use eden_ids::{NoMemory, Path, is_path, paths_below};
use eden_overlay::value_at;
use std::alloc::Global;
use std::marker::Model;

/// Renamed directories: which directory of the commit is seen at each, or that nothing
/// is.
///
/// A call that returns `NoMemory` changes nothing.
#[derive(Drop)]
pub struct Renames {
    /// In byte order.
    entries: Vec<(Path, Option<Path>)>,
}

impl Model for Renames {
    ghost use Rattle.std.specs.Prelude.{T};
    ghost use Rattle.std.specs.Coded.{coded_list, coded_ℕ, coded_option};
    ghost use Rattle.std.specs.FinMap as fin;
    ghost use Rattle.eden_renames.specs.Renames.{Renames as Directories, by_bytes};

    ghost Value = { Directories };

    ghost coded = { fin.code (coded_list coded_ℕ) (coded_option (coded_list coded_ℕ)) };

    ghost view = { λ m. fin.from_sorted m.entries.items };

    ghost invariant = { λ m. T (fin.is_sorted by_bytes m.entries.items) };
}

/// Returns two parts joined, if they make a valid path. Does not allocate.
fn valid(front: &[u8], rest: &[u8]) -> Option<ArrayVec<u8, 1024>>
    ensures joined { option_map (λ path. path.items) result ≡ path_alone (Some (front.now ++ rest.now)) }
    ensures valid { MatchOption result (Unit {0}) (λ path. IsPath path.items) }
{
    let path = joined(front, rest)?;
    if is_path(path.as_slice()) {
        Some(path)
    } else {
        None
    }
}

impl Renames {
    /// Returns no renamed directories. Does not allocate.
    pub fn new(alloc: Global) -> Renames
        ensures { result ≡ fin.empty }
    {
        Renames {
            entries: Vec::new(alloc),
        }
    }

    /// Returns true if no directory was renamed.
    pub fn is_empty(&self) -> bool
        ensures { IsTrue result ↔ self.now ≡ fin.empty }
    {
        self.entries().is_empty()
    }

    /// Returns the entries, in byte order. Does not allocate.
    ///
    /// An entry is a directory with the commit's directory that is seen there, or `None`
    /// if nothing is.
    pub fn entries(&self) -> &[(Path, Option<Path>)]
        ensures { result.now ≡ fin.entries self.now }
    {
        self.entries.as_slice()
    }

    /// Returns the entries of the directories below one, in byte order.
    ///
    /// Does not allocate.
    pub(crate) fn entries_below(&self, top: &Path) -> &[(Path, Option<Path>)]
        ensures { result.now ≡ filter (λ e. lies_below e.0 top.now) (fin.entries self.now) }
    {
        paths_below(self.entries(), top.as_bytes())
    }

    /// Returns the entry of a directory, by binary search. Does not allocate.
    ///
    /// An entry is the commit's directory that is seen there, or `None` if nothing is. The
    /// result is `None` if the directory has no entry.
    pub fn get(&self, dir: &[u8]) -> Option<&Option<Path>>
        ensures { option_copied result ≡ fin.get self.now dir.now }
    {
        value_at(self.entries.as_slice(), dir)
    }

    /// Returns the entry of the directory before a slash, if any.
    ///
    /// It is `None` if there is no slash at index `at`, or the directory has no entry.
    fn said_before(&self, path: &[u8], at: usize) -> Option<&Option<Path>>
        requires { at < length path.now }
        ensures { option_copied result ≡ said_before self.now path.now at }
    {
        if path[at] == b'/' {
            self.get(&path[..at])
        } else {
            None
        }
    }

    /// Returns the nearest directory above a path with an entry.
    ///
    /// It returns the entry too. The directory is given by its length in the path. Each
    /// directory above the path is looked up by binary search, the nearest one last. Does
    /// not allocate.
    pub fn nearest(&self, path: &[u8]) -> Option<(usize, &Option<Path>)>
        ensures told { nearest (fin.entries self.now) path.now ≡ entry_told path.now result }
        ensures within { MatchOption result (Unit {0}) (λ found. found.0 < length path.now) }
    {
        let mut found = None;
        for at in 0..path.len() {
            if let Some(source) = self.said_before(path, at) {
                found = Some((at, source));
            }
        }
        found
    }

    /// Returns what of the commit is seen at a path. Does not allocate.
    pub fn source<'a>(&'a self, path: &'a [u8]) -> Source<'a>
        ensures { path_meant result path.now ≡ source_of self.now path.now }
    {
        match self.nearest(path) {
            Some((at, source)) => match source {
                Some(directory) => Source::Below(directory, &path[at..]),
                None => Source::Nothing,
            },
            None => Source::Own,
        }
    }

    /// Returns the commit's directory that is seen at a directory, if any.
    ///
    /// Does not allocate.
    pub(crate) fn shown_at(&self, dir: &Path) -> Option<ArrayVec<u8, 1024>>
        ensures shown { option_map (λ source. source.items) result ≡ source_dir self.now dir.now }
        ensures valid { MatchOption result (Unit {0}) (λ source. IsPath source.items) }
    {
        match self.get(dir.as_bytes()) {
            Some(Some(source)) => valid(source.as_bytes(), b"".as_slice()),
            Some(None) => None,
            None => match self.source(dir.as_bytes()) {
                Source::Own => valid(dir.as_bytes(), b"".as_slice()),
                Source::Nothing => None,
                Source::Below(directory, rest) => valid(directory.as_bytes(), rest),
            },
        }
    }

    /// Returns the allocator for new vectors.
    pub(crate) fn allocator(&self) -> Global {
        *self.entries.allocator()
    }

    /// Returns the renamed directories of sorted entries.
    pub(crate) fn of(entries: Vec<(Path, Option<Path>)>) -> Renames
        requires { T (is_sorted by_bytes entries.items) }
        ensures { result ≡ fin.from_sorted entries.items }
    {
        Renames { entries }
    }

    /// Takes the entries out, with room for some more. On `NoMemory` nothing changes.
    pub(crate) fn take_with_room(
        &mut self,
        more: usize,
    ) -> Result<Vec<(Path, Option<Path>)>, NoMemory>
        ensures taken { OnOk result (self.new ≡ fin.empty) }
        ensures entries { IfOk result (λ entries. entries.items ≡ fin.entries self.old) }
        ensures room { IfOk result (λ entries. vec_len entries + more ≤ vec_capacity entries) }
        ensures same { OnErr result (self.new ≡ self.old) }
    {
        self.entries.reserve(more)?;
        let none = Vec::new(self.allocator());
        Ok(std::mem::replace(&mut self.entries, none))
    }

    /// Returns a copy of these renamed directories.
    ///
    /// # Errors
    ///
    /// - `NoMemory` if an allocation fails.
    pub fn copy(&self) -> Result<Renames, NoMemory>
        ensures { IfOk result (λ renames. renames ≡ self.now) }
    {
        let entries = self.entries.clone()?;
        Ok(Renames { entries })
    }
}
