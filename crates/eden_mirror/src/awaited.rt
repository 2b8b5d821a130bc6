//! The paths that a round waits for: those of contents, and those of directories.

ghost use Rattle.std.specs.Prelude.{◌≡◌, ◌++◌, [], false, if◌then◌else◌, length, map, nat_eq, is_some, Some, IfSome, IfOk, OnOk, OnErr};
ghost use Rattle.std.specs.List.{IsDistinct};
ghost use Rattle.std.specs.Map.{keys_of};
ghost use Rattle.indexmap.specs.IndexMap.{index_of_by, insert_entry};
ghost use Rattle.eden_ids.specs.FileMaps.{put_option};
ghost use Rattle.eden_ids.specs.Sameness.{same_bytes};
ghost use Rattle.eden_mirror.specs.internal.Pending.{AreDistinct, fresh, pending};
ghost use Rattle.eden_messages.specs.declared.message.Request.TheVariants.{Fetch, List as Below};
ghost use Rattle.eden_messages.specs.Mirrors.{distinct, is_among, without};
ghost use Rattle.eden_messages.specs.Spells.{paths_of};

use eden_globs::Filter;
use eden_history::Marked;
use eden_ids::{Content, Files, NoMemory, Path};
use eden_messages::{Query, Request};
use indexmap::IndexMap;
use std::alloc::Global;
use std::marker::Model;

/// Distinct paths, in the order in which they came to be awaited.
///
/// Any of them may be answered next. An answered path is only marked, so that no path
/// after it moves. When more than half of the paths are marked, all marked ones are
/// removed together; this costs each of them once. So iterating over the awaited paths
/// costs at most twice their number, and n answers in any order cost a look-up and a
/// constant each. Paths that are added later come after all others; marked ones are
/// removed before, since one of them may be awaited again.
#[derive(Drop)]
pub(crate) struct Awaited {
    /// Each path, and whether it is answered.
    paths: IndexMap<Path, bool>,
    /// The number of paths that are not answered.
    left: usize,
}

impl Model for Awaited {
    ghost use Rattle.std.specs.Prelude.{List, ℕ};
    ghost use Rattle.eden_mirror.specs.internal.Pending.{IsCounted, pending};

    ghost Value = { List (List ℕ) };

    ghost view = { λ a. pending a.paths.entries };

    ghost invariant = { λ a. IsCounted a.left a.paths.entries };
}

/// Adds a path that may be there already. On `NoMemory` nothing changes.
fn add(paths: &mut IndexMap<Path, bool>, path: &Path) -> Result<(), NoMemory>
    ensures ok { OnOk result (paths.new.entries ≡ insert_entry same_bytes paths.old.entries path.now false) }
    ensures err { OnErr result (paths.new.entries ≡ paths.old.entries) }
{
    let path = path.copy()?;
    paths.insert(path, false)?;
    Ok(())
}

/// Adds paths to a table of which none is answered.
///
/// A path may be there already. On `NoMemory` nothing changes.
fn add_all(paths: &mut IndexMap<Path, bool>, listed: &[Path]) -> Result<(), NoMemory>
    requires { paths.old.entries ≡ fresh (pending paths.old.entries) }
    ensures ok { OnOk result (paths.new.entries ≡ fresh (distinct (pending paths.old.entries ++ listed.now))) }
    ensures err { OnErr result (paths.new.entries ≡ paths.old.entries) }
{
    let len = paths.len();
    for path in listed {
        if add(paths, path).is_err() {
            paths.truncate(len);
            return Err(NoMemory);
        }
    }
    Ok(())
}

/// Returns the index of a path that is not answered.
///
/// It is `None` if there is no such path.
fn place(paths: &IndexMap<Path, bool>, path: &Path) -> Option<usize>
    requires { IsDistinct same_bytes (keys_of paths.now.entries) }
    ensures awaited { is_some result ≡ is_among path.now (pending paths.now.entries) }
    ensures there { IfSome result (λ at. index_of_by (same_bytes path.now) paths.now ≡ Some at) }
{
    let (at, _, answered) = paths.get_full(path)?;
    if *answered { None } else { Some(at) }
}

/// Removes the answered paths from a table.
///
/// `left` is the number of the others.
fn take_answered_out(paths: &mut IndexMap<Path, bool>, left: usize)
    requires { left ≡ length (pending paths.old.entries) }
    ensures { paths.new.entries ≡ fresh (pending paths.old.entries) }
{
    if left < paths.len() {
        paths.retain(|_, answered| !*answered);
    }
}

/// Puts a file at a path, or removes the one there.
///
/// On `NoMemory` nothing changes.
fn put(files: &mut Files, path: Path, file: Option<Content>) -> Result<(), NoMemory>
    ensures ok { OnOk result (files.new ≡ put_option files.old path file) }
    ensures err { OnErr result (files.new ≡ files.old) }
{
    match file {
        Some(content) => files.insert(path, content),
        None => {
            files.remove(&path);
            Ok(())
        }
    }
}

impl Awaited {
    /// Returns an empty list. Does not allocate.
    pub(crate) fn new(alloc: Global) -> Awaited
        ensures { result ≡ [] }
    {
        Awaited {
            paths: IndexMap::new(alloc),
            left: 0,
        }
    }

    /// Returns the distinct paths of a list.
    ///
    /// They are in the order of their first occurrences.
    pub(crate) fn of_paths(alloc: Global, listed: &[Path]) -> Result<Awaited, NoMemory>
        ensures { IfOk result (λ awaited. awaited ≡ distinct listed.now) }
    {
        let mut awaited = Awaited::new(alloc);
        awaited.extend(listed)?;
        Ok(awaited)
    }

    /// Returns the distinct paths of a list of marked ones.
    ///
    /// They are in the order of their first occurrences.
    pub(crate) fn of_marked(alloc: Global, listed: &[Marked]) -> Result<Awaited, NoMemory>
        ensures { IfOk result (λ awaited. awaited ≡ distinct (paths_of listed.now)) }
    {
        let mut paths = IndexMap::new(alloc);
        for marked in listed {
            add(&mut paths, &marked.path)?;
        }
        let left = paths.len();
        Ok(Awaited { paths, left })
    }

    /// Returns true if no path is awaited any more.
    pub(crate) fn is_empty(&self) -> bool
        ensures { result ≡ nat_eq (length self.now) 0 }
    {
        self.left == 0
    }

    /// Returns true if a path is awaited.
    pub(crate) fn has(&self, path: &Path) -> bool
        ensures { result ≡ is_among path.now self.now }
    {
        place(&self.paths, path).is_some()
    }

    /// Answers an awaited path: puts a content at it, and removes it from the list.
    ///
    /// Returns whether the path was awaited; if not, nothing changes. The path is looked
    /// up once. On `NoMemory` nothing changes.
    pub(crate) fn answer(
        &mut self,
        files: &mut Files,
        path: Path,
        content: Option<Content>,
    ) -> Result<bool, NoMemory>
        ensures told { IfOk result (λ was_awaited. was_awaited ≡ is_among path self.old) }
        ensures left { IfOk result (λ was_awaited. self.new ≡ (if was_awaited then without path self.old else self.old)) }
        ensures files { IfOk result (λ was_awaited. files.new ≡ (if was_awaited then put_option files.old path content else files.old)) }
        ensures awaited_still { OnErr result (self.new ≡ self.old) }
        ensures no_file { OnErr result (files.new ≡ files.old) }
    {
        let Some(at) = place(&self.paths, &path) else {
            return Ok(false);
        };
        put(files, path, content)?;
        self.paths[at] = true;
        self.left -= 1;
        self.sweep();
        Ok(true)
    }

    /// Removes a path, if it is awaited.
    pub(crate) fn take_out(&mut self, path: &Path)
        ensures { self.new ≡ without path.now self.old }
    {
        let Some(at) = place(&self.paths, path) else {
            return;
        };
        self.paths[at] = true;
        self.left -= 1;
        self.sweep();
    }

    /// Adds the paths of a list after the others.
    ///
    /// Those that are awaited already are not added. On `NoMemory` nothing changes.
    pub(crate) fn extend(&mut self, listed: &[Path]) -> Result<(), NoMemory>
        ensures ok { OnOk result (self.new ≡ distinct (self.old ++ listed.now)) }
        ensures err { OnErr result (self.new ≡ self.old) }
    {
        take_answered_out(&mut self.paths, self.left);
        add_all(&mut self.paths, listed)?;
        self.left = self.paths.len();
        Ok(())
    }

    /// Removes the marked paths if they are more than half.
    fn sweep(&mut self)
        ensures { self.new ≡ self.old }
    {
        if self.left < self.paths.len() / 2 {
            self.paths.retain(|_, answered| !*answered);
        }
    }

    /// States that no path is awaited twice.
    pub(crate) fn distinct_law(&self)
        ensures { AreDistinct self.now }
    {
        let _ = &self.paths;
    }

    /// Adds the request for the content of each path to a list.
    pub(crate) fn push_fetches(
        &self,
        requests: &mut Vec<Request>,
        query: Query,
    ) -> Result<(), NoMemory>
        ensures { OnOk result (requests.new.items ≡ requests.old.items ++ map (λ path. Fetch query path) self.now) }
    {
        for (path, answered) in self.paths.iter() {
            if !*answered {
                let path = path.copy()?;
                requests.push(Request::Fetch { query, path })?;
            }
        }
        Ok(())
    }

    /// Adds the request for the list of each directory to a list.
    pub(crate) fn push_lists(
        &self,
        requests: &mut Vec<Request>,
        query: Query,
        filter: &Filter,
    ) -> Result<(), NoMemory>
        ensures { OnOk result (requests.new.items ≡ requests.old.items ++ map (λ prefix. Below query prefix filter.now) self.now) }
    {
        for (path, answered) in self.paths.iter() {
            if !*answered {
                requests.push(Request::List {
                    query,
                    prefix: path.copy()?,
                    filter: filter.copy()?,
                })?;
            }
        }
        Ok(())
    }
}
