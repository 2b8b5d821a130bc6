//! A commit of a store, found once and asked for its files.
ghost use Rattle.std.specs.Prelude.{◌≡◌, ◌&&◌, IfOk, filter, length, map, nat_le, not};
ghost use Rattle.std.specs.List.{list_any};
ghost use Rattle.std.specs.Option.{option_map};
ghost use Rattle.eden_ids.specs.FileMaps.{file_at, lent, paths};
ghost use Rattle.eden_ids.specs.Paths.{lies_below};
ghost use Rattle.eden_ids.specs.Texts.{AreTexts};
ghost use Rattle.eden_objects.specs.Commits.{commit_map};
ghost use Rattle.eden_objects.specs.Counts.{capped};
ghost use Rattle.eden_objects.specs.Files.{commit_files};
ghost use Rattle.eden_objects.specs.Passing.{TellsPaths, is_shown, told};
ghost use Rattle.eden_objects.specs.Stats.{stat_of};

use crate::fault::NoCommit;
use crate::passing::Passes;
use crate::stat::Stat;
use crate::store::Store;
use bytes::Bytes;
use eden_globs::Filter;
use eden_ids::{FileTree, Id, Kind, Naming, NoMemory, Path};
use std::alloc::Global;
use std::marker::Model;

/// A commit of a store, found once: its id is not looked up again for each file.
///
/// Its value is the commit's file map. It borrows the store. Does not allocate.
#[derive(Drop)]
pub struct Commit<'a, N: Naming + Drop> {
    store: &'a Store<N>,
    /// The tree of the commit; the empty commit has none.
    tree: Option<Id>,
}

impl<'a, N: Naming + Drop> Model for Commit<'a, N> {
    ghost use Rattle.std.specs.Coded.{coded_list, coded_ℕ};
    ghost use Rattle.std.specs.FinMap as fin;
    ghost use Rattle.eden_ids.specs.contracts.content.Content as content;
    ghost use Rattle.eden_ids.specs.FileMaps.{FileMap};
    ghost use Rattle.eden_objects.specs.Files.{IsTreeIn, files_at};

    ghost Value = { FileMap };

    ghost coded = { fin.code (coded_list coded_ℕ) content.the_row.coded };

    ghost view = { λ c. files_at c.store.now c.tree };

    ghost invariant = { λ c. IsTreeIn c.store.now c.tree };
}

/// Returns the paths of some files. No path is copied.
fn only_paths(alloc: Global, rows: Vec<(Path, Kind, Id)>) -> Result<Vec<Path>, NoMemory>
    ensures { IfOk result (λ list. list.items ≡ map (λ row. row.0) rows.items) }
{
    let mut list = Vec::with_capacity(alloc, rows.len())?;
    for row in rows {
        let (path, _, _) = row;
        list.push(path)?;
    }
    Ok(list)
}

impl<'a, N: Naming + Drop> Commit<'a, N> {
    /// Returns the same commit once more, without looking its id up. Does not allocate.
    pub fn again(&self) -> Commit<'_, N>
        ensures { result ≡ self.now }
    {
        Commit {
            store: self.store,
            tree: self.tree,
        }
    }

    /// Returns the kind and the bytes of the file at a path.
    ///
    /// It searches one directory for each component of the path. Does not allocate.
    pub fn file(&self, path: &[u8]) -> Option<(Kind, &'a Bytes)>
        ensures { lent result ≡ file_at self.now path.now }
    {
        self.store.closed_law();
        match self.tree {
            Some(tree) => match self.store.find_below(tree, path) {
                Some((kind, blob)) => Some((kind, self.store.blob_payload(blob))),
                None => None,
            },
            None => None,
        }
    }

    /// Returns the file at a path without its bytes.
    ///
    /// The id is the one in its directory: nothing is hashed. It searches as `file` does.
    /// Does not allocate.
    pub fn stat(&self, path: &[u8]) -> Option<Stat>
        ensures { result ≡ option_map (stat_of N.id) (file_at self.now path.now) }
    {
        self.store.closed_law();
        match self.tree {
            Some(tree) => match self.store.find_below(tree, path) {
                Some((kind, id)) => Some(Stat {
                    kind,
                    length: self.store.blob_payload(id).as_slice().len() as u32,
                    id,
                }),
                None => None,
            },
            None => None,
        }
    }

    /// Returns the number of files below a path, at most `usize::MAX`.
    ///
    /// It searches the directories on the way to the path, and reads none below it. Does
    /// not allocate.
    pub fn files_below(&self, top: &[u8]) -> usize
        ensures { result ≡ capped (length (filter (λ p. lies_below p top.now) (paths self.now))) }
    {
        self.store.closed_law();
        match self.tree {
            Some(tree) => self.store.files_below(tree, top),
            None => 0,
        }
    }

    /// Returns true if a file below a path is not passed over.
    ///
    /// `passed` is asked with each file's path as if the directory were at `seen`. The
    /// search is depth first and ends at the first such file. It reads no directory
    /// without files, and none below which everything is passed over. Does not allocate.
    pub fn has_below_but<S: Passes>(&self, top: &[u8], seen: &Path, passed: &S) -> bool
        ensures { result ≡ list_any (λ p. lies_below p top.now && not (S.passes passed.now (told top.now seen.now p))) (paths self.now) }
    {
        self.store.closed_law();
        match self.tree {
            Some(tree) => self.store.has_below_but(tree, top, seen, passed),
            None => false,
        }
    }

    /// Returns the paths that are admitted and not passed over, in byte order.
    ///
    /// Each directory is read once, except those without files, those below which the
    /// filter admits nothing (`Filter::admits_below`), and those below which everything
    /// is passed over.
    ///
    /// # Errors
    ///
    /// - `NoMemory` if an allocation fails.
    pub fn list<S: Passes>(&self, wanted: &Filter, passed: &S) -> Result<Vec<Path>, NoMemory>
        ensures { IfOk result (λ list. list.items ≡ filter (is_shown (S.passes passed.now) wanted.now) (paths self.now)) }
    {
        self.store.closed_law();
        let alloc = self.store.allocator();
        match self.tree {
            Some(tree) => {
                let rows = self.store.gather_all(tree, wanted, passed)?;
                only_paths(alloc, rows)
            }
            None => Ok(Vec::new(alloc)),
        }
    }

    /// Returns the paths of the files below a path as they would be below another.
    ///
    /// They are those that a filter admits and that are not passed over, both by their
    /// paths below `seen`, in byte order. What is not passed over must have a valid path
    /// there. It reads what `list` would.
    ///
    /// # Errors
    ///
    /// - `NoMemory` if an allocation fails.
    pub fn list_seen<S: Passes>(
        &self,
        top: &[u8],
        seen: &Path,
        wanted: &Filter,
        passed: &S,
    ) -> Result<Vec<Path>, NoMemory>
        requires { TellsPaths (S.passes passed.now) top.now seen.now self.now }
        ensures { IfOk result (λ list. list.items
            ≡ filter (is_shown (S.passes passed.now) wanted.now) (map (told top.now seen.now) (filter (λ p. lies_below p top.now) (paths self.now)))) }
    {
        self.store.closed_law();
        let alloc = self.store.allocator();
        match self.tree {
            Some(tree) => {
                let rows = self.store.gather_seen(tree, top, seen, wanted, passed)?;
                only_paths(alloc, rows)
            }
            None => Ok(Vec::new(alloc)),
        }
    }

    /// Returns true if there are at least `count` files below a path.
    ///
    /// It costs as much as `files_below`.
    pub fn has_below(&self, top: &[u8], count: usize) -> bool
        ensures { result ≡ nat_le count (length (filter (λ p. lies_below p top.now) (paths self.now))) }
    {
        self.files_below(top) >= count
    }
}

impl<'a, N: Naming + Drop> Commit<'a, N> {
    /// States that each path is valid, and each file within its limit.
    pub fn texts_law(&self)
        ensures { AreTexts self.now }
    {
        self.store.closed_law();
    }
}

impl<'a, N: Naming + Drop> FileTree for Commit<'a, N> {
    ghost files = { λ c. c };

    fn file(&self, path: &[u8]) -> Option<(Kind, &Bytes)> {
        Commit::file(self, path)
    }

    #[tactic(auto, using(crate::proofs::FilesOf::any_counted))]
    fn has_file_below(&self, path: &Path) -> bool {
        self.has_below(path.as_bytes(), 1)
    }
}

impl<N: Naming + Drop> Store<N> {
    /// Returns the commit with an id, if it is that of one.
    ///
    /// The empty commit always exists. Does not allocate.
    pub fn commit(&self, id: Id) -> Option<Commit<'_, N>>
        ensures { result ≡ commit_map self.now id }
    {
        match self.root_tree(id) {
            Ok(tree) => Some(Commit { store: self, tree }),
            Err(NoCommit) => None,
        }
    }

    /// Returns the commit with an id known to be a commit's.
    ///
    /// For any other id it is the empty commit. Does not allocate.
    pub fn commit_files(&self, id: Id) -> Commit<'_, N>
        ensures { result ≡ commit_files self.now id }
    {
        match self.root_tree(id) {
            Ok(tree) => Commit { store: self, tree },
            Err(NoCommit) => Commit {
                store: self,
                tree: None,
            },
        }
    }
}
