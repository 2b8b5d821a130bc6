//! Lists of the files of a commit, or those below a directory, in byte order.

ghost use Rattle.std.specs.Prelude.{◌≡◌, ◌++◌, ◌∷◌, ◌+◌, ◌≤◌, [], false, length, Some, IfOk};
ghost use Rattle.eden_globs.specs.Filters.{admits};
ghost use Rattle.eden_ids.specs.Paths.{IsPath, lies_below};
ghost use Rattle.eden_objects.specs.Commits.{commit_rows, rows_where, tree_rows};
ghost use Rattle.eden_objects.specs.Closed.{HasTree};
ghost use Rattle.eden_objects.specs.Listings.{Lists};
ghost use Rattle.eden_objects.specs.Passing.{is_shown};
ghost use Rattle.eden_objects.specs.Trees.{tree_reach};
ghost use Rattle.eden_objects.specs.internal.Below.{IsBelow, rows_behind, rows_below};
ghost use Rattle.eden_objects.specs.internal.Passed.{AreAllowedBut, AreToldPaths, rows_shown};

use crate::fault::{CommitFault, NoCommit};
use crate::passing::{Nothing, Passes};
use crate::store::Store;
use crate::trail::Trail;
use crate::walk::Visit;
use eden_git::cut;
use eden_globs::Filter;
use eden_ids::{Id, Kind, Naming, NoMemory, Path};

/// A walk that lists the admitted files.
#[derive(Drop)]
struct Listing<'a> {
    filter: &'a Filter,
    /// The files found so far.
    rows: Vec<(Path, Kind, Id)>,
}

impl<'a> Visit for Listing<'a> {
    ghost use Rattle.eden_ids.specs.Paths.{IsPath};
    ghost use Rattle.eden_objects.specs.internal.Visits.{IsListing};
    ghost use Rattle.eden_objects.specs.internal.VisitLaws.{listing_laws};

    type Stop = NoMemory;

    ghost allows = { IsPath };

    ghost gives = { IsListing };

    ghost laws = { listing_laws };

    fn enters(&self, directory: &[u8]) -> bool {
        self.filter.admits_below(directory)
    }

    fn file(&mut self, path: &[u8], kind: Kind, id: Id) -> Result<(), NoMemory> {
        if self.filter.admits_bytes(path) {
            let path = Path::joined(*self.rows.allocator(), path, b"".as_slice())?;
            self.rows.push((path, kind, id))?;
        }
        Ok(())
    }
}

impl<N: Naming + Drop> Store<N> {
    /// Returns the admitted files of a commit, in byte order.
    ///
    /// Each has its path, its kind and its blob. Each directory below which the filter
    /// may admit something (`Filter::admits_below`) is read once, and no other. No path
    /// is made that the filter does not admit.
    ///
    /// # Errors
    ///
    /// - `NoCommit` if the id is not that of a commit.
    /// - `NoMemory` if an allocation fails; it may be returned instead of any other answer.
    pub fn list(&self, commit: Id, filter: &Filter) -> Result<Vec<(Path, Kind, Id)>, CommitFault>
        ensures { Lists result (rows_where (admits filter.now) (commit_rows self.now commit)) }
    {
        match self.root_tree(commit) {
            Ok(Some(tree)) => self.list_tree(tree, filter),
            Ok(None) => Ok(Vec::new(self.allocator())),
            Err(NoCommit) => Err(CommitFault::NoCommit),
        }
    }

    /// Returns the admitted files of a commit that are below a path.
    ///
    /// Each has its path, its kind and its blob; they are in byte order of the paths. If
    /// the path is not a directory of the commit, there are none. The directories on the
    /// way to the path are searched. Those below it are read if the filter may admit
    /// something below them (`Filter::admits_below`).
    ///
    /// # Errors
    ///
    /// - `NoCommit` if the id is not that of a commit.
    /// - `NoMemory` if an allocation fails; it may be returned instead of any other answer.
    pub fn list_below(
        &self,
        commit: Id,
        top: &Path,
        filter: &Filter,
    ) -> Result<Vec<(Path, Kind, Id)>, CommitFault>
        ensures { Lists result (rows_where (admits filter.now) (rows_where (λ p. lies_below p top.now) (commit_rows self.now commit))) }
    {
        match self.root_tree(commit) {
            Ok(Some(tree)) => self.list_directory(tree, top, filter),
            Ok(None) => Ok(Vec::new(self.allocator())),
            Err(NoCommit) => Err(CommitFault::NoCommit),
        }
    }

    /// Returns the admitted files of a tree that are below a path.
    fn list_directory(
        &self,
        tree: Id,
        path: &Path,
        filter: &Filter,
    ) -> Result<Vec<(Path, Kind, Id)>, CommitFault>
        requires { HasTree self.now tree }
        ensures { Lists result (rows_where (admits filter.now) (Some (rows_below self.now tree path.now))) }
    {
        self.closed_law();
        let Some(dir) = self.directory_below(tree, path.as_bytes()) else {
            return Ok(Vec::new(self.allocator()));
        };
        Ok(self.gather_below(dir, path, filter, &Nothing)?)
    }

    /// Returns the directory of a tree at a path.
    #[tactic(auto, using(crate::proofs::WalkSteps::rest_shorter))]
    pub(crate) fn directory_below(&self, tree: Id, path: &[u8]) -> Option<Id>
        requires { HasTree self.now tree }
        ensures { IsBelow self.now tree path.now result }
    {
        self.closed_law();
        let mut dir = tree;
        let mut rest = path;
        'walk: loop {
            match cut(rest, b'/') {
                None => return self.directory_in(dir, rest),
                Some((name, after)) => match self.directory_in(dir, name) {
                    None => return None,
                    Some(child) => {
                        dir = child;
                        rest = after;
                    }
                },
            }
        }
    }

    /// Returns the files of a tree that a filter admits.
    #[tactic(auto, using(crate::proofs::Gathering::nothing_before))]
    fn list_tree(&self, tree: Id, filter: &Filter) -> Result<Vec<(Path, Kind, Id)>, CommitFault>
        requires { HasTree self.now tree }
        ensures { Lists result (rows_where (admits filter.now) (Some (tree_rows self.now tree))) }
    {
        Ok(self.gather_all(tree, filter, &Nothing)?)
    }

    /// Returns the files below a path, admitted and not passed over.
    ///
    /// Each is given the path that it would have if the directory were at `seen`.
    pub(crate) fn gather_seen<S: Passes>(
        &self,
        tree: Id,
        top: &[u8],
        seen: &Path,
        filter: &Filter,
        passed: &S,
    ) -> Result<Vec<(Path, Kind, Id)>, NoMemory>
        requires tree { HasTree self.now tree }
        requires paths { AreToldPaths (S.passes passed.now) top.now seen.now (tree_rows self.now tree) }
        ensures { IfOk result (λ rows. rows.items
            ≡ rows_shown (is_shown (S.passes passed.now) filter.now) top.now seen.now (rows_below self.now tree top.now)) }
    {
        self.closed_law();
        match self.directory_below(tree, top) {
            Some(dir) => self.gather_below(dir, seen, filter, passed),
            None => Ok(Vec::new(self.allocator())),
        }
    }

    /// Returns the files of a directory, admitted and not passed over.
    ///
    /// Their paths begin with the path of the directory.
    pub(crate) fn gather_below<S: Passes>(
        &self,
        dir: Id,
        path: &Path,
        filter: &Filter,
        passed: &S,
    ) -> Result<Vec<(Path, Kind, Id)>, NoMemory>
        requires tree { HasTree self.now dir }
        requires paths { AreAllowedBut IsPath (S.passes passed.now) (path.now ++ 47 ∷ []) (tree_rows self.now dir) }
        ensures { IfOk result (λ rows. rows.items
            ≡ rows_behind (is_shown (S.passes passed.now) filter.now) (path.now ++ 47 ∷ []) (tree_rows self.now dir)) }
    {
        self.closed_law();
        if !filter.admits_below(path.as_bytes()) {
            return Ok(Vec::new(self.allocator()));
        }
        self.gather(dir, &mut Trail::below(path), filter, passed)
    }

    /// Returns the files of a tree, admitted and not passed over.
    pub(crate) fn gather_all<S: Passes>(
        &self,
        tree: Id,
        filter: &Filter,
        passed: &S,
    ) -> Result<Vec<(Path, Kind, Id)>, NoMemory>
        requires { HasTree self.now tree }
        ensures { IfOk result (λ rows. rows.items ≡ rows_behind (is_shown (S.passes passed.now) filter.now) [] (tree_rows self.now tree)) }
    {
        self.closed_law();
        self.gather(tree, &mut Trail::new(), filter, passed)
    }

    /// Returns the files of a tree at a trail, admitted and not passed over.
    fn gather<S: Passes>(
        &self,
        tree: Id,
        trail: &mut Trail,
        filter: &Filter,
        passed: &S,
    ) -> Result<Vec<(Path, Kind, Id)>, NoMemory>
        requires tree { HasTree self.now tree }
        requires room { length trail.old + tree_reach self.now tree ≤ 2049 }
        requires paths { AreAllowedBut IsPath (S.passes passed.now) trail.old (tree_rows self.now tree) }
        ensures { IfOk result (λ rows. rows.items ≡ rows_behind (is_shown (S.passes passed.now) filter.now) trail.old (tree_rows self.now tree)) }
    {
        let mut listing = Listing {
            filter,
            rows: Vec::new(self.allocator()),
        };
        self.walk(tree, passed, trail, &mut listing)?;
        Ok(listing.rows)
    }
}
