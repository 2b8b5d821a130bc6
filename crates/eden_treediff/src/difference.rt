//! The walk over two trees, directory by directory, that finds the paths at which they
//! differ.

ghost use Rattle.std.specs.Prelude.{◌≡◌, ◌++◌, ◌∷◌, [], IfOk, OnOk, true};
ghost use Rattle.eden_globs.specs.Filters.{admits, all_paths};
ghost use Rattle.eden_ids.specs.Paths.{IsPath};
ghost use Rattle.eden_objects.specs.Listings.{ArePaths};
ghost use Rattle.eden_treediff.specs.Merges.{merge_rows};
ghost use Rattle.eden_treediff.specs.internal.Settled.{AreSettled, HoldSame, KeepsSettled, is_known};
ghost use Rattle.eden_treediff.specs.internal.Columns.{entries_lent};
ghost use Rattle.eden_treediff.specs.internal.Walks.{IsSide, is_one_tree, side_entries, side_rows, wanted_behind};

use crate::known_pairs::KnownPairs;
use crate::merge::Merge;
use eden_globs::{Filter, Front};
use eden_ids::{Id, Naming, NoMemory, Path};
use eden_objects::{Rows, Store};
use std::alloc::Global;

/// The paths found so far, and the directory that is read.
#[derive(Drop)]
pub(crate) struct Found {
    pub(crate) front: Front,
    pub(crate) paths: Vec<Path>,
}

impl Found {
    /// Adds a file's path, if the filter admits it.
    ///
    /// The file is in the directory that is read.
    fn add(&mut self, filter: &Filter, name: &[u8]) -> Result<(), NoMemory>
        requires { IsPath (self.old.front ++ name.now) }
        ensures paths { OnOk result (self.new.paths.items
            ≡ self.old.paths.items ++ wanted_behind (admits filter.now) self.old.front (name.now ∷ [])) }
        ensures front { OnOk result (self.new.front ≡ self.old.front) }
    {
        if let Some(path) = self.front.path_if_wanted(filter, name)? {
            self.paths.push(path)?;
        }
        Ok(())
    }
}

/// Returns true if both trees are missing, or they are the same.
fn is_one_tree(first: Option<Id>, second: Option<Id>) -> bool
    ensures { result ≡ is_one_tree first second }
{
    match (first, second) {
        (None, None) => true,
        (Some(first), Some(second)) => first == second,
        _ => false,
    }
}

/// Returns the entries of a tree, or `None` if it is missing.
fn rows_of<N: Naming + Drop>(store: &Store<N>, side: Option<Id>) -> Option<Rows<'_>>
    requires { IsSide store.now side }
    ensures { entries_lent result ≡ side_entries store.now side }
{
    match side {
        Some(id) => store.rows(id),
        None => None,
    }
}

/// Adds the admitted paths at which two trees differ.
///
/// Returns true only if the two are known to hold the same files. What both have under
/// one id is not read, nor is a directory below which nothing is admitted. The entries of
/// directories with the same names are compared as whole columns, first ids and then
/// kinds.
///
/// A pair of trees that was read whole and has no differing path is remembered, and is
/// not read again. A pair that was not read whole is not remembered, since another part
/// of it may be admitted elsewhere.
pub(crate) fn walk<N: Naming + Drop>(
    alloc: Global,
    store: &Store<N>,
    first: Option<Id>,
    second: Option<Id>,
    filter: &Filter,
    found: &mut Found,
    settled: &mut KnownPairs,
) -> Result<bool, NoMemory>
    requires first { IsSide store.now first }
    requires second { IsSide store.now second }
    requires settled { AreSettled store.now settled.old }
    requires first_paths { ArePaths found.old.front (side_rows store.now first) }
    requires second_paths { ArePaths found.old.front (side_rows store.now second) }
    ensures paths { OnOk result (found.new.paths.items ≡ found.old.paths.items
        ++ wanted_behind (admits filter.now) found.old.front (merge_rows (side_rows store.now first) (side_rows store.now second))) }
    ensures front { OnOk result (found.new.front ≡ found.old.front) }
    ensures settled { OnOk result (AreSettled store.now settled.new) }
    ensures kept { OnOk result (KeepsSettled settled.old settled.new) }
    ensures same { IfOk result (λ same. same ≡ true → is_known settled.new first second ≡ true) }
    // If everything is admitted, it is true for all pairs that hold the same files.
    ensures known { IfOk result (λ same. filter.now ≡ all_paths → HoldSame store.now first second → same ≡ true) }
{
    store.closed_law();
    if is_one_tree(first, second) || settled.has(first, second) {
        return Ok(true);
    }
    let mut merge = Merge::new(alloc, rows_of(store, first), rows_of(store, second))?;
    let mut same = true;
    'pairs: while let Some(pair) = merge.next() {
        if !pair.is_changed() {
            continue;
        }
        let Some((name, tree, other)) = pair.directory() else {
            found.add(filter, pair.name())?;
            same = false;
            continue;
        };
        let Some(length) = found.front.enter(filter, name)? else {
            same = false;
            continue;
        };
        let inside = walk(alloc, store, tree, other, filter, found, settled)?;
        found.front.leave(length);
        if !inside {
            same = false;
        }
    }
    if !same {
        return Ok(false);
    }
    settled.add(first, second)?;
    Ok(true)
}
