//! Listed paths and touched ones, woven into one list in byte order.

ghost use Rattle.std.specs.Prelude.{◌≡◌, ◌++◌, T, filter, drop, take, IfOk, OnOk, option_copied, slice_get};
ghost use Rattle.std.specs.FinMap.{is_sorted};
ghost use Rattle.eden_globs.specs.Filters.{admits};
ghost use Rattle.eden_ids.specs.Paths.{lies_below};
ghost use Rattle.eden_ids.specs.FileMaps.{FileMap, listing, paths};
ghost use Rattle.eden_overlay.specs.Layers.{by_bytes, over};
ghost use Rattle.eden_overlay.specs.Listings.{admitted, shown_over};
ghost use Rattle.eden_overlay.specs.internal.Woven.{order_of, pointed, shown, woven};

use crate::marks::{Listed, Marks};
use crate::overlay::Overlay;
use eden_globs::Filter;
use eden_ids::{NoMemory, Path};
use std::alloc::Global;
use std::cmp::Ordering;
use std::collections::VecDeque;

/// Compares a listed path with a mark's. A missing one comes after any other.
///
/// It is `None` if both are missing.
fn order_of(path: Option<&Path>, mark: Option<(&Path, bool)>) -> Option<Ordering>
    ensures { result ≡ order_of (option_copied path.entry) (pointed mark.entry) }
{
    match (path, mark) {
        (None, None) => None,
        (Some(_), None) => Some(Ordering::Less),
        (None, Some(_)) => Some(Ordering::Greater),
        (Some(path), Some(mark)) => Some(path.cmp(mark.0)),
    }
}

/// Moves the first listed path to the paths, if there is one.
fn move_first(paths: &mut Vec<Path>, listed: &mut VecDeque<Path>) -> Result<(), NoMemory>
    ensures added { OnOk result (paths.new.items ≡ paths.old.items ++ take 1 listed.old.items) }
    ensures left { listed.new.items ≡ drop 1 listed.old.items }
{
    if let Some(path) = listed.pop_front() {
        paths.push(path)?;
    }
    Ok(())
}

/// Adds the first mark's path, if a file is there and the filter admits it, and passes the mark.
fn add_first<M: Marks>(
    paths: &mut Vec<Path>,
    marks: &mut M,
    wanted: &Filter,
) -> Result<(), NoMemory>
    ensures added { OnOk result (paths.new.items ≡ paths.old.items ++ shown wanted.now (slice_get (M.left marks.old) 0)) }
    ensures left { OnOk result (M.left marks.new ≡ drop 1 (M.left marks.old)) }
{
    if let Some((path, is_there)) = marks.first() {
        if is_there && wanted.admits(path) {
            paths.push(path.copy()?)?;
        }
    }
    marks.pass();
    Ok(())
}

/// Returns listed paths and those of marks, woven. No listed path is copied.
pub(crate) fn weave<M: Marks>(
    alloc: Global,
    listed: Vec<Path>,
    marks: &mut M,
    wanted: &Filter,
) -> Result<Vec<Path>, NoMemory>
    ensures { IfOk result (λ paths. paths.items ≡ woven wanted.now listed.items (M.left marks.old)) }
{
    let mut paths = Vec::with_capacity(alloc, listed.len())?;
    let mut listed = VecDeque::from(listed);
    while let Some(order) = order_of(listed.front(), marks.first()) {
        match order {
            Ordering::Less => move_first(&mut paths, &mut listed)?,
            // The mark says whether a file is there.
            Ordering::Equal => {
                let _ = listed.pop_front();
            }
            Ordering::Greater => add_first(&mut paths, marks, wanted)?,
        }
    }
    Ok(paths)
}

/// Returns the paths that a filter admits of listed ones with touched paths over them.
///
/// A touched path is in the list if a file is there, and a listed path if it was not touched. The
/// touched paths must be in byte order, each once. If the listed paths are those of a file map that
/// the filter admits, in byte order, so is the list. `NoMemory` if an allocation fails. No listed
/// path is copied, and no touched path that the filter does not admit.
pub fn woven(
    alloc: Global,
    listed: Vec<Path>,
    touched: &[(Path, bool)],
    wanted: &Filter,
) -> Result<Vec<Path>, NoMemory>
    requires { T (is_sorted by_bytes touched.now) }
    ensures { (base : FileMap) → listed.items ≡ admitted wanted.now base
        → IfOk result (λ paths. paths.items ≡ filter (admits wanted.now) (listing (shown_over base touched.now))) }
{
    weave(alloc, listed, &mut Listed { left: touched }, wanted)
}

impl Overlay {
    /// Returns the paths that a filter admits of the files that are seen over listed ones.
    ///
    /// The listed paths are those of the files below the overlay that the filter admits, in byte
    /// order. `NoMemory` if an allocation fails. No listed path is copied.
    pub fn list_over(&self, listed: Vec<Path>, wanted: &Filter) -> Result<Vec<Path>, NoMemory>
        ensures { (base : FileMap) → listed.items ≡ admitted wanted.now base
            → IfOk result (λ paths. paths.items ≡ admitted wanted.now (over base self.now)) }
    {
        weave(self.allocator(), listed, &mut self.entries(), wanted)
    }

    /// Returns the paths below a directory that a filter admits, of the files seen over listed ones.
    ///
    /// The listed paths are those of the files below the overlay that are in the directory and that
    /// the filter admits, in byte order. `NoMemory` if an allocation fails. Only the overlay's
    /// entries below the directory are looked at.
    pub fn list_below_over(
        &self,
        listed: Vec<Path>,
        top: &Path,
        wanted: &Filter,
    ) -> Result<Vec<Path>, NoMemory>
        ensures { (base : FileMap) → listed.items ≡ filter (admits wanted.now) (filter (λ path. lies_below path top.now) (paths base))
            → IfOk result (λ found. found.items ≡ filter (admits wanted.now) (filter (λ path. lies_below path top.now) (paths (over base self.now)))) }
    {
        weave(self.allocator(), listed, &mut self.below(top), wanted)
    }
}
