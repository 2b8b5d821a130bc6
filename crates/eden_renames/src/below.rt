//! Sorted entries, when those below one directory move below another.

ghost use Rattle.std.specs.Prelude.{◌≡◌, ◌≢◌, ◌≤◌, ◌+◌, ◌++◌, ℕ, List, T, take, drop, false, true, not, IfOk, IfErr, filter, if◌then◌else◌, map};
ghost use Rattle.std.specs.Vec.{vec_len, vec_capacity};
ghost use Rattle.std.specs.List.{AllByRecursion, list_any};
ghost use Rattle.std.specs.FinMap.{find, is_sorted};
ghost use Rattle.eden_ids.specs.Paths.{lies_below};
ghost use Rattle.eden_renames.specs.Renames.{by_bytes};
ghost use Rattle.eden_overlay.specs.Carried.{breaks};
ghost use Rattle.eden_renames.specs.internal.Shifted.{shifted_entry, IsPutIn};

use eden_ids::{NoMemory, Path, has_path_below};
use eden_overlay::{CarryFault, carried_path, place_of};
use std::alloc::Global;

/// Returns a copy of a directory, or `None` if there is none.
fn copy_of(source: &Option<Path>) -> Result<Option<Path>, NoMemory>
    ensures { IfOk result (λ copy. copy ≡ source.now) }
{
    match source {
        Some(path) => Ok(Some(path.copy()?)),
        None => Ok(None),
    }
}

/// Returns entries below the old path as they are below the new one.
///
/// # Errors
///
/// - `PathTooLong` if one would be at an invalid path.
/// - `NoMemory` if an allocation fails.
pub(crate) fn shifted(
    alloc: Global,
    entries: &[(Path, Option<Path>)],
    old: &Path,
    new: &Path,
) -> Result<Vec<(Path, Option<Path>)>, CarryFault>
    requires { AllByRecursion (λ e. lies_below e.0 old.now ≡ true) entries.now }
    ensures shifted { IfOk result (λ more. more.items ≡ map (shifted_entry old.now new.now) entries.now) }
    ensures accepts { IfOk result (λ _. list_any (λ e. breaks old.now new.now e.0) entries.now ≡ false) }
    ensures refuses { IfErr result (λ fault. fault ≢ CarryFault.NoMemory → list_any (λ e. breaks old.now new.now e.0) entries.now ≡ true) }
{
    let mut more = Vec::new(alloc);
    for entry in entries {
        let place = carried_path(alloc, &entry.0, old, new)?;
        let source = copy_of(&entry.1)?;
        if more.push((place, source)).is_err() {
            return Err(CarryFault::NoMemory);
        }
    }
    Ok(more)
}

/// Removes the entries below a directory.
///
/// If there are none, only the entries on the way to them are looked at.
pub(crate) fn forget_below(entries: &mut Vec<(Path, Option<Path>)>, top: &Path)
    requires { T (is_sorted by_bytes entries.old.items) }
    ensures left { entries.new.items ≡ filter (λ e. not (lies_below e.0 top.now)) entries.old.items }
    ensures fewer { vec_len entries.new ≤ vec_len entries.old }
    ensures capacity { vec_capacity entries.new ≡ vec_capacity entries.old }
{
    if has_path_below(entries.as_slice(), top.as_bytes()) {
        entries.retain(|entry| !entry.0.is_below(top));
    }
}

/// Inserts entries at an index. There must be room for them.
fn put_at(entries: &mut Vec<(Path, Option<Path>)>, at: usize, mut more: Vec<(Path, Option<Path>)>)
    requires within { at ≤ vec_len entries.old }
    requires room { vec_len entries.old + vec_len more ≤ vec_capacity entries.old }
    ensures put { entries.new.items ≡ take at entries.old.items ++ (more.items ++ drop at entries.old.items) }
    ensures len { vec_len entries.new ≡ vec_len entries.old + vec_len more }
    ensures capacity { vec_capacity entries.old ≤ vec_capacity entries.new }
{
    let behind = entries.len() - at;
    entries.rotate_left(at);
    if entries.append(&mut more).is_err() {
        // There is room.
        unreachable!()
    }
    entries.rotate_left(behind);
}

/// Inserts entries at the index of the first of them. There must be room for them.
fn put_in(entries: &mut Vec<(Path, Option<Path>)>, more: Vec<(Path, Option<Path>)>)
    requires sorted { T (is_sorted by_bytes entries.old.items) }
    requires room { vec_len entries.old + vec_len more ≤ vec_capacity entries.old }
    ensures together { IsPutIn more.items entries.old.items entries.new.items }
    ensures len { vec_len entries.new ≡ vec_len entries.old + vec_len more }
    ensures capacity { vec_capacity entries.old ≤ vec_capacity entries.new }
{
    let Some(first) = more.first() else {
        return;
    };
    let at = place_of(entries, first.0.as_bytes());
    put_at(entries, at, more);
}

/// Replaces the entries below a directory. There must be room for the new ones.
pub(crate) fn replace_below(
    entries: &mut Vec<(Path, Option<Path>)>,
    top: &Path,
    more: Vec<(Path, Option<Path>)>,
)
    requires sorted { T (is_sorted by_bytes entries.old.items) }
    requires more_sorted { T (is_sorted by_bytes more.items) }
    requires below { AllByRecursion (λ e. lies_below e.0 top.now ≡ true) more.items }
    requires room { vec_len entries.old + vec_len more ≤ vec_capacity entries.old }
    ensures sorted { T (is_sorted by_bytes entries.new.items) }
    ensures finds { (dir : List ℕ) → find by_bytes dir entries.new.items
        ≡ (if lies_below dir top.now then find by_bytes dir more.items else find by_bytes dir entries.old.items) }
    ensures len { vec_len entries.new ≤ vec_len entries.old + vec_len more }
    ensures capacity { vec_capacity entries.old ≤ vec_capacity entries.new }
{
    forget_below(entries, top);
    put_in(entries, more);
}
