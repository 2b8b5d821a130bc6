//! Entries in byte order of their paths, of each path one at most.

ghost use Rattle.std.specs.Prelude.{◌≡◌, ◌<◌, ◌≤◌, ◌+◌, filter, not, T, Some, None, IfOk, IsOk, OnOk, OnErr, length, option_copied};
ghost use Rattle.std.specs.Vec.{vec_len, vec_capacity};
ghost use Rattle.std.specs.Option.{is_none};
ghost use Rattle.std.specs.Ordering.{is_lt};
ghost use Rattle.std.specs.FinMap.{is_sorted, put, find};
ghost use Rattle.eden_ids.specs.FileMaps.{same_path};
ghost use Rattle.eden_overlay.specs.Layers.{by_bytes};
ghost use Rattle.eden_overlay.specs.Places.{place};
ghost use Rattle.eden_overlay.specs.internal.There.{IsThere};

use eden_ids::{NoMemory, Path};

/// Returns whether an entry's path comes before another in byte order.
pub(crate) fn is_before<V>(entry: &(Path, V), path: &[u8]) -> bool
    ensures { result ≡ is_lt (by_bytes entry.now.0 path.now) }
{
    entry.0.as_bytes().cmp(path).is_lt()
}

/// Returns how many entries have lesser paths: the place of the path's own entry.
///
/// It is found by binary search. Does not allocate.
pub fn place_of<V>(entries: &[(Path, V)], path: &[u8]) -> usize
    requires { T (is_sorted by_bytes entries.now) }
    ensures is { result ≡ place path.now entries.now }
    ensures within { result ≤ length entries.now }
{
    entries.partition_point(|entry| is_before(entry, path))
}

/// Returns whether the entry at a place is that of a path.
fn is_there<V>(entries: &[(Path, V)], at: usize, path: &[u8]) -> bool
    ensures { IsThere result path.now entries.now at }
{
    at < entries.len() && entries[at].0.as_bytes() == path
}

/// Returns the value of a path, if it has an entry. Does not allocate.
#[tactic(auto, using(crate::proofs::Placing::told_there, crate::proofs::Placing::not_told))]
pub fn value_at<'a, V>(entries: &'a [(Path, V)], path: &[u8]) -> Option<&'a V>
    requires { T (is_sorted by_bytes entries.now) }
    ensures { option_copied result ≡ find by_bytes path.now entries.now }
{
    let at = place_of(entries, path);
    if is_there(entries, at, path) {
        Some(&entries[at].1)
    } else {
        None
    }
}

/// Puts an entry in, replacing the path's earlier one, and returns whether it is new.
///
/// `NoMemory` if an allocation fails; then nothing changes, and the path had no entry. It can't
/// fail if there is room for one more entry.
#[tactic(auto, using(crate::proofs::Placing::still_sorted, crate::proofs::Placing::not_told))]
pub(crate) fn put<V: Drop>(
    entries: &mut Vec<(Path, V)>,
    path: Path,
    value: V,
) -> Result<bool, NoMemory>
    requires { T (is_sorted by_bytes entries.old.items) }
    ensures ok { OnOk result (entries.new.items ≡ put by_bytes path value entries.old.items) }
    ensures added { IfOk result (λ is_new. is_new ≡ is_none (find by_bytes path entries.old.items)) }
    ensures err { OnErr result (entries.new.items ≡ entries.old.items) }
    ensures sorted { T (is_sorted by_bytes entries.new.items) }
    ensures absent { OnErr result (find by_bytes path entries.old.items ≡ None) }
    ensures room { vec_len entries.old < vec_capacity entries.old → IsOk result }
    ensures one_more { vec_len entries.new ≤ vec_len entries.old + 1 }
    ensures capacity { vec_capacity entries.old ≤ vec_capacity entries.new }
{
    let at = place_of(entries, path.as_bytes());
    if is_there(entries, at, path.as_bytes()) {
        entries[at] = (path, value);
        return Ok(false);
    }
    entries.insert(at, (path, value))?;
    Ok(true)
}

/// Puts an entry in, replacing the path's earlier one. There must be room for one more entry.
pub fn put_reserved<V: Drop>(entries: &mut Vec<(Path, V)>, path: Path, value: V)
    requires sorted { T (is_sorted by_bytes entries.old.items) }
    requires room { vec_len entries.old < vec_capacity entries.old }
    ensures put { entries.new.items ≡ put by_bytes path value entries.old.items }
    ensures sorted { T (is_sorted by_bytes entries.new.items) }
    ensures one_more { vec_len entries.new ≤ vec_len entries.old + 1 }
    ensures capacity { vec_capacity entries.old ≤ vec_capacity entries.new }
{
    if put(entries, path, value).is_err() {
        // There is room.
        unreachable!()
    }
}

/// Removes the entry of a path and returns its value. Does not allocate.
#[tactic(auto, using(crate::proofs::Placing::sorted_without))]
pub(crate) fn take_out<V: Drop>(entries: &mut Vec<(Path, V)>, path: &[u8]) -> Option<V>
    requires { T (is_sorted by_bytes entries.old.items) }
    ensures left { entries.new.items ≡ filter (λ e. not (same_path path.now e.0)) entries.old.items }
    ensures sorted { T (is_sorted by_bytes entries.new.items) }
    ensures there { result ≡ find by_bytes path.now entries.old.items }
{
    let at = place_of(entries, path);
    if is_there(entries, at, path) {
        return Some(entries.remove(at).1);
    }
    None
}
