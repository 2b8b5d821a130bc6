//! The part of a sorted list that is below a path.

ghost use Rattle.std.specs.Prelude.{◌≡◌, ◌++◌, ◌∷◌, ◌≤◌, [], filter, length, map};
ghost use Rattle.std.specs.Ordering.{nat_cmp, is_lt};
ghost use Rattle.std.specs.Cmp.Lexicographic.{slice_cmp};
ghost use Rattle.std.specs.List.{list_any};
ghost use Rattle.std.specs.List.Sorted.{IsStrictlySortedBy};
ghost use Rattle.eden_ids.specs.Paths.{lies_below};

use crate::path::Path;

/// An entry kept under a path, in a sorted list.
pub trait AtPath {
    ghost use Rattle.std.specs.Prelude.{ℕ, List};

    /// The path's bytes.
    ghost path: { Self → List ℕ };

    /// Returns the path.
    fn path(&self) -> &Path
        ensures { result.now ≡ path self.now };
}

impl AtPath for Path {
    ghost path = { λ path. path };

    fn path(&self) -> &Path {
        self
    }
}

impl<X> AtPath for (Path, X) {
    ghost path = { λ entry. entry.0 };

    fn path(&self) -> &Path {
        &self.0
    }
}

/// Returns true if `path` sorts before `top` followed by this byte.
#[tactic(auto, using(crate::proofs::ByteOrder::before_short, crate::proofs::ByteOrder::before_long))]
fn precedes_edge(path: &[u8], top: &[u8], byte: u8) -> bool
    ensures { result ≡ is_lt (slice_cmp nat_cmp path.now (top.now ++ byte ∷ [])) }
{
    if path.len() <= top.len() {
        return path.cmp(top).is_le();
    }
    path[..top.len()]
        .cmp(top)
        .then(path[top.len()].cmp(&byte))
        .is_lt()
}

/// Returns the entries whose paths are below a path.
///
/// The list is in byte order of its paths, so these entries are consecutive: they run
/// from `top/` up to, but not including, `top0` (`0` is the byte after `/`). Both ends
/// are found by binary search. Does not allocate.
pub fn paths_below<'a, X: AtPath>(items: &'a [X], top: &[u8]) -> &'a [X]
    requires { IsStrictlySortedBy (slice_cmp nat_cmp) (map X.path items.now) }
    ensures { result.now ≡ filter (λ x. lies_below (X.path x) top.now) items.now }
{
    let start = items.partition_point(|x| precedes_edge(x.path().as_bytes(), top, b'/'));
    let end = items.partition_point(|x| precedes_edge(x.path().as_bytes(), top, b'/' + 1));
    &items[start..end]
}

/// Returns true if an entry's path is below a path.
///
/// The list is in byte order of its paths.
#[tactic(auto, using(crate::proofs::ByteOrder::any_filter))]
pub fn has_path_below<X: AtPath>(items: &[X], top: &[u8]) -> bool
    requires { IsStrictlySortedBy (slice_cmp nat_cmp) (map X.path items.now) }
    ensures { result ≡ list_any (λ x. lies_below (X.path x) top.now) items.now }
{
    !paths_below(items, top).is_empty()
}
