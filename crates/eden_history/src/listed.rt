//! Look-up of a path in a sorted list.

ghost use Rattle.std.specs.Prelude.{◌≡◌};
ghost use Rattle.std.specs.Ordering.{nat_cmp};
ghost use Rattle.std.specs.Cmp.Lexicographic.{slice_cmp};
ghost use Rattle.std.specs.List.{list_any};
ghost use Rattle.std.specs.List.Sorted.{IsStrictlySortedBy};
ghost use Rattle.eden_ids.specs.FileMaps.{same_path};

use eden_ids::Path;

/// Returns true if a path is in a sorted list.
///
/// It is found by binary search. Does not allocate.
pub fn is_listed(paths: &[Path], path: &[u8]) -> bool
    requires { IsStrictlySortedBy (slice_cmp nat_cmp) paths.now }
    ensures { result ≡ list_any (λ p. same_path path.now p) paths.now }
{
    let at = paths.partition_point(|other| other.as_bytes().cmp(path).is_lt());
    at < paths.len() && paths[at].as_bytes() == path
}
