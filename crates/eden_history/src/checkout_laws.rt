//! Laws of checkouts, as the contract of a function that does nothing.

ghost use Rattle.std.specs.Prelude.{◌≡◌, ◌||◌, ℕ, List, true};
ghost use Rattle.eden_ids.specs.FileMaps.{FileMap, IsFileMap, differ, file_at, has};
ghost use Rattle.eden_history.specs.declared.change.Mode.{Mode};
ghost use Rattle.eden_history.specs.Checkouts.{checked_out, conflicts, is_conflict, rule_of, unclean};

/// States what a checkout does to files, and its conflicts.
pub fn checkout_law()
    // At every path the files after a checkout are those of the mode's rule.
    ensures files { (mode : Mode) (work root target : FileMap) (p : List ℕ)
        → file_at (checked_out mode work root target) p ≡ rule_of mode work root target p }
    // No two files clash after it, if none did before and none do in the target.
    ensures fits { (mode : Mode) (work root target : FileMap)
        → IsFileMap work → IsFileMap target → IsFileMap (checked_out mode work root target) }
    // The conflicts are exactly the paths of `is_conflict`, and root and target differ at
    // each.
    ensures conflicts { (work root target : FileMap) (p : List ℕ) → has (conflicts work root target) p ≡ is_conflict work root target p }
    ensures conflicts_differ { (work root target : FileMap) (p : List ℕ) → IsFileMap work
        → has (conflicts work root target) p ≡ true → has (differ root target) p ≡ true }
    // The unclean paths are those of the working copy before it, and those of the one
    // after it.
    ensures unclean { (work root next target : FileMap) (p : List ℕ)
        → has (unclean work root next target) p ≡ (has (differ work root) p || has (differ next target) p) }
{}
