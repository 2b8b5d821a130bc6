//! Laws of patterns, as the contract of a function that does nothing.

ghost use Rattle.std.specs.Prelude.{◌≡◌, ◌||◌, ◌∷◌, ◌++◌, ℕ, List, [], true, false, not, codes};
ghost use Rattle.eden_ids.specs.Paths.{lies_below};
ghost use Rattle.eden_ids.specs.Sameness.{same_bytes};
ghost use Rattle.eden_globs.specs.Filters.{Patterns, admits, all_paths, enters, including, is_plain};

/// States what common patterns admit, and what none do.
pub fn filter_law()
    // Without patterns every path is admitted.
    ensures none { (path : List ℕ) → admits all_paths path ≡ true }
    // So is every path by the pattern `**`.
    ensures any { (path : List ℕ) → admits (including (codes "**" ∷ [])) path ≡ true }
    // A pattern in which each byte matches itself admits the path of the same bytes, and
    // no other.
    ensures itself { (pattern path : List ℕ) → is_plain pattern ≡ true → admits (including (pattern ∷ [])) path ≡ same_bytes pattern path }
    // With `/**` after it, it admits that path and those below it, and no other.
    ensures below { (pattern path : List ℕ) → is_plain pattern ≡ true
        → admits (including ((pattern ++ codes "/**") ∷ [])) path ≡ (same_bytes pattern path || lies_below path pattern) }
    // If it is excluded so, each other path is admitted.
    ensures except { (pattern path : List ℕ) → is_plain pattern ≡ true
        → admits (record { included = []; excluded = (pattern ++ codes "/**") ∷ [] }) path ≡ not (same_bytes pattern path || lies_below path pattern) }
    // Nothing is admitted that is below a directory that the filter does not enter.
    ensures outside { (filter : Patterns) (directory path : List ℕ) → enters filter directory ≡ false
        → lies_below path directory ≡ true → admits filter path ≡ false }
{}
