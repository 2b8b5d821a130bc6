//! Laws of renamed directories, as the contract of a function that does nothing.

ghost use Rattle.std.specs.Prelude.{◌≡◌, ℕ, IsSome, List, false, true};
ghost use Rattle.std.specs.FinMap as fin;
ghost use Rattle.eden_ids.specs.FileMaps.{FileMap, file_at, has};
ghost use Rattle.eden_ids.specs.Paths.{IsPath, lies_below};
ghost use Rattle.eden_ids.specs.Texts.{AreBytes, AreTexts};
ghost use Rattle.eden_overlay.specs.Carried.{carried, carried_files};
ghost use Rattle.eden_renames.specs.Renames.{ArePaths, Renames, dir_moved, file_from, is_governed, moved_rule, seen_through, source_of, unsettled};

/// States what is seen through renamed directories, and after one more.
pub fn renames_law()
    // At every path, the file that is seen is the one at the commit's path that the
    // nearest entry gives.
    ensures files { (files : FileMap) (renames : Renames) (path : List ℕ) → file_at (seen_through files renames) path ≡ file_from files (source_of renames path) }
    // If nothing was renamed, the commit's own files are seen,
    ensures unmoved { (files : FileMap) → seen_through files fin.empty ≡ files }
    // and so they are at each path that no entry governs,
    ensures own { (files : FileMap) (renames : Renames) (path : List ℕ) → is_governed renames path ≡ false → file_at (seen_through files renames) path ≡ file_at files path }
    // and at each path that is not unsettled.
    ensures settled { (files : FileMap) (renames : Renames) (path : List ℕ) → IsPath path → has (unsettled files renames) path ≡ false
        → file_at (seen_through files renames) path ≡ file_at files path }
    // After a rename each directory has the entry of the rule,
    ensures entries { (renames : Renames) (old new dir : List ℕ) → fin.get (dir_moved renames old new) dir ≡ moved_rule renames old new dir }
    // and what was seen below the old path is seen below the new one, if all paths of the
    // commit's files are valid.
    ensures renamed { (files : FileMap) (renames : Renames) (old new : List ℕ) → ArePaths files
        → seen_through files (dir_moved renames old new) ≡ carried_files (seen_through files renames) old new }
    // Files that keep the limits still keep them after the rename, if each gets a valid
    // path.
    ensures texts { (files : FileMap) (old new : List ℕ) → AreTexts files → AreBytes new
        → ((path : List ℕ) → IsSome (file_at files path) → lies_below path old ≡ true → IsPath (carried old new path)) → AreTexts (carried_files files old new) }
{}
