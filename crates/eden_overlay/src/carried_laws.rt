//! Laws of renamed directories, as the contract of a function that does nothing.

ghost use Rattle.std.specs.Prelude.{◌≡◌, ℕ, List, None, false, true};
ghost use Rattle.eden_ids.specs.Paths.{lies_below};
ghost use Rattle.eden_ids.specs.FileMaps.{FileMap, IsFileMap, file_at, has_file_above};
ghost use Rattle.eden_overlay.specs.Carried.{carried, carried_files, carried_rule};

/// States what the rename of a directory does to the files, and that they stay a file map.
pub fn carried_law()
    // At every path the files after it are those of the rule.
    ensures files { (files : FileMap) (old new path : List ℕ) → file_at (carried_files files old new) path ≡ carried_rule files old new path }
    // Each file below the old path is at the same place below the new one.
    ensures arrives { (files : FileMap) (old new path : List ℕ) → lies_below path old ≡ true
        → file_at (carried_files files old new) (carried old new path) ≡ file_at files path }
    // A path below neither keeps its file.
    ensures elsewhere { (files : FileMap) (old new path : List ℕ) → lies_below path old ≡ false → lies_below path new ≡ false
        → file_at (carried_files files old new) path ≡ file_at files path }
    // No two files clash after it, if none did before and there was no file at the new
    // path or above it.
    ensures fits { (files : FileMap) (old new : List ℕ) → IsFileMap files → file_at files new ≡ None → has_file_above files new ≡ false
        → IsFileMap (carried_files files old new) }
{}
