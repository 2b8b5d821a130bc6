//! Laws of renamed directories, as the contract of a function that does nothing.

ghost use Rattle.std.specs.Prelude.{◌≡◌, ℕ, List, None, Some, false, if◌then◌else◌, length, nat_lt, true};
ghost use Rattle.eden_ids.specs.declared.path.PathFault.TheVariants as broken;
ghost use Rattle.eden_ids.specs.Paths.{IsPath, components, lies_below, path_fault};
ghost use Rattle.eden_ids.specs.FileMaps.{FileMap, IsFileMap, file_at};
ghost use Rattle.eden_overlay.specs.Carried.{carried};
ghost use Rattle.eden_history.specs.DirRenames.{dir_renamed, rename_dir_fault};

/// States what a directory's rename does, and which paths become invalid.
pub fn dir_rename_law()
    // No two files clash after it, if none did before.
    ensures fits { (files : FileMap) (old new : List ℕ) → IsFileMap files → rename_dir_fault files old new ≡ None
        → IsFileMap (dir_renamed files old new) }
    // A path below neither directory keeps its file.
    ensures elsewhere { (files : FileMap) (old new path : List ℕ) → lies_below path old ≡ false → lies_below path new ≡ false
        → file_at (dir_renamed files old new) path ≡ file_at files path }
    // A moved path can be invalid only for its length or its depth.
    ensures broken { (old new path : List ℕ) → IsPath new → IsPath path → lies_below path old ≡ true
        → path_fault (carried old new path)
        ≡ (if nat_lt 1024 (length (carried old new path)) then Some broken.TooLong else
        if nat_lt 64 (length (components (carried old new path))) then Some broken.TooDeep else None) }
{}
