//! Laws of file maps and sets of paths, each as the contract of a function that does
//! nothing.

ghost use Rattle.std.specs.Prelude.{◌≡◌, ◌≢◌, ◌↔◌, ◌||◌, ℕ, List, None, IsTrue, if◌then◌else◌};
ghost use Rattle.std.specs.List.{list_any};
ghost use Rattle.eden_ids.specs.declared.content.Content.{Content};
ghost use Rattle.std.specs.Prelude.{Option};
ghost use Rattle.eden_ids.specs.FileMaps.{FileMap, PathSet, file_at, has, union, differ, tabulate, path_set, listing, same_path};

/// States where two file maps differ, and what a tabulated one holds.
pub fn file_map_law()
    // Two maps differ at a path exactly if one alone has a file there, or they have
    // different files.
    ensures differ { (f g : FileMap) (p : List ℕ) → IsTrue (has (differ f g) p) ↔ (file_at f p ≢ file_at g p) }
    // A map tabulated at some paths holds what the rule gives there, and no file
    // elsewhere.
    ensures tabulate { (ps : List (List ℕ)) (rule : List ℕ → Option Content) (p : List ℕ)
        → file_at (tabulate ps rule) p ≡ (if list_any (λ q. same_path p q) ps then rule p else None) }
    // Two maps that hold the same at each path are equal.
    ensures whole { (f g : FileMap) → ((p : List ℕ) → file_at f p ≡ file_at g p) → f ≡ g }
{}

/// States what a union holds, and that a listing determines its set.
pub fn path_set_law()
    ensures union { (s t : PathSet) (p : List ℕ) → has (union s t) p ≡ (has s p || has t p) }
    ensures listing { (s : PathSet) → path_set (listing s) ≡ s }
    ensures whole { (s t : PathSet) → ((p : List ℕ) → has s p ≡ has t p) → s ≡ t }
{}
