//! What the definitions of working copies promise, each as the contract of a function with no work
//! to do.

ghost use Rattle.std.specs.Prelude.{◌≡◌, ℕ, T, false, List, is_some};
ghost use Rattle.std.specs.List.{AllByRecursion};
ghost use Rattle.std.specs.FinMap.{is_sorted};
ghost use Rattle.eden_ids.specs.FileMaps.{file_at, has, listing, paths};
ghost use Rattle.eden_objects.specs.Objects.{Held};
ghost use Rattle.eden_objects.specs.Commits.{commit_map};
ghost use Rattle.eden_workcopy.specs.declared.work.WorkCopy.{WorkCopy};
ghost use Rattle.eden_workcopy.specs.Meanings.{base_of, means, touched_of, touched_set, FitsIn};
ghost use Rattle.eden_overlay.specs.Layers.{by_bytes, marked};
ghost use Rattle.eden_overlay.specs.Listings.{shown_over};

/// States that a working copy means the same over two stores with the same root's files.
#[tactic(auto, using(crate::proofs::Works::means_elsewhere))]
pub fn elsewhere_law()
    ensures means { (held other : List Held) (work : WorkCopy) → commit_map held work.root ≡ commit_map other work.root
        → means held work ≡ means other work }
    ensures fits { (held other : List Held) (work : WorkCopy) → commit_map held work.root ≡ commit_map other work.root
        → FitsIn held work → FitsIn other work }
{}

/// States what the touched paths of a working copy say of it.
pub fn touched_law()
    // They are in byte order, each once.
    ensures listed { (work : WorkCopy) → marked (touched_of work) ≡ listing (touched_set work) }
    ensures sorted { (work : WorkCopy) → T (is_sorted by_bytes (touched_of work)) }
    // Each says whether a file is there.
    ensures present { (held : List Held) (work : WorkCopy) → AllByRecursion (λ e. is_some (file_at (means held work) e.0) ≡ e.1) (touched_of work) }
    // At every other path the working copy holds what its root's commit holds, where renamed
    // directories show it.
    ensures elsewhere { (held : List Held) (work : WorkCopy) (p : List ℕ) → has (touched_set work) p ≡ false
        → file_at (means held work) p ≡ file_at (base_of held work) p }
    // Laid over these files they show the paths of the files that the working copy holds.
    ensures shown { (held : List Held) (work : WorkCopy) → listing (shown_over (base_of held work) (touched_of work)) ≡ paths (means held work) }
{}
