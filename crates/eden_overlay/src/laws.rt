//! What the definition of an overlay promises, as the contract of a function with no work to do.

ghost use Rattle.std.specs.Prelude.{◌≡◌, ℕ, List, None, Some};
ghost use Rattle.std.specs.FinMap as fin;
ghost use Rattle.eden_ids.specs.declared.content.Content.{Content};
ghost use Rattle.eden_ids.specs.FileMaps.{FileMap, file_at};
ghost use Rattle.eden_overlay.specs.Layers.{Layer, over, over_rule};

/// States what is seen where an overlay lies over a file map.
pub fn over_law()
    // At each path of the overlay what the overlay says, and at each other path what lies below.
    ensures at { (base : FileMap) (layer : Layer) (p : List ℕ) → file_at (over base layer) p ≡ over_rule base layer p }
    // To set a path in the overlay is to set it in the files that are seen.
    ensures insert { (base : FileMap) (layer : Layer) (p : List ℕ) (file : Content)
        → over base (fin.insert layer p (Some file)) ≡ fin.insert (over base layer) p file }
    ensures remove { (base : FileMap) (layer : Layer) (p : List ℕ)
        → over base (fin.insert layer p None) ≡ fin.remove (over base layer) p }
{}
