//! Touched paths in byte order, one after another: an overlay's, or those of a list.

ghost use Rattle.std.specs.Prelude.{◌≡◌};

use eden_ids::Path;

/// Touched paths in byte order, each with whether a file is there, taken one after another.
pub(crate) trait Marks {
    ghost use Rattle.std.specs.Prelude.{List, drop, slice_get};
    ghost use Rattle.eden_overlay.specs.Layers.{Mark};
    ghost use Rattle.eden_overlay.specs.internal.Woven.{pointed};

    /// Those that are left.
    ghost left: { Self → List Mark };

    /// Returns the first of them.
    fn first(&self) -> Option<(&Path, bool)>
        ensures { pointed result ≡ slice_get (left self.now) 0 };

    /// Passes the first of them.
    fn pass(&mut self)
        ensures { left self.new ≡ drop 1 (left self.old) };
}

/// The touched paths of a list.
#[derive(Drop)]
pub(crate) struct Listed<'a> {
    pub(crate) left: &'a [(Path, bool)],
}

impl Marks for Listed<'_> {
    ghost left = { λ listed. listed.left.now };

    #[tactic(auto, using(crate::proofs::Marked::first_listed, crate::proofs::Marked::none_listed))]
    fn first(&self) -> Option<(&Path, bool)> {
        match self.left.split_first() {
            Some((entry, _)) => Some((&entry.0, entry.1)),
            None => None,
        }
    }

    #[tactic(auto, using(crate::proofs::Marked::behind_listed, crate::proofs::Marked::behind_nothing))]
    fn pass(&mut self) {
        if let Some((_, later)) = self.left.split_first() {
            self.left = later;
        }
    }
}
