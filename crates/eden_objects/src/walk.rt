//! The walk over the files of a tree.

ghost use Rattle.std.specs.Prelude.{◌≡◌, ◌∷◌, ◌+◌, ◌≤◌, [], false, length, OnOk};
ghost use Rattle.eden_objects.specs.Closed.{HasTree};
ghost use Rattle.eden_objects.specs.Commits.{tree_rows};
ghost use Rattle.eden_objects.specs.Trees.{tree_reach};
ghost use Rattle.eden_objects.specs.internal.Passed.{AreAllowedBut, rows_but};

use crate::passing::Passes;
use crate::store::Store;
use crate::trail::Trail;
use eden_ids::{Id, Kind, Naming};

/// What a walk does with the files that it comes to.
pub(crate) trait Visit {
    ghost use Rattle.std.specs.Prelude.{◌≡◌, ◌∷◌, [], ℕ, List, Result, Ok, false, true};
    ghost use Rattle.std.specs.List.{AllByRecursion};
    ghost use Rattle.eden_ids.specs.Paths.{lies_below};
    ghost use Rattle.eden_objects.specs.Commits.{Row};
    ghost use Rattle.eden_objects.specs.internal.Visits.{IsVisit};

    /// Why a walk ends before the last file.
    type Stop;

    /// The paths that may be visited.
    ghost allows: { List ℕ → Type 0 };

    /// What a visit of these files returns and leaves.
    ghost gives: { Self → List Row → Result (Unit {0}) Self.Stop → Self → Type 0 };

    /// Returns false only if no file below a directory need be visited.
    fn enters(&self, directory: &[u8]) -> bool
        ensures { result ≡ false → (rows : List Row) → AllByRecursion (λ row. lies_below row.0 directory.now ≡ true) rows → gives self.now rows (Ok tt) self.now };

    /// Visits a file.
    fn file(&mut self, path: &[u8], kind: Kind, id: Id) -> Result<(), Self::Stop>
        requires { allows path.now }
        ensures { gives self.old ((path.now, kind, id) ∷ []) result self.new };

    ghost laws: { IsVisit gives };
}

/// Visits a file, if it is not passed over.
fn visit_file<S: Passes, V: Visit>(
    passed: &S,
    path: &[u8],
    kind: Kind,
    id: Id,
    visit: &mut V,
) -> Result<(), V::Stop>
    requires { S.passes passed.now path.now ≡ false → V.allows path.now }
    ensures { V.gives visit.old (rows_but (S.passes passed.now) [] ((path.now, kind, id) ∷ [])) result visit.new }
{
    if passed.passes_file(path) {
        Ok(())
    } else {
        visit.file(path, kind, id)
    }
}

impl<N: Naming + Drop> Store<N> {
    /// Visits the files of a tree that are not passed over, in byte order.
    ///
    /// A directory is not read if it has no files, if all of them are passed over, or if
    /// none need be visited.
    pub(crate) fn walk<S: Passes, V: Visit>(
        &self,
        tree: Id,
        passed: &S,
        trail: &mut Trail,
        visit: &mut V,
    ) -> Result<(), V::Stop>
        requires tree { HasTree self.now tree }
        requires room { length trail.old + tree_reach self.now tree ≤ 2049 }
        requires paths { AreAllowedBut V.allows (S.passes passed.now) trail.old (tree_rows self.now tree) }
        ensures visit { V.gives visit.old (rows_but (S.passes passed.now) trail.old (tree_rows self.now tree)) result visit.new }
        ensures trail { OnOk result (trail.new ≡ trail.old) }
    {
        self.closed_law();
        let (rows, outline) = self.read_tree(tree);
        if outline.files == 0 || passed.passes_below(trail.as_bytes(), outline.size) {
            return Ok(());
        }
        'entries: for entry in rows.iter() {
            let length = trail.add(entry.name);
            if let Some(kind) = entry.kind {
                visit_file(passed, trail.as_bytes(), kind, entry.id, visit)?;
            } else if visit.enters(trail.as_bytes()) {
                trail.add(b"/".as_slice());
                self.walk(entry.id, passed, trail, visit)?;
            }
            trail.leave(length);
        }
        Ok(())
    }
}
