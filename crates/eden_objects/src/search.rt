//! A search for a file that is not passed over.

ghost use Rattle.std.specs.Prelude.{◌≡◌, ◌&&◌, not};
ghost use Rattle.std.specs.List.{list_any};
ghost use Rattle.eden_ids.specs.Paths.{lies_below};
ghost use Rattle.eden_objects.specs.Closed.{HasTree};
ghost use Rattle.eden_objects.specs.Commits.{tree_rows};
ghost use Rattle.eden_objects.specs.Passing.{told};

use crate::passing::Passes;
use crate::store::Store;
use crate::trail::Trail;
use crate::walk::Visit;
use eden_ids::{Id, Kind, Naming, Path};

/// A walk that ends at the first file.
#[derive(Clone, Copy)]
struct Search;

/// There is a file.
#[derive(Clone, Copy)]
struct Found;

impl Visit for Search {
    ghost use Rattle.eden_objects.specs.internal.Visits.{IsSearch};
    ghost use Rattle.eden_objects.specs.internal.VisitLaws.{search_laws};

    type Stop = Found;

    ghost allows = { λ path. Unit {0} };

    ghost gives = { λ old rows result new. IsSearch rows result };

    ghost laws = { search_laws };

    fn enters(&self, _directory: &[u8]) -> bool {
        true
    }

    fn file(&mut self, _path: &[u8], _kind: Kind, _id: Id) -> Result<(), Found> {
        Err(Found)
    }
}

impl<N: Naming + Drop> Store<N> {
    /// Returns true if a file below a path is not passed over.
    ///
    /// `passed` is asked with each file's path as if the directory were at `seen`.
    pub(crate) fn has_below_but<S: Passes>(
        &self,
        tree: Id,
        top: &[u8],
        seen: &Path,
        passed: &S,
    ) -> bool
        requires { HasTree self.now tree }
        ensures { result ≡ list_any (λ row. lies_below row.0 top.now && not (S.passes passed.now (told top.now seen.now row.0))) (tree_rows self.now tree) }
    {
        self.closed_law();
        let Some(directory) = self.directory_below(tree, top) else {
            return false;
        };
        let mut trail = Trail::below(seen);
        self.walk(directory, passed, &mut trail, &mut Search)
            .is_err()
    }
}
