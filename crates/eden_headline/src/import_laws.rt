//! What holds of every mirror if changes are imports too, as the contract of a function
//! that does nothing.

ghost use Rattle.eden_headline.specs.Headline.{AgreeTogether, AgreesAtHead, HasPlace, HasValues, IsCovered, IsTold, OfMirrors, OfPairs};
ghost use Rattle.eden_headline.specs.Imports.{OnFreshRunsWithImports};

/// States what holds of every mirror if changes are imports too.
///
/// In a schedule with imports, a change may be an import of objects. The store puts all
/// of them or, if one is invalid or an id is taken, none. In both cases this is a step of
/// a schedule by which a store grows. So the clauses are those of `schedule_law`.
pub fn import_law()
    ensures covered { OnFreshRunsWithImports (OfMirrors IsCovered) }
    ensures told { OnFreshRunsWithImports (OfMirrors IsTold) }
    ensures at_head { OnFreshRunsWithImports (OfMirrors AgreesAtHead) }
    ensures together { OnFreshRunsWithImports (OfPairs AgreeTogether) }
    ensures places { OnFreshRunsWithImports (OfMirrors HasPlace) }
    ensures values { OnFreshRunsWithImports (OfMirrors HasValues) }
{}
