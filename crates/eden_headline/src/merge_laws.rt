//! The merge of a history and a follower's notes, as the contract of a function that does
//! nothing.

ghost use Rattle.std.specs.Prelude.{◌≡◌, Some};
ghost use Rattle.eden_headline.specs.Headline.{AgreesAtHead, HasPlace, HasValues, IsCovered, IsTold};
ghost use Rattle.eden_headline.specs.Imports.{IsScheduleWithImports};
ghost use Rattle.eden_headline.specs.Merges.{OnMerges, ending_of, merged, opening_of};
ghost use Rattle.eden_logs.specs.Histories.{replay};

/// States that a history and a follower's notes merge into one schedule.
///
/// The history may be any legal one from any world, with which logs agree; the follower,
/// any for which these logs vouch. The schedule, whose changes may be imports, ends with
/// the world that the history makes and the follower's mirror. So what is true after every
/// schedule is true of that mirror against that world (`import_law`).
///
/// It is a statement about lists. The participants may have run in any number of threads
/// and machines, over any network.
pub fn merge_law()
    // Each step of the merge may happen at its place.
    ensures schedule { OnMerges (λ name world entries m notes. IsScheduleWithImports name (opening_of world m) (merged m entries notes)) }
    // It ends with the world that the history makes.
    ensures world { OnMerges (λ name world entries m notes. (ending_of name world m entries notes).world ≡ replay name world entries) }
    // It ends with the follower's mirror.
    ensures mirror { OnMerges (λ name world entries m notes. (ending_of name world m entries notes).mirrors m.id ≡ Some m) }
    // So each path that the mirror wants, and at which it and the working copy differ, is
    // among the changes since its place, or the place is refused. It is among them by its
    // name, or below a directory that files were moved from or to.
    ensures covered { OnMerges (λ name world entries m notes. IsCovered (replay name world entries) m) }
    // A poll since the place lists that path, or such a directory above it, or refuses
    // the place, or is refused as too large.
    ensures told { OnMerges (λ name world entries m notes. IsTold (replay name world entries) m) }
    // At the head the mirror holds what the working copy does at the paths that it wants,
    // and nothing else.
    ensures at_head { OnMerges (λ name world entries m notes. AgreesAtHead (replay name world entries) m) }
    // Its place is that of a row of the world, and in the present generation not ahead of
    // the head.
    ensures place { OnMerges (λ name world entries m notes. HasPlace (replay name world entries) m) }
    // Each value that it holds was in some row of its place's generation, at the place or
    // after it.
    ensures values { OnMerges (λ name world entries m notes. HasValues (replay name world entries) m) }
{}
