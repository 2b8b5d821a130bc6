//! Laws of ranges, each as the contract of a function that does nothing.

ghost use Rattle.eden_ranges.specs.Laws.{ChangesAreEnds, CommitsAreComparable, HeadsAreNow, RangesAreSince, RangesAreTheWorlds, RefusalsAreTheWorlds};

/// States what a journal says of the world that it records.
pub fn range_law()
    // The head's position is the world's present one.
    ensures head { HeadsAreNow }
    // A position is refused exactly if the world refuses it, with the same cause and
    // number.
    ensures refused { RefusalsAreTheWorlds }
    // The range from any other position is what the world's events since did: the paths
    // that changes of files name, with whether a file was there before the first and is
    // there after the last, the unclean paths, and the roots.
    ensures since { RangesAreSince }
    // The same range, expanded over the world's store, has exactly the paths that the
    // world's events since name. They ascend, each with the mark that the world gives it.
    ensures marked { RangesAreTheWorlds }
{}

/// States that a range of commits can be expanded.
#[tactic(auto, using(crate::proofs::Columns::commits_are_comparable))]
pub fn commits_law()
    ensures { CommitsAreComparable }
{}

/// States what a range says of a file at a path.
///
/// It says whether a file was there before the oldest change of it, and is there after
/// the newest.
#[tactic(auto, using(crate::proofs::Ends::changes_are_ends))]
pub fn changes_law()
    ensures { ChangesAreEnds }
{}
