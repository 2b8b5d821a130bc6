//! Laws of differences, as the contract of a function that does nothing.

ghost use Rattle.eden_treediff.specs.Laws.{MergesAreDifferences, MergesRise, MergesTell, SameMerge};

/// States what the merge of two lists of files is.
#[tactic(auto, using(crate::proofs::Exact::exact_law, crate::proofs::Ascending::ascending_law, crate::proofs::Exact::same_law, crate::proofs::Listed::listed_law))]
pub fn merge_law()
    // It has exactly the paths at which the two lists have different files.
    ensures tells { MergesTell }
    // It ascends in byte order.
    ensures rises { MergesRise }
    // A list does not differ from itself.
    ensures same { SameMerge }
    // The merge of the files of two commits is the difference of their file maps.
    ensures differences { MergesAreDifferences }
{}
