//! A property of the format, as the contract of a function that does nothing.
ghost use Rattle.eden_batch.specs.BatchLaws.{IsPrefixFree};

/// Says that no object's text is the beginning of another's.
///
/// So there is one way to read a stream as objects.
#[tactic(auto, using(crate::proofs::Headers::prefix_free))]
pub fn objects_law()
    ensures { IsPrefixFree }
{}
