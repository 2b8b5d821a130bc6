//! What holds of every reply, as the contract of a function with no work to do.

ghost use Rattle.eden_query.specs.Raws.{SaysOver, StaysAnswerable, TellsOver};

/// Promises that more objects change no reply.
///
/// A reply is made after its request was held. By then the store may have more objects.
#[tactic(auto, using(crate::proofs::TellingOver::tells_over, crate::proofs::TellingOver::says_over, crate::proofs::TellingOver::stays_answerable))]
pub fn told_over_law()
    // The reply over more objects is the reply over the objects of the hold.
    ensures told { TellsOver }
    // So is what else is said of it.
    ensures said { SaysOver }
    // It can be made over them too.
    ensures answerable { StaysAnswerable }
{}
