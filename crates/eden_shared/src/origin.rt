//! What a lock of which nothing is logged begins with.

ghost use Rattle.eden_history.specs.Worlds.{WorldState};

use std::marker::Brand;
use std::sync::ledger::Ledger;

/// The ledger of a lock's changes, and the worlds that its server was handed in with.
///
/// Both are known to proofs alone. A function over `L: Origin` makes the lock, and is called with
/// `Brand`: that call says which worlds are meant.
pub trait Origin: Ledger {
    // The server stood for each of these worlds when it was handed in.
    ghost opens: { WorldState → Type 0 };
}

// Where nothing is said, no world is known.
impl Origin for Brand {
    ghost opens = { λ _. ⊥ };
}
