//! The rule of the table that holds a head word, and what its steps do to the seats.
use atomic_table::{Join, Play, Split, TableRule};

/// The word is at least what each seat has seen.
pub struct Rising;

impl TableRule<(), u64, ()> for Rising {
    ghost use Rattle.eden_shared.specs.internal.HeadSteps.{IsAbove};

    ghost holds = { λ _ state. IsAbove state };

    ghost first = { λ _. 0 };
}

/// A seat has seen what it loads.
pub struct Loading;

impl Play<(), u64> for Loading {
    ghost use Rattle.eden_shared.specs.internal.HeadSteps.{Loads};

    ghost then = { Loads };
}

/// A seat has seen what it raises.
pub struct Raising;

impl Play<(), u64> for Raising {
    ghost use Rattle.eden_shared.specs.internal.HeadSteps.{Raises};

    ghost then = { Raises };
}

/// Both seats have seen what the one has.
pub struct Forks;

impl Split<u64> for Forks {
    ghost left = { λ seen. seen };

    ghost right = { λ seen. seen };
}

/// The seat that is kept has seen what it had, and the spent one nothing.
pub struct Keeps;

impl Join<u64> for Keeps {
    ghost both = { λ seen _. seen };

    ghost spent = { 0 };
}
