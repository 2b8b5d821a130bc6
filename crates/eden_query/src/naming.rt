//! Namings that a service can make from their type.

use eden_ids::{GitNaming, Naming};

/// A naming that is one value, so that its type is enough to make ids.
pub trait UnitNaming: Naming {
    /// Returns the naming. Does not allocate.
    fn unit() -> Self;
}

impl UnitNaming for GitNaming {
    fn unit() -> GitNaming {
        GitNaming
    }
}
