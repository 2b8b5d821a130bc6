//! Why a message cannot be encoded, and why bytes cannot be decoded.

use bytes::TryGetError;
use eden_ids::NoMemory;
use std::alloc::{AllocError, AllocFailed};
use thiserror::Error;

/// Why a message cannot be encoded.
#[derive(Clone, Copy, Debug, PartialEq, Eq, Error)]
pub enum EncodeFault {
    /// The body would have more than 16,777,216 bytes.
    ///
    /// In a change also if the bytes of a file or of an object are more than 8,388,608.
    #[error("TooLarge")]
    TooLarge,
    /// An allocation failed.
    #[error("NoMemory")]
    NoMemory,
}

impl From<AllocError> for EncodeFault {
    ghost use Rattle.std.specs.Prelude.{◌≡◌};
    ghost use Rattle.eden_wire.specs.declared.fault.EncodeFault.TheVariants.{NoMemory};

    ghost from_gives = { λ _ fault. fault ≡ NoMemory };

    fn from(_fault: AllocError) -> EncodeFault {
        EncodeFault::NoMemory
    }
}

/// Why a body is not a message.
///
/// A body that is too long is reported as such. Any other is read field by field, and the
/// first fault is reported.
#[derive(Clone, Copy, Debug, PartialEq, Eq, Error)]
pub enum DecodeFault {
    /// The body ends inside a field.
    #[error("CutShort")]
    CutShort,
    /// The body has more than 16,777,216 bytes.
    #[error("TooLarge")]
    TooLarge,
    /// The tag is not that of a message that is expected here.
    #[error("BadTag")]
    BadTag,
    /// A field has an invalid value.
    #[error("BadField")]
    BadField,
    /// There are bytes after the last field.
    #[error("Trailing")]
    Trailing,
    /// The body is of another version of the format.
    #[error("Version")]
    Version,
    /// An allocation failed.
    #[error("NoMemory")]
    NoMemory,
}

impl From<TryGetError> for DecodeFault {
    ghost use Rattle.std.specs.Prelude.{◌≡◌};
    ghost use Rattle.eden_wire.specs.declared.fault.DecodeFault.TheVariants.{CutShort};

    ghost from_gives = { λ _ fault. fault ≡ CutShort };

    fn from(_fault: TryGetError) -> DecodeFault {
        DecodeFault::CutShort
    }
}

impl From<NoMemory> for DecodeFault {
    ghost use Rattle.std.specs.Prelude.{◌≡◌};
    ghost use Rattle.eden_wire.specs.declared.fault.DecodeFault.TheVariants as fault;

    ghost from_gives = { λ _ f. f ≡ fault.NoMemory };

    fn from(_fault: NoMemory) -> DecodeFault {
        DecodeFault::NoMemory
    }
}

impl From<AllocError> for DecodeFault {
    ghost use Rattle.std.specs.Prelude.{◌≡◌};
    ghost use Rattle.eden_wire.specs.declared.fault.DecodeFault.TheVariants.{NoMemory};

    ghost from_gives = { λ _ fault. fault ≡ NoMemory };

    fn from(_fault: AllocError) -> DecodeFault {
        DecodeFault::NoMemory
    }
}

impl<T: Drop> From<AllocFailed<T>> for DecodeFault {
    ghost use Rattle.std.specs.Prelude.{◌≡◌};
    ghost use Rattle.eden_wire.specs.declared.fault.DecodeFault.TheVariants.{NoMemory};

    ghost from_gives = { λ _ fault. fault ≡ NoMemory };

    fn from(_fault: AllocFailed<T>) -> DecodeFault {
        DecodeFault::NoMemory
    }
}
