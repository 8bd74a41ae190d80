//! Why a class set isn't decoded.

ghost use Rattle.std.specs.Prelude.{◌≡◌};
ghost use Rattle.class_code.specs.declared.refusal.DecodeRefusal.TheVariants.{OutOfMemory as NoMemory};

use std::alloc::{AllocError, AllocFailed};
use thiserror::Error;

/// Why a class set isn't decoded.
#[derive(Drop, Debug, Error)]
pub enum DecodeRefusal {
    /// There are 2^32 instructions or more.
    #[error("the code has too many instructions")]
    TooLarge,
    #[error("no memory is left")]
    OutOfMemory,
}

impl From<AllocError> for DecodeRefusal {
    ghost from_gives = { λ _ e. e ≡ NoMemory };

    fn from(_: AllocError) -> Self {
        DecodeRefusal::OutOfMemory
    }
}

impl<T: Drop> From<AllocFailed<T>> for DecodeRefusal {
    ghost from_gives = { λ _ e. e ≡ NoMemory };

    fn from(_: AllocFailed<T>) -> Self {
        DecodeRefusal::OutOfMemory
    }
}
