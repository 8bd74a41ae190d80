//! Why a text is no listing.

ghost use Rattle.std.specs.Prelude.{◌≡◌};
ghost use Rattle.listing.specs.declared.error.ListingError.TheVariants.{OutOfMemory};
ghost use Rattle.listing.specs.Structure.{at, next_number};

use listing_lines::{LineRefusal, ListingFault};
use std::alloc::{AllocError, AllocFailed};
use thiserror::Error;

/// Why a text is no listing.
#[derive(Clone, Copy, Debug, PartialEq, Eq, Error)]
pub enum ListingError {
    /// The first bad line, from 1, and why. Lines past 4,294,967,295 have this number.
    #[error("line {line}: {kind}")]
    Fault { line: u32, kind: ListingFault },
    /// No memory was left.
    #[error("out of memory")]
    OutOfMemory,
}

impl From<AllocError> for ListingError {
    ghost from_gives = { λ _ e. e ≡ OutOfMemory };

    fn from(_e: AllocError) -> ListingError {
        ListingError::OutOfMemory
    }
}

impl<T: Drop> From<AllocFailed<T>> for ListingError {
    ghost from_gives = { λ _ e. e ≡ OutOfMemory };

    fn from(_e: AllocFailed<T>) -> ListingError {
        ListingError::OutOfMemory
    }
}

/// A refusal at a line.
pub(crate) fn at(line: u32, refusal: LineRefusal) -> ListingError
    ensures { result ≡ at line refusal }
{
    match refusal {
        LineRefusal::Fault(kind) => ListingError::Fault { line, kind },
        LineRefusal::OutOfMemory => ListingError::OutOfMemory,
    }
}

/// The number of the next line.
pub(crate) fn next_number(number: u32) -> u32
    ensures { result ≡ next_number number }
{
    number.saturating_add(1)
}
