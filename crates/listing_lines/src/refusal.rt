//! Why lines are bad.

ghost use Rattle.std.specs.Prelude.{◌≡◌};
ghost use Rattle.listing_lines.specs.declared.refusal.LineRefusal.TheVariants.{OutOfMemory};

use std::alloc::{AllocError, AllocFailed};
use thiserror::Error;

/// Why a line of a listing is bad.
#[derive(Clone, Copy, Debug, PartialEq, Eq, Error)]
pub enum ListingFault {
    /// The line isn't of a form that may stand here, or the class file format refuses what it says and no other kind says why.
    #[error("Syntax")]
    Syntax = 1,
    /// It begins with a word that no line begins with, or names no element type.
    #[error("UnknownWord")]
    UnknownWord = 2,
    /// A word is no decimal number, or isn't in the range of its operand.
    #[error("BadNumber")]
    BadNumber = 3,
    /// The method has no such label.
    #[error("UnknownLabel")]
    UnknownLabel = 4,
    /// The method has the label already.
    #[error("DoubledLabel")]
    DoubledLabel = 5,
    /// The label is further away than two bytes say.
    #[error("FarJump")]
    FarJump = 6,
    /// A word is no descriptor of a field or of a method, as its place needs.
    #[error("BadDescriptor")]
    BadDescriptor = 7,
    /// A text in quotes doesn't end with the line, or a backslash stands before another byte than `"`, `\` and `n`.
    #[error("BadText")]
    BadText = 8,
    /// A count or a length of the class file format is passed.
    #[error("TooLarge")]
    TooLarge = 9,
    /// The listing has no class of the name that is asked for.
    #[error("NoClass")]
    NoClass = 10,
}

/// Why something of a listing isn't read or written.
#[derive(Clone, Copy, Debug, PartialEq, Eq, Error)]
pub enum LineRefusal {
    /// It is bad.
    #[error("{0}")]
    Fault(ListingFault),
    /// No memory was left.
    #[error("out of memory")]
    OutOfMemory,
}

impl From<AllocError> for LineRefusal {
    ghost from_gives = { λ _ e. e ≡ OutOfMemory };

    fn from(_e: AllocError) -> LineRefusal {
        LineRefusal::OutOfMemory
    }
}

impl<T: Drop> From<AllocFailed<T>> for LineRefusal {
    ghost from_gives = { λ _ e. e ≡ OutOfMemory };

    fn from(_e: AllocFailed<T>) -> LineRefusal {
        LineRefusal::OutOfMemory
    }
}
