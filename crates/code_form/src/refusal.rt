//! Why bytes are no code.

ghost use Rattle.std.specs.Prelude.{◌≡◌};
ghost use Rattle.code_form.specs.declared.refusal.CodeRefusal.TheVariants.{OutOfMemory};

use std::alloc::{AllocError, AllocFailed};
use thiserror::Error;

/// The first fault of a code. A pc is that of the instruction whose fault it is.
#[derive(Clone, Copy, Debug, PartialEq, Eq, Error)]
pub enum CodeRefusal {
    /// No instruction has this opcode, or no array of `newarray` this type.
    #[error("bad opcode at {0}")]
    BadOpcode(u32),
    /// The instruction, whose opcode is given, isn't one of those that are read here.
    #[error("opcode {1} at {0} is not in the profile")]
    NotInProfile(u32, u8),
    /// A target isn't where an instruction begins, or a switch has a count below 0.
    #[error("bad target at {0}")]
    BadTarget(u32),
    /// The instruction isn't whole.
    #[error("truncated at {0}")]
    Truncated(u32),
    #[error("out of memory")]
    OutOfMemory,
}

impl From<AllocError> for CodeRefusal {
    ghost from_gives = { λ _ e. e ≡ OutOfMemory };

    fn from(_e: AllocError) -> CodeRefusal {
        CodeRefusal::OutOfMemory
    }
}

impl<T: Drop> From<AllocFailed<T>> for CodeRefusal {
    ghost from_gives = { λ _ e. e ≡ OutOfMemory };

    fn from(_e: AllocFailed<T>) -> CodeRefusal {
        CodeRefusal::OutOfMemory
    }
}
