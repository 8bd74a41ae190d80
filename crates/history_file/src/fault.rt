//! Why the bytes of a file are no history.

ghost use Rattle.std.specs.Prelude.{◌≡◌};
ghost use Rattle.history_file.specs.declared.fault.Stop.TheVariants.{OutOfMemory};

use std::alloc::{AllocError, AllocFailed};
use thiserror::Error;

/// Why a history file wasn't read.
#[derive(Clone, Copy, Debug, PartialEq, Eq, Error)]
pub enum HistoryFault {
    /// The first word, counted from 0, that has no continuation: it isn't one that may stand there, or it isn't whole.
    #[error("the history is bad from word {word} on")]
    Bad {
        /// Its number.
        word: u64,
    },
    /// No memory was left.
    #[error("out of memory")]
    OutOfMemory,
}

/// Why reading stopped: for want of memory, or at the word before which so many bytes are left.
#[derive(Clone, Copy)]
pub(crate) enum Stop {
    OutOfMemory,
    At(usize),
}

impl From<AllocError> for Stop {
    ghost from_gives = { λ _ e. e ≡ OutOfMemory };

    fn from(_e: AllocError) -> Stop {
        Stop::OutOfMemory
    }
}
