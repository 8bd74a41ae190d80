//! Why the bytes of a file are no constant pool.

ghost use Rattle.std.specs.Prelude.{◌≡◌};
ghost use Rattle.const_pool.specs.declared.refusal.PoolRefusal.TheVariants.{OutOfMemory};
ghost use Rattle.const_pool.specs.declared.refusal.PushRefusal.TheVariants as push;
ghost use Rattle.const_pool.specs.Reading.{of_cut};

use parsing::Cut;
use std::alloc::{AllocError, AllocFailed};
use thiserror::Error;

/// The first fault of a file's constant pool. Offsets count from the file's start, indices are those of
/// the pool's entries.
#[derive(Clone, Copy, Debug, PartialEq, Eq, Error)]
pub enum PoolRefusal {
    /// The file ends within the field that begins at this offset.
    #[error("the field at offset {0} is cut off")]
    Truncated(usize),
    /// The byte at this offset is the tag of no kind of entry (JVMS 4.4, table 4.4-A).
    #[error("the byte at offset {0} is no tag of a constant")]
    BadTag(usize),
    /// The entry needs an entry of a certain tag at an index where there is none.
    #[error("entry {entry} needs an entry at {index} that is not there")]
    BadIndex {
        /// The entry that names the index.
        entry: u16,
        /// The index that is named.
        index: u16,
    },
    /// The character that begins at this offset is not modified UTF-8 (JVMS 4.4.7).
    #[error("the character at offset {0} is not modified UTF-8")]
    BadUtf8(usize),
    /// No memory was left.
    #[error("out of memory")]
    OutOfMemory,
}

impl From<Cut> for PoolRefusal {
    ghost from_gives = { λ cut e. e ≡ of_cut cut };

    fn from(cut: Cut) -> PoolRefusal {
        PoolRefusal::Truncated(cut.at)
    }
}

impl From<AllocError> for PoolRefusal {
    ghost from_gives = { λ _ e. e ≡ OutOfMemory };

    fn from(_e: AllocError) -> PoolRefusal {
        PoolRefusal::OutOfMemory
    }
}

impl<T: Drop> From<AllocFailed<T>> for PoolRefusal {
    ghost from_gives = { λ _ e. e ≡ OutOfMemory };

    fn from(_e: AllocFailed<T>) -> PoolRefusal {
        PoolRefusal::OutOfMemory
    }
}

/// Why an entry was not added to a pool.
#[derive(Clone, Copy, Debug, PartialEq, Eq, Error)]
pub enum PushRefusal {
    /// The pool would have more than 65,535 slots.
    #[error("the pool is full")]
    Full,
    /// No memory was left.
    #[error("out of memory")]
    OutOfMemory,
}

impl From<AllocError> for PushRefusal {
    ghost from_gives = { λ _ e. e ≡ push.OutOfMemory };

    fn from(_e: AllocError) -> PushRefusal {
        PushRefusal::OutOfMemory
    }
}
