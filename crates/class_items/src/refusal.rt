//! Why bytes are no item.

ghost use Rattle.std.specs.Prelude.{◌≡◌};
ghost use Rattle.class_items.specs.declared.refusal.ItemRefusal.TheVariants.{OutOfMemory};
ghost use Rattle.class_items.specs.Items.{of_cut};

use parsing::Cut;
use std::alloc::{AllocError, AllocFailed};
use thiserror::Error;

/// The first fault of an item. Offsets count from the file's start.
#[derive(Clone, Copy, Debug, Error)]
pub enum ItemRefusal {
    /// The file ends within the field that begins at this offset.
    #[error("the field at offset {0} is cut off")]
    Truncated(usize),
    /// The index at an offset names no entry of the needed tag.
    #[error("the index {index} at offset {offset} names no entry of its kind")]
    BadIndex {
        /// Where the index stands.
        offset: usize,
        /// The index.
        index: u16,
    },
    /// No memory was left.
    #[error("out of memory")]
    OutOfMemory,
}

impl From<Cut> for ItemRefusal {
    ghost from_gives = { λ cut e. e ≡ of_cut cut };

    fn from(cut: Cut) -> ItemRefusal {
        ItemRefusal::Truncated(cut.at)
    }
}

impl From<AllocError> for ItemRefusal {
    ghost from_gives = { λ _ e. e ≡ OutOfMemory };

    fn from(_e: AllocError) -> ItemRefusal {
        ItemRefusal::OutOfMemory
    }
}

impl<T: Drop> From<AllocFailed<T>> for ItemRefusal {
    ghost from_gives = { λ _ e. e ≡ OutOfMemory };

    fn from(_e: AllocFailed<T>) -> ItemRefusal {
        ItemRefusal::OutOfMemory
    }
}
