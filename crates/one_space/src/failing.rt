// Why there is no first heap.
ghost use Rattle.std.specs.Prelude.{◌≡◌};
ghost use Rattle.one_space.specs.declared.failing.NoFirstHeap.TheVariants.{Full as NoWords, OutOfMemory as NoMemory};

use run_types::Full;
use std::alloc::AllocError;

/// Why there is no first heap: the objects that it begins with take more words than there are, or
/// there is no memory for so many.
#[derive(Clone, Copy)]
pub enum NoFirstHeap {
    Full(Full),
    OutOfMemory,
}

impl From<AllocError> for NoFirstHeap {
    ghost from_gives = { λ _ e. e ≡ NoMemory };

    fn from(_error: AllocError) -> NoFirstHeap {
        NoFirstHeap::OutOfMemory
    }
}

impl From<Full> for NoFirstHeap {
    ghost from_gives = { λ full e. e ≡ NoWords full };

    fn from(full: Full) -> NoFirstHeap {
        NoFirstHeap::Full(full)
    }
}
