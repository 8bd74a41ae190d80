// Why a run can't begin.
ghost use Rattle.std.specs.Prelude.{◌≡◌};
ghost use Rattle.program_launch.specs.Refusals.{refusal_of};
ghost use Rattle.program_launch.specs.declared.refusals.NoLaunch.TheVariants.{OutOfMemory as NoMemory};

use one_space::NoFirstHeap;
use run_types::Full;
use std::alloc::AllocError;

/// Why a run can't begin: its first objects take more words than there are, or there is no memory.
#[derive(Clone, Copy)]
pub enum NoLaunch {
    Full(Full),
    OutOfMemory,
}

impl From<AllocError> for NoLaunch {
    ghost from_gives = { λ _ e. e ≡ NoMemory };

    fn from(_error: AllocError) -> NoLaunch {
        NoLaunch::OutOfMemory
    }
}

impl From<NoFirstHeap> for NoLaunch {
    ghost from_gives = { λ no_heap e. e ≡ refusal_of no_heap };

    fn from(error: NoFirstHeap) -> NoLaunch {
        match error {
            NoFirstHeap::Full(full) => NoLaunch::Full(full),
            NoFirstHeap::OutOfMemory => NoLaunch::OutOfMemory,
        }
    }
}
