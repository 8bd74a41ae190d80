// How a run is over by a fault.
ghost use Rattle.std.specs.Prelude.{◌≡◌};
ghost use Rattle.run_types.specs.Faults.{run_fault};

use crate::{At, Waits};
use ap_base::{Place, ThreadNo};

/// What was used up.
#[derive(Clone, Copy, Debug, PartialEq, Eq)]
pub enum Which {
    VolatileWords,
    ImageLines,
    LogEntries,
    Threads,
    FrameSlots,
    Acts,
    Monitors,
    DirectoryWords,
    Roots,
    Files,
    FileBytes,
}

/// More was needed than was left.
#[derive(Clone, Copy, Debug, PartialEq, Eq)]
pub struct Full {
    pub which: Which,
    pub need: u64,
    pub left: u64,
}

/// Why a name couldn't be resolved or its member not used (JVMS 5.4.3), or that an initialiser threw (JVMS 5.5).
#[derive(Clone, Copy, Debug, PartialEq, Eq)]
pub enum LinkKind {
    MissingClass,
    MissingField,
    MissingMethod,
    StaticMismatch,
    NoCode,
    InitFailed,
}

/// What a step, a request or an event meets that ends its run. It stands for a fault of the run, which is told once, as
/// the run ends.
#[derive(Clone, Copy, Debug, PartialEq, Eq)]
pub enum StepFault {
    /// An instruction found an operand of a wrong kind, or left its stack, its locals or its code.
    BadCode(At),
    /// A store to a place that another thread's open region has guarded.
    RegionRace {
        thread: ThreadNo,
        other: ThreadNo,
        place: Place,
    },
    Full(Full),
    SinkFault,
    ImageFault,
    /// A pool entry of a class names what can't be used.
    LinkFault {
        kind: LinkKind,
        class: u32,
        index: u32,
    },
}

impl StepFault {
    /// The fault of the run that meets it.
    pub fn of_run(self) -> RunFault
        ensures { result ≡ run_fault self }
    {
        match self {
            StepFault::BadCode(at) => RunFault::BadCode(at),
            StepFault::RegionRace {
                thread,
                other,
                place,
            } => RunFault::RegionRace {
                thread,
                other,
                place,
            },
            StepFault::Full(full) => RunFault::Full(full),
            StepFault::SinkFault => RunFault::SinkFault,
            StepFault::ImageFault => RunFault::ImageFault,
            StepFault::LinkFault { kind, class, index } => RunFault::LinkFault {
                kind,
                class,
                index,
            },
        }
    }
}

/// What ends all threads of a run at once.
#[derive(Clone, Copy, Debug, PartialEq, Eq)]
pub enum RunFault {
    /// An instruction found an operand of a wrong kind, or left its stack, its locals or its code.
    BadCode(At),
    /// A store to a place that another thread's open region has guarded.
    RegionRace {
        thread: ThreadNo,
        other: ThreadNo,
        place: Place,
    },
    Full(Full),
    SinkFault,
    ImageFault,
    /// Each live thread waits, and for what it says.
    Stuck(Waits),
    /// A pool entry of a class names what can't be used.
    LinkFault {
        kind: LinkKind,
        class: u32,
        index: u32,
    },
}
