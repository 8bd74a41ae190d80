//! What ends a turn without an operand of the heap.

ghost use Rattle.std.specs.Prelude.{◌≡◌};
ghost use Rattle.frame_thread.specs.Views.{fault_of, request_said};

use natives::Request;
use run_types::{At, Full, Key, LinkKind, StepFault, Which};

/// The faults with which frames end a run.
#[derive(Clone, Copy)]
pub enum Fault {
    BadCode(At),
    Unlinked {
        kind: LinkKind,
        class: u32,
        index: u32,
    },
    /// Fewer frame slots are left than are needed.
    Slots {
        need: u32,
        left: u32,
    },
}

impl Fault {
    /// The fault as a step meets it.
    pub fn of_step(self) -> StepFault
        ensures { result ≡ fault_of self }
    {
        match self {
            Fault::BadCode(from) => StepFault::BadCode(from),
            Fault::Unlinked { kind, class, index } => StepFault::LinkFault { kind, class, index },
            Fault::Slots { need, left } => StepFault::Full(Full {
                which: Which::FrameSlots,
                need: need as u64,
                left: left as u64,
            }),
        }
    }
}

/// What an instruction asks that ends the turn without an operand of the heap, if it does.
#[derive(Clone, Copy)]
pub enum Said<R> {
    Nothing,
    Raise { from: At, class: u32 },
    Init { from: At, class: u32 },
    Exit { from: At, key: Key<R> },
    Breaks(Fault),
}

impl<R: Copy + Drop> Said<R> {
    /// The request that it is.
    pub fn request<V: Drop>(self) -> Option<Request<R, V>>
        ensures { result ≡ request_said self }
    {
        match self {
            Said::Nothing => None,
            Said::Raise { from, class } => Some(Request::Raise { from, class }),
            Said::Init { from, class } => Some(Request::Init { from, class }),
            Said::Exit { from, key } => Some(Request::Exit { from, key }),
            Said::Breaks(fault) => Some(Request::Broken(fault.of_step())),
        }
    }
}
