// Steps are tried.
ghost use Rattle.std.specs.Prelude.{◌≡◌, IfOk, OnErr, false, true};
ghost use Rattle.plain_heap.specs.Heaps.{HasRoom, shown_back, shown_of};
ghost use Rattle.step_forms.specs.Follows.{Agrees};
ghost use Rattle.step_forms.specs.Needs.{IsAskable};
ghost use Rattle.plain_machine.specs.Ops.{asks_print};
ghost use Rattle.plain_machine.specs.Tries.{TriesTo, is_short, lacking, tried_as};
ghost use Rattle.plain_machine.specs.Trying.{IsKept, IsShort, MakesTo};

use crate::nowhere::Nowhere;
use ap_base::ThreadNo;
use natives::{Reply, Request};
use plain_heap::PlainHeap;
use run_history::Op;
use run_types::{StepFault, Which};
use shared_objects::{Rest, Types};
use shared_steps::take_step;
use std::alloc::{AllocError, Global};
use step_forms::Stepped;

/// What a step did, and its reply.
#[derive(Drop)]
pub struct Did {
    pub op: Op,
    pub reply: Reply,
}

/// How a try went: the step was made; there is none; it lacks room for an object of so many words;
/// or as many monitors are held
/// as may be.
#[derive(Drop)]
pub(crate) enum Tried {
    Made(Did),
    Idle,
    Words(u64),
    Monitors,
}

/// How a fault ends a try.
fn lacking(fault: &StepFault) -> Tried
    ensures { result ≡ lacking fault.now }
{
    match *fault {
        StepFault::Full(full) => match full.which {
            Which::VolatileWords => Tried::Words(full.need),
            Which::Monitors => Tried::Monitors,
            _ => Tried::Idle,
        },
        _ => Tried::Idle,
    }
}

/// Tries the step of a request.
fn try_step<C: Types>(
    set: &C,
    heap: &mut PlainHeap,
    rest: &mut Rest,
    t: ThreadNo,
    request: &Request,
) -> Tried
    requires agrees { Agrees (C.facts set.now) (shown_of heap.old) rest.old }
    requires asks { IsAskable (C.facts set.now) (λ n i. Unit {0}) (λ n. Unit {0}) (shown_of
        heap.old)
        rest.old t request.now }
    requires room { HasRoom heap.old }
    ensures tries { TriesTo (C.facts set.now) t request.now (shown_of heap.old) rest.old result
        (shown_of heap.new) (shown_back heap.new) rest.new }
{
    let mut sink = Nowhere {};
    match take_step(set, heap, rest, &mut sink, t, request) {
        Stepped::Did { op, reply } => Tried::Made(Did { op, reply }),
        Stepped::Waits(_on) => Tried::Idle,
        Stepped::Wrong => Tried::Idle,
        Stepped::Over(fault) => lacking(&fault),
    }
}

/// What a try made, if it made something.
fn outcome(tried: Tried) -> Result<Option<Did>, AllocError>
    ensures made { IfOk result (λ made. tried ≡ tried_as made) }
    ensures short { OnErr result (is_short tried ≡ true) }
{
    match tried {
        Tried::Made(did) => Ok(Some(did)),
        Tried::Idle => Ok(None),
        Tried::Words(_) | Tried::Monitors => Err(AllocError),
    }
}

/// Makes the step of a request that doesn't print, if there is one. Room for an object is made
/// where the step asks for it.
///
/// # Errors
///
/// Where there is no memory for the object that the step makes, or no more monitors may be held.
/// Nothing was done then.
pub(crate) fn made<C: Types>(
    alloc: Global,
    set: &C,
    heap: &mut PlainHeap,
    rest: &mut Rest,
    t: ThreadNo,
    request: &Request,
) -> Result<Option<Did>, AllocError>
    requires agrees { Agrees (C.facts set.now) (shown_of heap.old) rest.old }
    requires asks { IsAskable (C.facts set.now) (λ n i. Unit {0}) (λ n. Unit {0}) (shown_of
        heap.old)
        rest.old t request.now }
    requires silent { asks_print request.now ≡ false }
    ensures made { IfOk result (λ made. MakesTo (C.facts set.now) t request.now
        (shown_of heap.old) rest.old made (shown_of heap.new) (shown_back heap.new) rest.new) }
    ensures same { OnErr result (IsKept (shown_of heap.old) rest.old (shown_of heap.new) rest.new) }
    ensures short { OnErr result (IsShort (C.facts set.now) t request.now (shown_of heap.old)
        rest.old) }
{
    heap.close();
    let first = try_step(set, heap, rest, t, request);
    let Tried::Words(words) = first else {
        return outcome(first);
    };
    heap.make_room(alloc, words)?;
    outcome(try_step(set, heap, rest, t, request))
}
