// Events.
ghost use Rattle.std.specs.Prelude.{◌≡◌, ◌⊎◌, ◌<◌, ◌≤◌, ◌^◌, ◌++◌, [], ◌∷◌, ℕ, List, length};
ghost use Rattle.run_history.specs.Recorded.{Recorded};
ghost use Rattle.run_forms.specs.Views.{ThreadFrames};
ghost use Rattle.run_types.specs.declared.fault.Which.TheVariants as which;
ghost use Rattle.twin_forms.specs.Table.{Entry};
ghost use Rattle.machine_threads.specs.Passed.{Fencing, Writing};
ghost use Rattle.region_log.specs.declared.entry.Underway.TheVariants as underway;
ghost use Rattle.machine_threads.specs.Passed.{Opening, doing_of, log_of, memory_of};
ghost use Rattle.machine_threads.specs.Passed.{IsReady};
ghost use Rattle.machine_threads.specs.Passed.{measure};
ghost use Rattle.machine.specs.declared.events.Halt.TheVariants.{Met};
ghost use Rattle.machine.specs.Halts.{lacks};
ghost use Rattle.machine.specs.Ended.{ComesTo, IsOutside, IsSomeDue, Serves};
ghost use Rattle.machine.specs.Remembering.{IsNext, LeadsTo, Remembers};
ghost use Rattle.run_types.specs.declared.wait.On.{On as OnOf};
ghost use Rattle.machine.specs.Events.{AddsActs, CallsAtMostOnce, HasImageCause, HasSinkCause, IsAnswerTo, IsShare};
ghost use Rattle.machine.specs.Events.{FindsConversion, FindsWait, IsUnanswered, KeepsBound, LeavesOthers, TakesOutput, logs_word};
ghost use Rattle.line_memory.specs.Memory.{SameImage};
ghost use Rattle.shared_heap.specs.Passed.{IsSilent};
ghost use Rattle.machine_threads.specs.Stuck.{plain_waits};
ghost use Rattle.machine.specs.Running.{IsDue};

use crate::laws::laws;
use crate::parts::ended;
use crate::regions::{begin, end, log};
use crate::remembering::remember;
use crate::storing::store;
use crate::{Event, Halt};
use ap_base::{Sink, ThreadNo};
use line_image::Image;
use machine_threads::Doing;
use natives::{Reply, Request};
use run_types::{Full, StepFault, Which};
use shared_heap::{Plan, SharedHeap};
use shared_objects::Types;

/// One event of thread `t`, for the request that its turn asks: at most one call of the image, or else calls of the sink
/// (the puts of one print), and at most one act. A durable store is asked where its value isn't durable, converted, made,
/// written back and fenced, each in events of its own; in a failure-atomic region it is logged before it is made, and its
/// line is written back as the region ends (Shull, Huang and Torrellas, "AutoPersist", PLDI 2019). An event waits for a
/// monitor that another thread holds (JVMS 2.11.10), for the end of a thread, for a class that another thread initialises
/// (JVMS 5.5), or for another thread's conversion; a run of which all threads wait is over.
///
/// A request that isn't answered is noted until it is, unless its event meets a fault: it is moved there from `request`. What
/// is left in `request` no clause says.
#[inline(always)]
pub fn event<C: Types, I: Image, S: Sink>(
    heap: &mut SharedHeap<I>,
    set: &C,
    sink: &mut S,
    t: ThreadNo,
    request: &mut Request,
) -> Event
    requires next { (o : Opening) × (first : ℕ) × (es : List Entry) × (threads : List ThreadFrames)
        × (fs : ThreadFrames) × IsNext o first (C.facts set.now) heap.old es threads t fs request.old }
    ensures leads { (o : Opening) (first : ℕ) (es : List Entry) (threads : List ThreadFrames) (fs : ThreadFrames)
        → IsNext o first (C.facts set.now) heap.old es threads t fs request.old
        → LeadsTo o first result heap.old heap.new threads t fs request.old }
    ensures remembers { Remembers result t request.old heap.old heap.new }
    // Unless the run is over, it waits in the plain world exactly where its thread does; it makes something only where that
    // waits for nothing, but for a part of the logging of a word.
    ensures finds { (o : Opening) (first : ℕ) (es : List Entry) (threads : List ThreadFrames) (fs : ThreadFrames)
        → IsNext o first (C.facts set.now) heap.old es threads t fs request.old
        → FindsWait (logs_word heap.old.machine t) result (plain_waits o heap.old.machine t) }
    // Where its thread's wait for another's conversion held before the event, what it asked isn't durable yet and no word is being
    // logged for it, it tells such a wait, unless the run is over.
    ensures awaits { (o : Opening) (first : ℕ) (es : List Entry) (threads : List ThreadFrames) (fs : ThreadFrames)
        → IsNext o first (C.facts set.now) heap.old es threads t fs request.old
        → FindsConversion o heap.old.machine t result }
    ensures others { LeavesOthers result t heap.old.machine heap.new.machine }
    ensures acts { AddsActs result t heap.old.history.acts heap.new.history.acts }
    ensures told { TakesOutput heap.old.history.acts heap.new.history.acts (S.taken sink.old)
        (S.taken sink.new) (S.takes sink.old) (S.takes sink.new) }
    ensures share { (act : Recorded) → heap.new.history.acts ≡ heap.old.history.acts ++ act ∷ []
        → IsShare request.old (S.takes sink.old 0) act.act.op }
    // Only a print calls the sink, which answers it or ends the run; and then the image isn't called.
    ensures sink { IsUnanswered result → sink.new ≡ sink.old }
    ensures silent { IsSilent request.old → sink.new ≡ sink.old }
    ensures either { SameImage (memory_of heap.old.machine) (memory_of heap.new.machine) ⊎ (sink.new ≡ sink.old) }
    ensures sink_cause { HasSinkCause result (S.faults sink.old) (S.faults sink.new) }
    ensures image_cause { HasImageCause result (memory_of heap.old.machine).faults
        (memory_of heap.new.machine).faults }
    ensures calls { CallsAtMostOnce heap.old heap.new }
    // A history without room for an act ends the run before all else.
    ensures full { heap.old.history.limit ≤ length heap.old.history.acts
        → result ≡ Event.Over (Met (lacks which.Acts 1 0)) }
    ensures answers { IsAnswerTo result request.old }
    ensures numbers { heap.new.machine.spaces.numbers ≡ heap.old.machine.spaces.numbers }
    // So a loop over events of one request ends, within the acts that the history may have.
    ensures quiet { result ≡ Event.Micro → heap.new.history.acts ≡ heap.old.history.acts
        → measure heap.new.machine < measure heap.old.machine }
    ensures waits { (on : OnOf) → result ≡ Event.WouldWait on → measure heap.new.machine ≤ measure heap.old.machine }
    // A quiet step is a `Micro` without an act: by `quiet_steps_are_few` events from a new heap on make at most 16 for each of their
    // acts, and each line that they take.
    ensures work { KeepsBound result heap.old heap.new }
{
    laws();
    if heap.is_full() {
        return Event::Over(Halt::Met(StepFault::Full(Full {
            which: Which::Acts,
            need: 1,
            left: 0,
        })));
    }
    let came = attempt(heap, set, sink, t, request);
    remember(heap, set, t, request, came)
}

// What the thread's event comes to, before it is noted: it is never told there that the run is stuck.
#[inline(always)]
fn attempt<C: Types, I: Image, S: Sink>(
    heap: &mut SharedHeap<I>,
    set: &C,
    sink: &mut S,
    t: ThreadNo,
    request: &Request,
) -> Event
    requires due { (o : Opening) × (first : ℕ) × (es : List Entry) × (threads : List ThreadFrames)
        × (fs : ThreadFrames) × IsDue o first (C.facts set.now) heap.old es threads t fs request.now }
    requires room { length heap.old.history.acts < heap.old.history.limit }
    requires counted { heap.old.history.limit < 2 ^ 32 }
    ensures serves { Serves (C.facts set.now) t request.now result heap.old heap.new (S.takes sink.old) (S.takes sink.new)
        (S.taken sink.old) (S.taken sink.new) (S.faults sink.old) (S.faults sink.new) }
    ensures sink { IsUnanswered result → sink.new ≡ sink.old }
    ensures silent { IsSilent request.now → sink.new ≡ sink.old }
    ensures either { SameImage (memory_of heap.old.machine) (memory_of heap.new.machine) ⊎ (sink.new ≡ sink.old) }
{
    match heap.doing(t) {
        Doing::Writing(line) => write_back(heap, t, line),
        Doing::Fencing => fence(heap, t),
        Doing::Nothing | Doing::Converting => go_on(heap, set, sink, t, request),
    }
}

// The line of the thread's durable store is written back.
fn write_back<I: Image>(heap: &mut SharedHeap<I>, t: ThreadNo, line: u32) -> Event
    requires due { IsSomeDue heap.old t }
    requires room { length heap.old.history.acts < heap.old.history.limit }
    requires doing { doing_of heap.old.machine t ≡ Writing line }
    ensures { ComesTo t result heap.old heap.new }
{
    laws();
    match heap.write_back(t, line) {
        Ok(()) => Event::Micro,
        Err(_) => Event::Over(Halt::Met(StepFault::ImageFault)),
    }
}

// The thread's durable store is fenced, and with that done.
fn fence<I: Image>(heap: &mut SharedHeap<I>, t: ThreadNo) -> Event
    requires due { IsSomeDue heap.old t }
    requires room { length heap.old.history.acts < heap.old.history.limit }
    requires doing { doing_of heap.old.machine t ≡ Fencing }
    ensures { ComesTo t result heap.old heap.new }
{
    laws();
    match heap.fence(t) {
        Ok(()) => Event::Did(Reply::Done),
        Err(_) => Event::Over(Halt::Met(StepFault::ImageFault)),
    }
}

// What is under way in the thread's log goes on, or else the request does.
#[inline(always)]
fn go_on<C: Types, I: Image, S: Sink>(
    heap: &mut SharedHeap<I>,
    set: &C,
    sink: &mut S,
    t: ThreadNo,
    request: &Request,
) -> Event
    requires due { (o : Opening) × (first : ℕ) × (es : List Entry) × (threads : List ThreadFrames)
        × (fs : ThreadFrames) × IsDue o first (C.facts set.now) heap.old es threads t fs request.now }
    requires room { length heap.old.history.acts < heap.old.history.limit }
    requires counted { heap.old.history.limit < 2 ^ 32 }
    requires ready { IsReady (doing_of heap.old.machine t) }
    ensures serves { Serves (C.facts set.now) t request.now result heap.old heap.new (S.takes sink.old) (S.takes sink.new)
        (S.taken sink.old) (S.taken sink.new) (S.faults sink.old) (S.faults sink.new) }
    ensures sink { IsUnanswered result → sink.new ≡ sink.old }
    ensures silent { IsSilent request.now → sink.new ≡ sink.old }
    ensures either { SameImage (memory_of heap.old.machine) (memory_of heap.new.machine) ⊎ (sink.new ≡ sink.old) }
{
    laws();
    if heap.is_logging(t) {
        return log(heap, t);
    }
    if heap.is_ending(t) {
        return end(heap, set, sink, t, request);
    }
    let is_open = heap.depth(t) > 0;
    match *request {
        Request::Begin { .. } => begin(heap, set, sink, t, request),
        Request::End { .. } => {
            if is_open {
                end(heap, set, sink, t, request)
            } else {
                answer(heap, set, sink, t, request)
            }
        }
        _ => answer(heap, set, sink, t, request),
    }
}

// The step of a request that neither begins nor ends a region, or what is to be done for its store.
fn answer<C: Types, I: Image, S: Sink>(
    heap: &mut SharedHeap<I>,
    set: &C,
    sink: &mut S,
    t: ThreadNo,
    request: &Request,
) -> Event
    requires due { (o : Opening) × (first : ℕ) × (es : List Entry) × (threads : List ThreadFrames)
        × (fs : ThreadFrames) × IsDue o first (C.facts set.now) heap.old es threads t fs request.now }
    requires room { length heap.old.history.acts < heap.old.history.limit }
    requires ready { IsReady (doing_of heap.old.machine t) }
    requires idle { (log_of heap.old.machine t).underway ≡ underway.Nothing }
    requires outside { IsOutside (log_of heap.old.machine t).depth request.now }
    ensures serves { Serves (C.facts set.now) t request.now result heap.old heap.new (S.takes sink.old) (S.takes sink.new)
        (S.taken sink.old) (S.taken sink.new) (S.faults sink.old) (S.faults sink.new) }
    ensures sink { IsUnanswered result → sink.new ≡ sink.old }
    ensures silent { IsSilent request.now → sink.new ≡ sink.old }
    ensures either { SameImage (memory_of heap.old.machine) (memory_of heap.new.machine) ⊎ (sink.new ≡ sink.old) }
{
    laws();
    // that so many acts can be counted
    let _count = heap.acts().len();
    match heap.plan(set, t, request) {
        Plan::NoStore => {
            let step = heap.take(set, sink, t, request);
            ended(request, step)
        }
        Plan::Ends(step) => ended(request, step),
        Plan::Stores(planned) => store(heap, t, planned),
    }
}
