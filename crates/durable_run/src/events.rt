// The events by which a request of a thread is done.
ghost use Rattle.std.specs.Prelude.{◌≡◌, ◌⊎◌, ◌<◌, ◌≤◌, ◌+◌, ℕ, List, drop, length};
ghost use Rattle.run_types.specs.declared.fault.Which.TheVariants as which;
ghost use Rattle.run_types.specs.declared.wait.On.{On as OnOf};
ghost use Rattle.run_forms.specs.Views.{ThreadFrames};
ghost use Rattle.twin_forms.specs.Table.{Entry};
ghost use Rattle.machine.specs.Passed.{IsSilent, Opening, SameImage, memory_of, plain_waits};
ghost use Rattle.machine.specs.declared.events.Halt.TheVariants.{Met};
ghost use Rattle.machine.specs.Events.{AddsActs, CallsAtMostOnce, FindsConversion, FindsWait, IsAnswerTo, IsUnanswered};
ghost use Rattle.machine.specs.Events.{KeepsBound, LeavesOthers, logs_word};
ghost use Rattle.machine.specs.Halts.{lacks};
ghost use Rattle.machine.specs.Passed.{measure};
ghost use Rattle.machine.specs.Remembering.{IsNext, LeadsTo, Remembers};
ghost use Rattle.durable_run.specs.Telling.{with_all};
ghost use Rattle.durable_run.specs.Events.{Tells, fault_in_event, outside};

use ap_base::{Sink, ThreadNo};
use line_image::Image;
use machine::{Event, SharedHeap, event};
use natives::Request;
use run_history::{Acts, Watcher};
use shared_objects::Types;

/// Tells the watcher the act that stands behind so many others, if there is one, with the objects that it names.
#[inline(always)]
pub(crate) fn tell<W: Watcher>(watcher: &mut W, acts: &Acts, from: u32)
    requires one { length acts.now.acts ≤ from + 1 }
    ensures told { W.seen watcher.new ≡ with_all (W.seen watcher.old) (drop from acts.now.acts) }
{
    if let Some(act) = acts.get(from) {
        watcher.saw(act, acts.named(from));
    }
}

/// One event of a thread. The watcher is told its act, if it made one.
#[inline(always)]
pub(crate) fn told_event<C: Types, I: Image, S: Sink, W: Watcher>(
    heap: &mut SharedHeap<I>,
    sink: &mut S,
    watcher: &mut W,
    set: &C,
    t: ThreadNo,
    request: &mut Request,
) -> Event
    requires next { (o : Opening) × (first : ℕ) × (es : List Entry) × (threads : List ThreadFrames)
        × (fs : ThreadFrames) × IsNext o first (C.facts set.now) heap.old es threads t fs request.old }
    ensures leads { (o : Opening) (first : ℕ) (es : List Entry) (threads : List ThreadFrames) (fs : ThreadFrames)
        → IsNext o first (C.facts set.now) heap.old es threads t fs request.old
        → LeadsTo o first result heap.old heap.new threads t fs request.old }
    ensures remembers { Remembers result t request.old heap.old heap.new }
    ensures finds { (o : Opening) (first : ℕ) (es : List Entry) (threads : List ThreadFrames) (fs : ThreadFrames)
        → IsNext o first (C.facts set.now) heap.old es threads t fs request.old
        → FindsWait (logs_word heap.old.machine t) result (plain_waits o heap.old.machine t) }
    ensures awaits { (o : Opening) (first : ℕ) (es : List Entry) (threads : List ThreadFrames) (fs : ThreadFrames)
        → IsNext o first (C.facts set.now) heap.old es threads t fs request.old
        → FindsConversion o heap.old.machine t result }
    ensures others { LeavesOthers result t heap.old.machine heap.new.machine }
    ensures calls { CallsAtMostOnce heap.old heap.new }
    ensures sink { IsUnanswered result → sink.new ≡ sink.old }
    ensures silent { IsSilent request.old → sink.new ≡ sink.old }
    ensures either { SameImage (memory_of heap.old.machine) (memory_of heap.new.machine) ⊎ (sink.new ≡ sink.old) }
    ensures acts { AddsActs result t heap.old.history.acts heap.new.history.acts }
    ensures tells { Tells request.old (fault_in_event heap.new result) heap.old heap.new
        (outside (W.seen watcher.old) (S.taken sink.old) (S.takes sink.old) (S.faults sink.old))
        (outside (W.seen watcher.new) (S.taken sink.new) (S.takes sink.new) (S.faults sink.new)) }
    ensures full { heap.old.history.limit ≤ length heap.old.history.acts
        → result ≡ Event.Over (Met (lacks which.Acts 1 0)) }
    ensures answers { IsAnswerTo result request.old }
    ensures numbers { heap.new.machine.spaces.numbers ≡ heap.old.machine.spaces.numbers }
    ensures quiet { result ≡ Event.Micro → heap.new.history.acts ≡ heap.old.history.acts
        → measure heap.new.machine < measure heap.old.machine }
    ensures work { KeepsBound result heap.old heap.new }
    ensures waits { (on : OnOf) → result ≡ Event.WouldWait on → measure heap.new.machine ≤ measure heap.old.machine }
{
    let before = heap.acts().len();
    let went = event(heap, set, sink, t, request);
    tell(watcher, heap.acts(), before);
    went
}
