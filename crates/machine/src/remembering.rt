// What is noted of an event, and whether all threads wait.
ghost use Rattle.std.specs.Prelude.{◌≡◌, ◌↔◌, ◌<◌, ◌^◌, true, false, List, length, IsTrue};
ghost use Rattle.run_types.specs.declared.wait.On.{On as OnOf};
ghost use Rattle.shared_heap.specs.Notes.{AreOf64, asked_by, asking, waiting, waits_on};
ghost use Rattle.graph_model.specs.declared.types.Root.{Root as RootOf};
ghost use Rattle.convert_waits.specs.Stuck.{IsPlain};
ghost use Rattle.machine_threads.specs.Testing.{IsLive, WaitsStill};
ghost use Rattle.machine.specs.Remembering.{AllWait, IsSomeRunning, NotesEvent};

use crate::laws::laws;
use crate::{Event, Halt};
use ap_base::ThreadNo;
use line_image::Image;
use natives::Request;
use run_types::On;
use shared_heap::SharedHeap;
use shared_objects::Types;
use std::mem::replace;

// Whether it is a wait of the plain world: no conversion is waited for there.
fn is_plain(on: &On) -> bool
    ensures { IsTrue result ↔ IsPlain on.now }
{
    match *on {
        On::Conversion(_) => false,
        On::Monitor(_) | On::Join(_) | On::Init(_) => true,
    }
}

// Whether the last event of a thread waited in the plain world, and waits so still.
fn waits_still<C: Types, I: Image>(heap: &SharedHeap<I>, set: &C, u: ThreadNo) -> bool
    requires running { IsSomeRunning (C.facts set.now) heap.now }
    requires counted { length heap.now.history.acts < 2 ^ 32 }
    ensures { (roots : List RootOf) → IsTrue result ↔ WaitsStill (C.facts set.now) heap.now.machine roots
        (asked_by heap.now.notes) (waits_on heap.now.notes) u }
{
    laws();
    match heap.waiting(u) {
        Some(on) => is_plain(&on) && heap.plain_wait(set, u) == Some(on),
        None => false,
    }
}

// Whether a thread that lives goes on: one that has ended doesn't.
fn is_live<I: Image>(heap: &SharedHeap<I>, u: ThreadNo) -> bool
    ensures { IsTrue result ↔ IsLive heap.now.machine u }
{
    match heap.threads().get(u) {
        Some(state) => !state.ended,
        None => false,
    }
}

// Whether a thread waits so, if it lives.
fn waits_if_live<C: Types, I: Image>(heap: &SharedHeap<I>, set: &C, u: ThreadNo) -> bool
    requires running { IsSomeRunning (C.facts set.now) heap.now }
    requires counted { length heap.now.history.acts < 2 ^ 32 }
    ensures { (roots : List RootOf) → IsTrue result ↔ (IsLive heap.now.machine u
        → WaitsStill (C.facts set.now) heap.now.machine roots (asked_by heap.now.notes)
        (waits_on heap.now.notes) u) }
{
    if is_live(heap, u) {
        waits_still(heap, set, u)
    } else {
        true
    }
}

// Whether all threads that live wait so. A wait for a conversion needs no test: where all wait, it doesn't hold.
fn all_wait<C: Types, I: Image>(heap: &SharedHeap<I>, set: &C) -> bool
    requires running { IsSomeRunning (C.facts set.now) heap.now }
    requires counted { length heap.now.history.acts < 2 ^ 32 }
    ensures { (roots : List RootOf) → IsTrue result ↔ AllWait (C.facts set.now) roots heap.now }
{
    for n in 0..64 {
        if let Some(u) = ThreadNo::new(n) {
            if !waits_if_live(heap, set, u) {
                return false;
            }
        }
    }
    true
}

// Notes the request of an event that waits, and for what; and tells whether all threads wait.
#[inline(never)]
fn note_wait<C: Types, I: Image>(
    heap: &mut SharedHeap<I>,
    set: &C,
    t: ThreadNo,
    request: Request,
    on: On,
) -> bool
    requires notable { AreOf64 (waiting (asking heap.old.notes t request) t on)
        → IsSomeRunning (C.facts set.now) (record heap.old { notes = waiting (asking heap.old.notes t request) t on }) }
    requires counted { length heap.old.history.acts < 2 ^ 32 }
    ensures noted { heap.new ≡ record heap.old { notes = waiting (asking heap.old.notes t request) t on } }
    ensures threads { AreOf64 heap.new.notes }
    ensures all { (roots : List RootOf) → IsTrue result ↔ AllWait (C.facts set.now) roots heap.new }
{
    heap.ask_for(t, request);
    heap.waits_on(t, on);
    all_wait(heap, set)
}

// Notes the request of an event that isn't answered, and what the thread waits for; and tells whether all threads wait. The
// request is moved only where it is noted: as a rule it is answered.
#[inline(always)]
fn note<C: Types, I: Image>(
    heap: &mut SharedHeap<I>,
    set: &C,
    t: ThreadNo,
    request: &mut Request,
    came: &Event,
) -> bool
    requires notable { (on : OnOf) → came.now ≡ Event.WouldWait on
        → AreOf64 (waiting (asking heap.old.notes t request.old) t on)
        → IsSomeRunning (C.facts set.now) (record heap.old { notes = waiting (asking heap.old.notes t request.old) t on }) }
    requires counted { length heap.old.history.acts < 2 ^ 32 }
    ensures stuck { result ≡ true
        → NotesEvent (C.facts set.now) t request.old came.now (Event.Over Halt.Stuck) heap.old heap.new }
    ensures went { result ≡ false
        → NotesEvent (C.facts set.now) t request.old came.now came.now heap.old heap.new }
{
    match *came {
        Event::Did(_) => {
            heap.answered(t);
            false
        }
        Event::Micro => {
            heap.ask_for(t, replace(request, Request::Pause));
            false
        }
        Event::WouldWait(on) => note_wait(heap, set, t, replace(request, Request::Pause), on),
        Event::Over(_) => false,
    }
}

/// Notes an event, and tells what it comes to: the run is over where it waits and all others do.
#[inline(always)]
pub(crate) fn remember<C: Types, I: Image>(
    heap: &mut SharedHeap<I>,
    set: &C,
    t: ThreadNo,
    request: &mut Request,
    came: Event,
) -> Event
    requires notable { (on : OnOf) → came ≡ Event.WouldWait on
        → AreOf64 (waiting (asking heap.old.notes t request.old) t on)
        → IsSomeRunning (C.facts set.now) (record heap.old { notes = waiting (asking heap.old.notes t request.old) t on }) }
    requires counted { length heap.old.history.acts < 2 ^ 32 }
    ensures { NotesEvent (C.facts set.now) t request.old came result heap.old heap.new }
{
    if note(heap, set, t, request, &came) {
        return Event::Over(Halt::Stuck);
    }
    came
}
