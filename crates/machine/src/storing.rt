// Stores whose tests are passed.
ghost use Rattle.std.specs.Prelude.{◌≡◌, ◌<◌, true, false, List, length};
ghost use Rattle.natives.specs.declared.requests.Reply.TheVariants.{Done};
ghost use Rattle.twin_forms.specs.Table.{Entry};
ghost use Rattle.two_spaces.specs.Whole.{Stands};
ghost use Rattle.object_steps.specs.Stores.{place_of};
ghost use Rattle.shared_heap.specs.Passed.{MayFollow};
ghost use Rattle.shared_heap.specs.Passed.{HasLogged, IsApart, IsLineLeft, LogsFirst};
ghost use Rattle.machine.specs.Ended.{HasSomePlanned, StoreComesTo};
ghost use Rattle.machine.specs.declared.events.Event.TheVariants.{Did};

use crate::converting::convert;
use crate::laws::laws;
use crate::{Event, Halt};
use ap_base::{Spot, ThreadNo};
use line_image::Image;
use natives::Reply;
use object_steps::Store;
use run_types::{Full, StepFault, Which};
use shared_heap::{Barrier, SharedHeap, place_of};

/// The store is made, where nothing is to be converted or logged before it.
pub(crate) fn store<I: Image>(heap: &mut SharedHeap<I>, t: ThreadNo, store: Store) -> Event
    requires planned { HasSomePlanned heap.old t store }
    requires room { length heap.old.history.acts < heap.old.history.limit }
    ensures { StoreComesTo t store result heap.old heap.new }
{
    laws();
    match heap.barrier(t, &store) {
        Barrier::Race(other) => Event::Over(Halt::Met(StepFault::RegionRace {
            thread: t,
            other,
            place: place_of(store.target),
        })),
        Barrier::ConvertFirst(object) => convert(heap, t, &store, object),
        Barrier::LogFirst(spot) => guard(heap, t, &store, spot),
        Barrier::Store(line) => make(heap, t, store, line),
    }
}

// The place of the store is guarded: its word is logged next. Where the log is full, the run is over.
fn guard<I: Image>(heap: &mut SharedHeap<I>, t: ThreadNo, store: &Store, spot: Spot) -> Event
    requires planned { HasSomePlanned heap.old t store.now }
    requires room { length heap.old.history.acts < heap.old.history.limit }
    requires apart { IsApart heap.old.machine.spaces heap.old.machine.logs t (place_of store.now.target) }
    requires follows { MayFollow heap.old.machine.spaces store.now }
    requires first { (es : List Entry) → Stands heap.old.machine.spaces es
        → LogsFirst heap.old.machine.spaces es heap.old.machine.logs t (place_of store.now.target) spot }
    ensures { StoreComesTo t store.now result heap.old heap.new }
{
    laws();
    if heap.log_is_full(t) {
        return Event::Over(Halt::Met(StepFault::Full(Full {
            which: Which::LogEntries,
            need: 1,
            left: 0,
        })));
    }
    heap.guard(t, store, spot);
    Event::Micro
}

// Makes a store. That to a durable place outside regions is answered once it is fenced.
fn make<I: Image>(heap: &mut SharedHeap<I>, t: ThreadNo, store: Store, line: Option<u32>) -> Event
    requires planned { HasSomePlanned heap.old t store }
    requires room { length heap.old.history.acts < heap.old.history.limit }
    requires apart { IsApart heap.old.machine.spaces heap.old.machine.logs t (place_of store.target) }
    requires follows { MayFollow heap.old.machine.spaces store }
    requires logged { (es : List Entry) → Stands heap.old.machine.spaces es
        → HasLogged heap.old.machine.spaces es heap.old.machine.logs t (place_of store.target) }
    requires line { (es : List Entry) → Stands heap.old.machine.spaces es
        → IsLineLeft heap.old.machine.spaces es heap.old.machine.logs t (place_of store.target) line }
    ensures { StoreComesTo t store result heap.old heap.new }
{
    laws();
    heap.store(t, store, line);
    match line {
        Some(_) => Event::Micro,
        None => Event::Did(Reply::Done),
    }
}

/// The store is made, where nothing is to be converted, logged or written back for it. Else nothing is changed.
#[inline(always)]
pub(crate) fn store_at_once<I: Image>(heap: &mut SharedHeap<I>, t: ThreadNo, store: Store) -> bool
    requires planned { HasSomePlanned heap.old t store }
    requires room { length heap.old.history.acts < heap.old.history.limit }
    ensures stored { result ≡ true → StoreComesTo t store (Did Done) heap.old heap.new }
    ensures none { result ≡ false → heap.new ≡ heap.old }
{
    laws();
    match heap.barrier(t, &store) {
        Barrier::Store(line) => make_at_once(heap, t, store, line),
        _ => false,
    }
}

// Makes a store of which no line is left to be written back. Where one would be, nothing is changed.
fn make_at_once<I: Image>(
    heap: &mut SharedHeap<I>,
    t: ThreadNo,
    store: Store,
    line: Option<u32>,
) -> bool
    requires planned { HasSomePlanned heap.old t store }
    requires room { length heap.old.history.acts < heap.old.history.limit }
    requires apart { IsApart heap.old.machine.spaces heap.old.machine.logs t (place_of store.target) }
    requires follows { MayFollow heap.old.machine.spaces store }
    requires logged { (es : List Entry) → Stands heap.old.machine.spaces es
        → HasLogged heap.old.machine.spaces es heap.old.machine.logs t (place_of store.target) }
    requires line { (es : List Entry) → Stands heap.old.machine.spaces es
        → IsLineLeft heap.old.machine.spaces es heap.old.machine.logs t (place_of store.target) line }
    ensures stored { result ≡ true → StoreComesTo t store (Did Done) heap.old heap.new }
    ensures none { result ≡ false → heap.new ≡ heap.old }
{
    laws();
    match line {
        Some(_) => false,
        None => {
            heap.store(t, store, line);
            true
        }
    }
}
