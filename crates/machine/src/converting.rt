// What a store is to make durable is converted, one step an event.
ghost use Rattle.std.specs.Prelude.{◌≡◌, ◌<◌, List, length};
ghost use Rattle.ap_base.specs.declared.reference.Ref.{Ref as Reference};
ghost use Rattle.twin_forms.specs.Table.{Entry};
ghost use Rattle.two_spaces.specs.Whole.{Stands};
ghost use Rattle.machine_threads.specs.Passed.{Converting};
ghost use Rattle.machine_threads.specs.Passed.{doing_of, scene_of};
ghost use Rattle.run_types.specs.declared.fault.Which.TheVariants as which;
ghost use Rattle.shared_heap.specs.Conversions.{HasBegun};
ghost use Rattle.machine.specs.declared.events.Halt.TheVariants.{Met};
ghost use Rattle.machine.specs.Halts.{lacks};
ghost use Rattle.object_steps.specs.Stores.{place_of};
ghost use Rattle.shared_heap.specs.Passed.{ConvertsFirst};
ghost use Rattle.shared_heap.specs.Passed.{IsApart};
ghost use Rattle.machine.specs.Ended.{HasSomePlanned, IsThread, StoreComesTo, went_event};

use crate::laws::laws;
use crate::{Event, Halt};
use ap_base::{Ref, ThreadNo};
use converter::Begun;
use line_image::Image;
use machine_threads::Doing;
use object_steps::Store;
use run_types::{Full, On, StepFault, Which};
use shared_heap::{Conversion, SharedHeap};

/// The next event of the conversion of this object, which comes before the store: it is asked, or
/// claimed, or one more step is made.
pub(crate) fn convert<I: Image>(
    heap: &mut SharedHeap<I>,
    t: ThreadNo,
    store: &Store,
    object: Ref,
) -> Event
    requires planned { HasSomePlanned heap.old t store.now }
    requires room { length heap.old.history.acts < heap.old.history.limit }
    requires apart { IsApart heap.old.machine.spaces heap.old.machine.logs t (place_of store.now.target) }
    requires first { (es : List Entry) → Stands heap.old.machine.spaces es
        → ConvertsFirst heap.old.machine.spaces es store.now object }
    ensures { StoreComesTo t store.now result heap.old heap.new }
{
    laws();
    if let Doing::Converting = heap.doing(t) {
        return if heap.is_converting(t) {
            step(heap, t, store)
        } else {
            begin(heap, t, store, object)
        };
    }
    heap.ask(t, store);
    Event::Micro
}

// Where the image has fewer lines left than an object needs, the run is over.
fn lacks_lines(need: u32, left: u32) -> Event
    ensures { result ≡ Event.Over (Met (lacks which.ImageLines need left)) }
{
    Event::Over(Halt::Met(StepFault::Full(Full {
        which: Which::ImageLines,
        need: u64::from(need),
        left: u64::from(left),
    })))
}

// What a step of a conversion came to.
fn went(did: Conversion) -> Event
    ensures event { result ≡ went_event did }
    ensures thread { IsThread did }
{
    match did {
        Conversion::Full { need, left } => lacks_lines(need, left),
        Conversion::Waits(u) => Event::WouldWait(On::Conversion(u)),
        Conversion::Went | Conversion::Joined => Event::Micro,
    }
}

// The object that was asked is claimed. Where another thread has claimed it, the thread needs that one: it has nothing to
// convert itself, and the same event seals its group or waits for it.
fn begin<I: Image>(heap: &mut SharedHeap<I>, t: ThreadNo, store: &Store, object: Ref) -> Event
    requires planned { HasSomePlanned heap.old t store.now }
    requires room { length heap.old.history.acts < heap.old.history.limit }
    requires apart { IsApart heap.old.machine.spaces heap.old.machine.logs t (place_of store.now.target) }
    requires doing { doing_of heap.old.machine t ≡ Converting }
    requires idle { HasBegun (scene_of heap.old.machine) t → ⊥ }
    requires first { (es : List Entry) → Stands heap.old.machine.spaces es
        → ConvertsFirst heap.old.machine.spaces es store.now object }
    ensures { StoreComesTo t store.now result heap.old heap.new }
{
    laws();
    match heap.begin_converting(t, object) {
        Begun::Claimed => Event::Micro,
        Begun::Needs(other) => {
            // that it is one of the 64
            let _other = other.number();
            step(heap, t, store)
        }
        Begun::Full { need, left } => lacks_lines(need, left),
    }
}

// One more step is made.
fn step<I: Image>(heap: &mut SharedHeap<I>, t: ThreadNo, store: &Store) -> Event
    requires planned { HasSomePlanned heap.old t store.now }
    requires room { length heap.old.history.acts < heap.old.history.limit }
    requires apart { IsApart heap.old.machine.spaces heap.old.machine.logs t (place_of store.now.target) }
    requires doing { doing_of heap.old.machine t ≡ Converting }
    requires begun { HasBegun (scene_of heap.old.machine) t }
    requires first { (object : Reference) × ((es : List Entry) → Stands heap.old.machine.spaces es
        → ConvertsFirst heap.old.machine.spaces es store.now object) }
    ensures { StoreComesTo t store.now result heap.old heap.new }
{
    laws();
    match heap.convert(t) {
        Ok(did) => went(did),
        Err(_) => Event::Over(Halt::Met(StepFault::ImageFault)),
    }
}
