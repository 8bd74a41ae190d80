// Paths of slots.
ghost use Rattle.std.specs.Prelude.{◌≡◌};
ghost use Rattle.live_heap.specs.Views.{followed_from, slot_value};

use crate::Followed;
use crate::fitting::has_place;
use ap_base::Place;
use graph_model::{Heap, Value};

/// What a slot of an object holds. `None` exactly where the value is no object that has it.
fn slot_value(heap: &Heap, value: Value, slot: u32) -> Option<Value>
    ensures { result ≡ slot_value heap.now value slot }
{
    let Value::Obj(object) = value else {
        return None;
    };
    let place = Place::Slot {
        object,
        index: slot,
    };
    if has_place(heap, place) {
        Some(heap.read(place))
    } else {
        None
    }
}

/// The value to which these slots lead from a value; the first of them is step 1.
pub(crate) fn follow(heap: &Heap, start: Value, slots: &[u32]) -> Followed
    ensures { result ≡ followed_from heap.now 1 start slots.now }
{
    let mut value = start;
    let mut step = 1;
    for slot in slots {
        match slot_value(heap, value, *slot) {
            Some(next) => value = next,
            None => return Followed::NoPath { step },
        }
        step += 1;
    }
    Followed::Found(value)
}
