// The heap.
ghost use Rattle.std.specs.Prelude.{◌≡◌, true};
ghost use Rattle.plain_heap.specs.Backs.{is_placed, objects_before, statics_before};
ghost use Rattle.plain_heap.specs.Sound.{IsSoundHeap};

use crate::change::Change;
use crate::object::PlainObject;
use crate::room::Room;
use ap_base::ListOf;
use graph_model::{Shape, Value};

/// A heap of objects that never move: the shapes of its classes, the objects by their numbers,
/// what its static fields
/// hold, the memory of the next object and how many words that may take, and what was changed last.
#[derive(Drop)]
pub struct PlainHeap {
    pub(crate) shapes: ListOf<Shape>,
    pub(crate) objects: Vec<PlainObject>,
    pub(crate) statics: Vec<Value>,
    pub(crate) room: Room,
    pub(crate) left: u64,
    pub(crate) last: Change,
    pub ghost sound: { IsSoundHeap shapes objects.items statics.items },
    pub ghost sound_before: { IsSoundHeap shapes (objects_before last objects.items)
        (statics_before last statics.items) },
    pub ghost placed: { is_placed last objects.items statics.items ≡ true },
}
