// The heap of one volatile space.
ghost use Rattle.std.specs.Prelude.{◌*◌, ◌+◌, ◌<◌, ◌^◌, ◌≤◌, length, vec_capacity};
ghost use Rattle.one_space.specs.Layout.{AreKnown, IsLaid};

use ap_base::{Item, ListOf};
use graph_model::Shape;
use volatile_space::VolatileSpace;

/// The heap of one volatile space: its objects' words, the first index of each object, in the order
/// of their numbers, the shapes of their classes, and what the static fields hold.
#[derive(Drop)]
pub struct OneSpace {
    pub(crate) space: VolatileSpace,
    pub(crate) starts: Vec<u32>,
    pub(crate) shapes: ListOf<Shape>,
    pub(crate) statics: Vec<Item>,
    pub ghost laid: { IsLaid shapes space.words starts.items },
    pub ghost known: { AreKnown space.words starts.items statics.items },
    pub ghost room: { 3 * length starts.items ≤ length space.words },
    pub ghost rest: { length space.words + space.left ≤ 3 * vec_capacity starts },
    pub ghost few: { length space.words + space.left < 2 ^ 32 },
}
