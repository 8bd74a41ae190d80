//! A world over a heap of two spaces, and the references that were given in it.

ghost use Rattle.std.specs.Prelude.{All};
ghost use Rattle.plain_model.specs.Facts.{SetFacts};
ghost use Rattle.shared_objects.specs.Shown.{IsKnown};
ghost use Rattle.two_spaces.specs.Seen.{shown_of};
ghost use Rattle.space_rows.specs.Worlds.{spaces_of};

use ap_base::{MemorySink, Ref};
use line_image::MemoryImage;
use shared_objects::Rest;
use two_spaces::TwoSpaces;

/// A heap of a class set's objects, what lies beside it, and the references that were given, oldest first. No line from
/// `next` on is an object's.
#[derive(Drop)]
pub struct World {
    pub spaces: TwoSpaces<MemoryImage>,
    pub rest: Rest,
    pub sink: MemorySink,
    pub refs: Vec<Ref>,
    pub next: u32,
    /// How many steps were made, and how many of them entered a monitor.
    pub acts: u32,
    pub entered: u32,
}

impl World {
    /// A reference that was given, null where there were fewer.
    pub fn named(&self, place: u8) -> Ref
        requires known { All (IsKnown (shown_of (spaces_of self.now.spaces)).number)
            self.now.refs.items }
        ensures known { IsKnown (shown_of (spaces_of self.now.spaces)).number result }
    {
        match self.refs.get(place as usize) {
            Some(r) => *r,
            None => Ref::Null,
        }
    }
}
