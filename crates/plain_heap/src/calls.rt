// The heap itself: how it begins, room for objects, and the last change.
ghost use Rattle.std.specs.Prelude.{◌≡◌, OnErr, OnOk};
ghost use Rattle.plain_heap.specs.Heaps.{HasRoom, shown_back, shown_of};
ghost use Rattle.plain_heap.specs.Shows.{shown_with};
ghost use Rattle.plain_heap.specs.Sound.{IsSoundHeap};

use crate::PlainHeap;
use crate::change::Change;
use crate::object::PlainObject;
use crate::room::Room;
use ap_base::ListOf;
use graph_model::{Shape, Value};
use std::alloc::{AllocError, Global};

impl PlainHeap {
    /// The heap of these objects and static fields. Takes no memory.
    pub fn new(
        alloc: Global,
        shapes: ListOf<Shape>,
        objects: Vec<PlainObject>,
        statics: Vec<Value>,
    ) -> PlainHeap
        requires sound { IsSoundHeap shapes objects.items statics.items }
        ensures shown { shown_of result ≡ shown_with shapes objects.items statics.items 0 }
        ensures room { HasRoom result }
    {
        PlainHeap {
            shapes,
            objects,
            statics,
            room: Room::none(alloc),
            left: 0,
            last: Change::Nothing,
        }
    }

    /// There is no room for an object.
    pub fn close(&mut self)
        ensures shown { shown_of self.new ≡ record (shown_of self.old) { left = 0 } }
        ensures room { HasRoom self.new }
    {
        self.left = 0;
    }

    /// Makes room for one object of so many words.
    ///
    /// # Errors
    ///
    /// Want of memory, or of numbers: 2^32 - 1 objects are there. All is as before then.
    pub fn make_room(&mut self, alloc: Global, words: u64) -> Result<(), AllocError>
        ensures shown { OnOk result (shown_of self.new ≡ record (shown_of self.old) {
          left =
              words;
        }) }
        ensures room { OnOk result (HasRoom self.new) }
        ensures same { OnErr result (shown_of self.new ≡ shown_of self.old) }
        ensures kept { OnErr result (HasRoom self.old → HasRoom self.new) }
    {
        if self.objects.len() >= 4_294_967_295 {
            return Err(AllocError);
        }
        let slots = words.saturating_sub(3) as usize;
        let room = Room::reserve(alloc, slots)?;
        self.objects.reserve(1)?;
        self.room = room;
        self.left = words;
        Ok(())
    }

    /// Takes the last change back.
    pub fn take_back(&mut self)
        ensures { shown_of self.new ≡ shown_back self.old }
    {
        match self.last {
            Change::Nothing => {}
            Change::Slot {
                object,
                index,
                before,
            } => self.objects[object as usize].set(index, before),
            Change::Static { field, before } => self.statics[field as usize] = before,
            Change::Made { left } => {
                let _made = self.objects.pop();
                self.left = left;
            }
        }
        self.last = Change::Nothing;
    }
}
