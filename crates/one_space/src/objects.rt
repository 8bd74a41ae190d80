// What steps ask of it.
ghost use Rattle.std.specs.Prelude.{refl};

use crate::OneSpace;
use crate::words::{item_of, kind_at};
use ap_base::{Item, Ref};
use run_types::Full;
use shared_objects::Objects;

impl Objects for OneSpace {
    ghost use Rattle.one_space.specs.Shows.{shown_of};
    ghost use Rattle.one_space.specs.Laws.{one_key_shown};

    ghost shown = { λ heap. shown_of heap };

    ghost is_here = { λ heap n i. Unit {0} };

    ghost is_static_here = { λ heap n. Unit {0} };

    ghost may_store = { λ heap place item. Unit {0} };

    ghost may_make = { λ heap. Unit {0} };

    ghost stores = { λ heap place item now. Unit {0} };

    ghost makes = { λ heap now. Unit {0} };

    fn number_of(&self, object: Ref) -> u32 {
        match object {
            Ref::Volatile(at) => self.space.word(at + 2) as u32,
            _ => 0,
        }
    }

    fn shape_of(&self, object: Ref) -> u32 {
        match object {
            Ref::Volatile(at) => (self.space.word(at + 1) % 4294967296) as u32,
            _ => 0,
        }
    }

    fn length_of(&self, object: Ref) -> u32 {
        match object {
            Ref::Volatile(at) => (self.space.word(at + 1) / 4294967296) as u32,
            _ => 0,
        }
    }

    fn key_of(&self, object: Ref) -> Ref {
        object
    }

    fn read(&self, object: Ref, index: u32) -> Item {
        match object {
            Ref::Volatile(at) => {
                let shape = (self.space.word(at + 1) % 4294967296) as u32;
                item_of(
                    kind_at(&self.shapes, shape, index),
                    self.space.word(at + 3 + index),
                )
            }
            _ => Item::Int(0),
        }
    }

    fn store(&mut self, object: Ref, index: u32, item: Item) {
        if let Ref::Volatile(at) = object {
            self.put(at, index, item);
        }
    }

    fn read_static(&self, field: u32) -> Item {
        self.statics[field as usize]
    }

    fn store_static(&mut self, field: u32, item: Item) {
        self.statics[field as usize] = item;
    }

    fn alloc(&mut self, shape: u32, slots: u32) -> Result<Ref, Full> {
        Ok(Ref::Volatile(self.place(shape, slots)?))
    }

    ghost null_is_none = { λ heap. refl };

    ghost one_key = { λ heap. one_key_shown heap.shapes heap.space.words heap.starts.items
        heap.statics.items heap.space.left };
}
