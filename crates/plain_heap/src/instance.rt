// What steps ask of it.
ghost use Rattle.std.specs.Prelude.{refl};

use crate::PlainHeap;
use crate::change::Change;
use crate::object::PlainObject;
use crate::values::{item_of, put_fresh, value_of};
use ap_base::{Item, Ref};
use run_types::{Full, Which};
use shared_objects::Objects;

impl Objects for PlainHeap {
    ghost use Rattle.std.specs.Prelude.{◌≡◌};
    ghost use Rattle.plain_heap.specs.Heaps.{HasRoom, shown_back, shown_of};
    ghost use Rattle.plain_heap.specs.Laws.{one_key_in};

    ghost shown = { λ heap. shown_of heap };

    ghost is_here = { λ heap n i. Unit {0} };

    ghost is_static_here = { λ heap n. Unit {0} };

    ghost may_store = { λ heap place item. Unit {0} };

    ghost may_make = { λ heap. HasRoom heap };

    ghost stores = { λ heap place item now. shown_back now ≡ shown_of heap };

    ghost makes = { λ heap now. shown_back now ≡ shown_of heap };

    fn number_of(&self, object: Ref) -> u32 {
        match object {
            Ref::Volatile(n) => n,
            _ => 0,
        }
    }

    fn shape_of(&self, object: Ref) -> u32 {
        match object {
            Ref::Volatile(n) => self.objects[n as usize].shape(),
            _ => 0,
        }
    }

    fn length_of(&self, object: Ref) -> u32 {
        match object {
            Ref::Volatile(n) => self.objects[n as usize].len() as u32,
            _ => 0,
        }
    }

    fn key_of(&self, object: Ref) -> Ref {
        object
    }

    fn read(&self, object: Ref, index: u32) -> Item {
        match object {
            Ref::Volatile(n) => item_of(self.objects[n as usize].get(index)),
            _ => Item::Int(0),
        }
    }

    fn store(&mut self, object: Ref, index: u32, item: Item) {
        if let Ref::Volatile(n) = object {
            let before = self.objects[n as usize].get(index);
            self.objects[n as usize].set(index, value_of(item));
            self.last = Change::Slot {
                object: n,
                index,
                before,
            };
        }
    }

    fn read_static(&self, field: u32) -> Item {
        item_of(self.statics[field as usize])
    }

    fn store_static(&mut self, field: u32, item: Item) {
        let before = self.statics[field as usize];
        self.statics[field as usize] = value_of(item);
        self.last = Change::Static { field, before };
    }

    fn alloc(&mut self, shape: u32, slots: u32) -> Result<Ref, Full> {
        let need = 3 + u64::from(slots);
        let left = self.left;
        if left < need {
            return Err(Full {
                which: Which::VolatileWords,
                need,
                left,
            });
        }
        let mut values = self.room.take();
        put_fresh(&mut values, &self.shapes.as_slice()[shape as usize], slots);
        let n = self.objects.len() as u32;
        self.objects.push_reserved(PlainObject::new(shape, values));
        self.left = left - need;
        self.last = Change::Made { left };
        Ok(Ref::Volatile(n))
    }

    ghost null_is_none = { λ heap. refl };

    ghost one_key = { λ heap. one_key_in heap.shapes heap.objects.items heap.statics.items
        heap.left };
}
