// What steps ask of it.
ghost use Rattle.std.specs.Prelude.{length};

use crate::TwoSpaces;
use crate::spaces::Static;
use crate::words::{kept_word, read_root, store_root};
use ap_base::{Item, Ref};
use line_image::Image;
use one_space::item_of;
use run_types::{Full, Which};
use shared_objects::Objects;

impl<I: Image> Objects for TwoSpaces<I> {
    ghost use Rattle.two_spaces.specs.Laws.{null_is_no_object, one_key_each};
    ghost use Rattle.twin_forms.specs.Sights.{sight};
    ghost use Rattle.two_spaces.specs.Seen.{shown_of};
    ghost use Rattle.two_spaces.specs.Whole.{IsHereIn, IsStaticHereIn, IsWhole, MakesIn, MayStoreIn, StoresIn};

    ghost shown = { λ s. shown_of (record {
      twin = record { space = s.heap.space; memory = s.heap.memory; marks = s.heap.marks };
      shapes = s.shapes;
      classes = s.classes.items;
      numbers = s.numbers.items;
      statics = s.statics.items;
    }) };

    ghost is_here = { λ s n i. IsHereIn (record {
      twin = record { space = s.heap.space; memory = s.heap.memory; marks = s.heap.marks };
      shapes = s.shapes;
      classes = s.classes.items;
      numbers = s.numbers.items;
      statics = s.statics.items;
    }) n i };

    ghost is_static_here = { λ s f. IsStaticHereIn (record {
      twin = record { space = s.heap.space; memory = s.heap.memory; marks = s.heap.marks };
      shapes = s.shapes;
      classes = s.classes.items;
      numbers = s.numbers.items;
      statics = s.statics.items;
    }) f };

    ghost may_store = { λ s p item. MayStoreIn (record {
      twin = record { space = s.heap.space; memory = s.heap.memory; marks = s.heap.marks };
      shapes = s.shapes;
      classes = s.classes.items;
      numbers = s.numbers.items;
      statics = s.statics.items;
    }) p item };

    ghost may_make = { λ s. IsWhole (record {
      twin = record { space = s.heap.space; memory = s.heap.memory; marks = s.heap.marks };
      shapes = s.shapes;
      classes = s.classes.items;
      numbers = s.numbers.items;
      statics = s.statics.items;
    }) };

    ghost stores = { λ s p item now. StoresIn (record {
      twin = record { space = s.heap.space; memory = s.heap.memory; marks = s.heap.marks };
      shapes = s.shapes;
      classes = s.classes.items;
      numbers = s.numbers.items;
      statics = s.statics.items;
    }) p item (record {
      twin = record { space = now.heap.space; memory = now.heap.memory; marks = now.heap.marks };
      shapes = now.shapes;
      classes = now.classes.items;
      numbers = now.numbers.items;
      statics = now.statics.items;
    }) };

    ghost makes = { λ s now. MakesIn (record {
      twin = record { space = s.heap.space; memory = s.heap.memory; marks = s.heap.marks };
      shapes = s.shapes;
      classes = s.classes.items;
      numbers = s.numbers.items;
      statics = s.statics.items;
    }) (record {
      twin = record { space = now.heap.space; memory = now.heap.memory; marks = now.heap.marks };
      shapes = now.shapes;
      classes = now.classes.items;
      numbers = now.numbers.items;
      statics = now.statics.items;
    }) };

    fn number_of(&self, object: Ref) -> u32 {
        self.heap.number_of(object)
    }

    fn shape_of(&self, object: Ref) -> u32 {
        let shape = self.heap.shape_of(object);
        self.classes[shape as usize]
    }

    fn length_of(&self, object: Ref) -> u32 {
        self.heap.length_of(object)
    }

    fn key_of(&self, object: Ref) -> Ref {
        self.heap.resolved(object)
    }

    fn read(&self, object: Ref, index: u32) -> Item {
        item_of(
            self.heap.kind_at(object, index),
            self.heap.read_slot(object, index),
        )
    }

    fn store(&mut self, object: Ref, index: u32, item: Item) {
        let word = kept_word(&self.heap, item);
        self.heap.plain_store(object, index, word);
    }

    fn read_static(&self, field: u32) -> Item {
        match self.statics[field as usize] {
            Static::Beside(item) => item,
            Static::Root(slot) => read_root(&self.heap.memory, slot),
        }
    }

    fn store_static(&mut self, field: u32, item: Item) {
        match self.statics[field as usize] {
            Static::Beside(_) => {
                self.statics[field as usize] = Static::Beside(item);
            }
            Static::Root(slot) => {
                let word = kept_word(&self.heap, item);
                store_root(&mut self.heap.memory, slot, word);
            }
        }
    }

    fn alloc(&mut self, shape: u32, slots: u32) -> Result<Ref, Full> {
        let left = self.heap.space.left();
        let number = self.numbers[shape as usize];
        match self.heap.alloc(number, slots) {
            Some(object) => Ok(object),
            None => Err(Full {
                which: Which::VolatileWords,
                need: 3 + u64::from(slots),
                left: u64::from(left),
            }),
        }
    }

    ghost null_is_none = { λ s. null_is_no_object (sight s.heap.space s.heap.memory s.heap.marks) };

    ghost one_key = { λ s. one_key_each s.shapes s.classes.items s.statics.items
        (sight s.heap.space s.heap.memory s.heap.marks) };
}
