// One more object.
ghost use Rattle.std.specs.Prelude.{◌≡◌, ◌+◌, ◌-◌, ◌++◌, ◌<◌, ◌^◌, ◌≤◌, ◌↔◌, length, replicate, IfErr, IfOk, IsErr, IsTrue};
ghost use Rattle.std.specs.Prelude.{OnErr, OnOk};
ghost use Rattle.ap_base.specs.declared.reference.Ref.TheVariants.{Volatile};
ghost use Rattle.run_history.specs.Worlds.{may_have};
ghost use Rattle.run_types.specs.declared.fault.Which.TheVariants.{VolatileWords};
ghost use Rattle.shared_objects.specs.Changes.{Allocates, StoresSlot};
ghost use Rattle.shared_objects.specs.Shown.{HasSlot, IsKnownItem, IsOfSlot, item_value, shape_in};
ghost use Rattle.one_space.specs.Making.{TakesWords};
ghost use Rattle.one_space.specs.Shows.{shown_of};

use crate::OneSpace;
use crate::words::word_of_item;
use ap_base::Item;
use run_types::{Full, Which};
use volatile_space::VolatileSpace;

impl OneSpace {
    /// Places a new object of a class behind all others, with so many slots, and answers its index.
    ///
    /// # Errors
    ///
    /// `Full` exactly where fewer words are left than three and one for each slot.
    pub(crate) fn place(&mut self, shape: u32, slots: u32) -> Result<u32, Full>
        requires shape { shape < length (shown_of self.old).shapes }
        requires few { slots < 2 ^ 31 }
        requires slots { IsTrue (may_have (shape_in (shown_of self.old) shape) slots) }
        ensures index { IfOk result (λ at. at ≡ length self.old.space.words) }
        ensures made { IfOk result
            (λ at. Allocates shape slots (Volatile at) (shown_of self.old) (shown_of self.new)) }
        ensures takes { OnOk result (TakesWords (3 + slots) self.old self.new) }
        ensures within { OnOk result (3 + slots ≤ self.old.space.left) }
        ensures full { IsErr result ↔ ((shown_of self.old).left < 3 + slots) }
        ensures numbers { IfErr result (λ full. full
            ≡ record { which = VolatileWords; need = 3 + slots; left = (shown_of self.old).left }) }
        ensures same { OnErr result (self.new ≡ self.old) }
    {
        let left = self.space.left();
        if left < 3 + slots {
            return Err(Full {
                which: Which::VolatileWords,
                need: 3 + u64::from(slots),
                left: u64::from(left),
            });
        }
        let at = taken_words(&mut self.space, 3 + slots);
        let n = self.starts.len() as u64;
        self.space
            .set(at + 1, u64::from(slots) * 4294967296 + u64::from(shape));
        self.space.set(at + 2, n);
        self.starts.push_reserved(at);
        Ok(at)
    }

    /// Stores an item of the slot's kind to a slot of the object at an index.
    pub(crate) fn put(&mut self, at: u32, index: u32, item: Item)
        requires slot { HasSlot (shown_of self.old) (Volatile at) index }
        requires known { IsKnownItem (shown_of self.old).number item }
        requires kind { IsOfSlot (shown_of self.old) (Volatile at) index (item_value (shown_of
            self.old).number item) }
        ensures stored { StoresSlot (Volatile at) index item (shown_of self.old)
            (shown_of self.new) }
        ensures takes { TakesWords 0 self.old self.new }
    {
        self.space.set(at + 3 + index, word_of_item(item));
    }
}

/// Takes the next words, of which there are enough left.
fn taken_words(space: &mut VolatileSpace, words: u32) -> u32
    requires room { words ≤ space.old.left }
    ensures index { result ≡ length space.old.words }
    ensures zeros { space.new.words ≡ space.old.words ++ replicate words 0 }
    ensures left { space.new.left ≡ space.old.left - words }
{
    space.take(words).unwrap_or(0)
}
