// A heap of objects, as steps use it.
ghost use Rattle.std.specs.Prelude.{◌≡◌, ◌<◌, ◌≤◌, ◌+◌, ◌^◌, ◌↔◌, ℕ, IfErr, IfOk, IsErr, IsSome, IsTrue, None, OnErr, OnOk};
ghost use Rattle.std.specs.Prelude.{Some, length, true};
ghost use Rattle.ap_base.specs.declared.reference.Ref.TheVariants.{Null};
ghost use Rattle.ap_base.specs.declared.reference.Item.{Item as KeptItem};
ghost use Rattle.ap_base.specs.declared.place.Place.{Place};
ghost use Rattle.ap_base.specs.declared.place.Place.TheVariants.{Slot, Static};
ghost use Rattle.run_types.specs.declared.fault.Which.TheVariants.{VolatileWords};
ghost use Rattle.run_history.specs.Worlds.{may_have};
ghost use Rattle.shared_objects.specs.Shown.{HasOneKey, HasSlot, IfNumber, IsKnownItem, IsOfSlot, IsSameForm, Shown};
ghost use Rattle.shared_objects.specs.Shown.{item_value, object_in, shape_in, slot_in, static_in};
ghost use Rattle.shared_objects.specs.Changes.{Allocates, StoresSlot, StoresStatic};

use ap_base::{Item, Ref};
use run_types::Full;

/// A heap of objects that may move, with the static fields. Each object has a number for good, in
/// the order in which objects were
/// made. References stand for numbers, several maybe for one.
pub trait Objects {
    /// What it shows.
    ghost shown: { Self → Shown };

    /// Whether the head of object `n` and the word of its slot `i` can be read and stored to now.
    /// For slot 0 of an object without
    /// slots: the head alone.
    ghost is_here: { Self → ℕ → ℕ → Type 0 };

    /// Whether the word of a static field can be read and stored to now.
    ghost is_static_here: { Self → ℕ → Type 0 };

    /// Whether a place may keep an item now. The instance says what it asks of its caller, as that
    /// an item has been converted before a durable place keeps it.
    ghost may_store: { Self → Place → KeptItem → Type 0 };

    /// Whether the heap can take a new object now, if it has the words. The instance says what it asks
    /// of its caller.
    ghost may_make: { Self → Type 0 };

    /// What a store of an item to a place makes of the whole heap, and not only of what it shows.
    ghost stores: { Self → Place → KeptItem → Self → Type 0 };

    /// What a new object makes of the whole heap.
    ghost makes: { Self → Self → Type 0 };

    /// The number of an object.
    fn number_of(&self, object: Ref) -> u32
        requires object { IsSome ((shown self.now).number object) }
        requires here { IfNumber ((shown self.now).number object) (λ n. is_here self.now n 0) }
        ensures number { (shown self.now).number object ≡ Some result }
        ensures below { result < length (shown self.now).objects };

    /// The number of an object's class.
    fn shape_of(&self, object: Ref) -> u32
        requires object { IsSome ((shown self.now).number object) }
        requires here { IfNumber ((shown self.now).number object) (λ n. is_here self.now n 0) }
        ensures shape { (n : ℕ) → (shown self.now).number object ≡ Some n
            → result ≡ (object_in (shown self.now) n).shape }
        ensures class { result < length (shown self.now).shapes };

    /// How many slots an object has.
    fn length_of(&self, object: Ref) -> u32
        requires object { IsSome ((shown self.now).number object) }
        requires here { IfNumber ((shown self.now).number object) (λ n. is_here self.now n 0) }
        ensures length { (n : ℕ) → (shown self.now).number object ≡ Some n
            → result ≡ length (object_in (shown self.now) n).values }
        ensures few { result < 2 ^ 31 };

    /// The reference under which the monitor of an object is held.
    fn key_of(&self, object: Ref) -> Ref
        requires object { IsSome ((shown self.now).number object) }
        requires here { IfNumber ((shown self.now).number object) (λ n. is_here self.now n 0) }
        ensures number { (shown self.now).number result ≡ (shown self.now).number object }
        ensures key { (shown self.now).is_key result ≡ true };

    /// What a slot holds.
    fn read(&self, object: Ref, index: u32) -> Item
        requires slot { HasSlot (shown self.now) object index }
        requires here { IfNumber ((shown self.now).number object) (λ n. is_here self.now n index) }
        ensures value { (n : ℕ) → (shown self.now).number object ≡ Some n
            → item_value (shown self.now).number result ≡ slot_in (shown self.now) n index }
        ensures known { IsKnownItem (shown self.now).number result };

    /// Stores an item of the slot's kind. What is shown of it is its number; `stores` may say which
    /// of its object's references the slot keeps.
    fn store(&mut self, object: Ref, index: u32, item: Item)
        requires slot { HasSlot (shown self.old) object index }
        requires here { IfNumber ((shown self.old).number object) (λ n. is_here self.old n index) }
        requires known { IsKnownItem (shown self.old).number item }
        requires kind { IsOfSlot (shown self.old) object index (item_value (shown self.old).number
            item) }
        requires may { IfNumber ((shown self.old).number object)
            (λ n. may_store self.old (Slot n index) item) }
        ensures stored { StoresSlot object index item (shown self.old) (shown self.new) }
        ensures heap { (n : ℕ) → (shown self.old).number object ≡ Some n
            → stores self.old (Slot n index) item self.new };

    /// What a static field holds, by its number.
    fn read_static(&self, field: u32) -> Item
        requires there { field < length (shown self.now).statics }
        requires here { is_static_here self.now field }
        ensures value { item_value (shown self.now).number result ≡ static_in (shown self.now)
            field }
        ensures known { IsKnownItem (shown self.now).number result };

    /// Stores to a static field an item of the form of what it holds.
    fn store_static(&mut self, field: u32, item: Item)
        requires there { field < length (shown self.old).statics }
        requires here { is_static_here self.old field }
        requires known { IsKnownItem (shown self.old).number item }
        requires form { IsSameForm (static_in (shown self.old) field)
            (item_value (shown self.old).number item) }
        requires may { may_store self.old (Static field) item }
        ensures stored { StoresStatic field item (shown self.old) (shown self.new) }
        ensures heap { stores self.old (Static field) item self.new };

    /// A new object of a class, with so many slots. It takes three words and one for each slot.
    ///
    /// # Errors
    ///
    /// `Full` exactly where fewer words are left. The heap is as it was then.
    fn alloc(&mut self, shape: u32, slots: u32) -> Result<Ref, Full>
        requires shape { shape < length (shown self.old).shapes }
        requires few { slots < 2 ^ 31 }
        requires slots { IsTrue (may_have (shape_in (shown self.old) shape) slots) }
        requires may { may_make self.old }
        ensures made { IfOk result (λ object. Allocates shape slots object (shown self.old) (shown
            self.new)) }
        ensures heap { OnOk result (makes self.old self.new) }
        ensures here { OnOk result (is_here self.new (length (shown self.old).objects) 0) }
        ensures full { IsErr result ↔ ((shown self.old).left < 3 + slots) }
        ensures numbers { IfErr result (λ full. full
            ≡ record { which = VolatileWords; need = 3 + slots; left = (shown self.old).left }) }
        ensures same { OnErr result (self.new ≡ self.old) };

    /// Null stands for no object.
    ghost null_is_none: { (heap : Self) → (shown heap).number Null ≡ None };

    /// An object has at most one reference under which its monitor is held.
    ghost one_key: { (heap : Self) → HasOneKey (shown heap) };
}
