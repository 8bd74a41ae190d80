// Stores whose tests are passed.
ghost use Rattle.std.specs.Prelude.{◌≡◌, ◌<◌, Some, length};
ghost use Rattle.ap_base.specs.declared.place.Place.TheVariants.{Slot as SlotPlace, Static as StaticPlace};
ghost use Rattle.shared_objects.specs.Shown.{IsKnownItem, IsOfKindIn, IsSameForm, item_value, object_in, slot_kind, static_in};
ghost use Rattle.step_forms.specs.Follows.{HeapGoes, stored_as};
ghost use Rattle.step_forms.specs.Needs.{ItemIsHere};
ghost use Rattle.object_steps.specs.Stores.{CanStore, IsStoreHere, place_of, stored_by};

use crate::{Store, Target};
use ap_base::{Item, Place, Ref};
use natives::Reply;
use run_history::Op;
use shared_objects::Objects;
use step_forms::{Stepped, valued};

fn commit_static<O: Objects>(objects: &mut O, field: u32, kept: Item) -> Stepped
    requires there { field < length (O.shown objects.old).statics }
    requires here { O.is_static_here objects.old field }
    requires known { IsKnownItem (O.shown objects.old).number kept }
    requires form { IsSameForm (static_in (O.shown objects.old) field) (item_value (O.shown
        objects.old).number kept) }
    requires value { ItemIsHere (O.is_here objects.old) (O.shown objects.old) kept }
    requires may { O.may_store objects.old (StaticPlace field) kept }
    ensures step { HeapGoes
        (λ world. stored_as (StaticPlace field) (item_value (O.shown objects.old).number kept))
        (O.shown objects.old) result (O.shown objects.new) }
    ensures did { result ≡ stored_by (StaticPlace field)
        (item_value (O.shown objects.old).number kept) }
    ensures heap { O.stores objects.old (StaticPlace field) kept objects.new }
{
    let value = valued(objects, kept);
    objects.store_static(field, kept);
    let place = Place::Static(field);
    Stepped::Did {
        op: Op::Stored { place, value },
        reply: Reply::Done,
    }
}

fn commit_slot<O: Objects>(
    objects: &mut O,
    holder: Ref,
    object: u32,
    index: u32,
    kept: Item,
) -> Stepped
    requires number { (O.shown objects.old).number holder ≡ Some object }
    requires slot { index < length (object_in (O.shown objects.old) object).values }
    requires kind { IsOfKindIn (slot_kind (O.shown objects.old) object index)
        (item_value (O.shown objects.old).number kept) }
    requires known { IsKnownItem (O.shown objects.old).number kept }
    requires here { O.is_here objects.old object index }
    requires value { ItemIsHere (O.is_here objects.old) (O.shown objects.old) kept }
    requires may { O.may_store objects.old (SlotPlace object index) kept }
    ensures step { HeapGoes
        (λ world. stored_as (SlotPlace object index) (item_value (O.shown objects.old).number kept))
        (O.shown objects.old) result (O.shown objects.new) }
    ensures did { result ≡ stored_by (SlotPlace object index)
        (item_value (O.shown objects.old).number kept) }
    ensures heap { O.stores objects.old (SlotPlace object index) kept objects.new }
{
    let value = valued(objects, kept);
    objects.store(holder, index, kept);
    let place = Place::Slot { object, index };
    Stepped::Did {
        op: Op::Stored { place, value },
        reply: Reply::Done,
    }
}

/// Makes a store whose tests are passed.
pub fn commit<O: Objects>(objects: &mut O, store: Store) -> Stepped
    requires can { CanStore (O.shown objects.old) store }
    requires here { IsStoreHere (O.is_here objects.old) (O.is_static_here objects.old)
        (O.shown objects.old) store }
    requires may { O.may_store objects.old (place_of store.target) store.kept }
    ensures step { HeapGoes
        (λ world. stored_as (place_of store.target) (item_value (O.shown objects.old).number
        store.kept))
        (O.shown objects.old) result (O.shown objects.new) }
    ensures did { result ≡ stored_by (place_of store.target)
        (item_value (O.shown objects.old).number store.kept) }
    ensures heap { O.stores objects.old (place_of store.target) store.kept objects.new }
{
    match store.target {
        Target::Static(field) => commit_static(objects, field, store.kept),
        Target::Slot {
            holder,
            object,
            index,
        } => commit_slot(objects, holder, object, index, store.kept),
    }
}
