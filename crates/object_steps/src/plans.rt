// The tests of store requests.
ghost use Rattle.std.specs.Prelude.{◌≡◌, ◌<◌, length, unwrap_or};
ghost use Rattle.natives.specs.declared.requests.Request.TheVariants as ask;
ghost use Rattle.plain_model.specs.Duties.{IsInstanceField};
ghost use Rattle.plain_model.specs.Kinds.{HasKind};
ghost use Rattle.plain_model.specs.Facts.{classes_of, element_of};
ghost use Rattle.shared_objects.specs.Shown.{IsKnown, IsKnownItem, item_value, static_in};
ghost use Rattle.step_forms.specs.Becomes.{IsNoStore, IsQuiet};
ghost use Rattle.step_forms.specs.Follows.{IsHeapOf};
ghost use Rattle.step_forms.specs.Needs.{ElementIsHere, HeadIsHere, ItemIsHere, SlotIsHere};
ghost use Rattle.object_steps.specs.Stores.{IsPlan, IsStaticPlan, IfEnds, IfStores, IsKeptOf, IsStoreHere, PlanBecomes};
ghost use Rattle.object_steps.specs.Stores.{holds_by_class};

use crate::finding::{has_elements, index_below};
use crate::{Planned, Store, Target};
use ap_base::{Item, Kind, Ref, ThreadNo};
use plain_model::Throws;
use run_types::FieldAt;
use shared_objects::{Objects, Rest, Types};
use step_forms::{Stepped, initialise_first, narrow, numbered, throw};

/// The tests of a store to a static field, which holds a value of its kind.
pub fn plan_static<O: Objects>(
    objects: &O,
    rest: &mut Rest,
    t: ThreadNo,
    field: FieldAt,
    value: Item,
) -> Planned
    requires class { field.class < length rest.old.classes.items }
    requires there { field.at < length (O.shown objects.now).statics }
    requires held { HasKind field.kind (static_in (O.shown objects.now) field.at) }
    requires kind { HasKind field.kind (item_value (O.shown objects.now).number value) }
    requires known { IsKnownItem (O.shown objects.now).number value }
    requires static_here { O.is_static_here objects.now field.at }
    requires here { ItemIsHere (O.is_here objects.now) (O.shown objects.now) value }
    ensures plan { IsStaticPlan t (λ from. ask.PutStatic from field value)
        (O.shown objects.now) rest.old result rest.new }
    ensures here { IfStores result (IsStoreHere (O.is_here objects.now)
        (O.is_static_here objects.now) (O.shown objects.now)) }
    ensures kept { IfStores result (λ store. IsKeptOf value store.kept) }
    ensures quiet { IfEnds result IsQuiet }
{
    if let Some(first) = initialise_first(rest, t, field.class) {
        return Planned::Ends(first);
    }
    Planned::Stores(Store {
        target: Target::Static(field.at),
        kept: narrow(field.kind, value),
    })
}

/// The tests of a store to a field of an object.
pub fn plan_field<C: Types, O: Objects>(
    set: &C,
    objects: &mut O,
    holder: Ref,
    field: FieldAt,
    value: Item,
) -> Planned
    requires heap { IsHeapOf (C.facts set.now) (O.shown objects.old) }
    requires field { IsInstanceField (C.facts set.now) field }
    requires kind { HasKind field.kind (item_value (O.shown objects.old).number value) }
    requires known { IsKnown (O.shown objects.old).number holder }
    requires known_value { IsKnownItem (O.shown objects.old).number value }
    requires head { HeadIsHere (O.is_here objects.old) (O.shown objects.old) holder }
    requires slot { SlotIsHere (O.is_here objects.old) (O.shown objects.old) holder field.at }
    requires value { ItemIsHere (O.is_here objects.old) (O.shown objects.old) value }
    requires make { O.may_make objects.old }
    ensures plan { IsPlan (C.facts set.now) (λ from. ask.PutField from holder field value)
        (O.shown objects.old) result (O.shown objects.new) }
    ensures here { IfStores result (IsStoreHere (O.is_here objects.new)
        (O.is_static_here objects.new) (O.shown objects.new)) }
    ensures kept { IfStores result (λ store. IsKeptOf value store.kept) }
    ensures heap { PlanBecomes O.shown O.stores O.makes objects.old result objects.new }
    ensures no_store { IfEnds result IsNoStore }
{
    let Some(object) = numbered(objects, holder) else {
        return Planned::Ends(throw(set, objects, Throws::NullPointer));
    };
    if !set.is_sub(objects.shape_of(holder), field.class) {
        return Planned::Ends(Stepped::Wrong);
    }
    Planned::Stores(Store {
        target: Target::Slot {
            holder,
            object,
            index: field.at,
        },
        kept: narrow(field.kind, value),
    })
}

/// Whether an array of a class may hold an item that a request for a kind gives.
pub fn may_hold<C: Types, O: Objects>(
    set: &C,
    objects: &O,
    kind: Kind,
    class: u32,
    value: Item,
) -> bool
    requires there { class < length (O.shown objects.now).shapes }
    requires heap { IsHeapOf (C.facts set.now) (O.shown objects.now) }
    requires known { IsKnownItem (O.shown objects.now).number value }
    requires here { ItemIsHere (O.is_here objects.now) (O.shown objects.now) value }
    ensures { result ≡ holds_by_class (C.facts set.now) (O.shown objects.now) kind class
        (item_value (O.shown objects.now).number value) }
{
    match (kind, value) {
        (Kind::L, Item::Ref(r)) => match r {
            Ref::Null => true,
            _ => set.may_hold(class, objects.shape_of(r)),
        },
        _ => true,
    }
}

/// The kind of the elements of a class's objects; this one where there are none.
pub fn kind_of_elements<C: Types>(set: &C, class: u32, kind: Kind) -> Kind
    requires there { class < length (classes_of (C.facts set.now)) }
    ensures { result ≡ unwrap_or (element_of (C.facts set.now) class) kind }
{
    match set.element(class) {
        Some(element) => element,
        None => kind,
    }
}

/// The tests of a store to an element of an array.
pub fn plan_element<C: Types, O: Objects>(
    set: &C,
    objects: &mut O,
    array: Ref,
    index: i32,
    kind: Kind,
    value: Item,
) -> Planned
    requires heap { IsHeapOf (C.facts set.now) (O.shown objects.old) }
    requires kind { HasKind kind (item_value (O.shown objects.old).number value) }
    requires known { IsKnown (O.shown objects.old).number array }
    requires known_value { IsKnownItem (O.shown objects.old).number value }
    requires head { HeadIsHere (O.is_here objects.old) (O.shown objects.old) array }
    requires slot { ElementIsHere (O.is_here objects.old) (O.shown objects.old) array index }
    requires value { ItemIsHere (O.is_here objects.old) (O.shown objects.old) value }
    requires make { O.may_make objects.old }
    ensures plan { IsPlan (C.facts set.now) (λ from. ask.PutElement from array index kind value)
        (O.shown objects.old) result (O.shown objects.new) }
    ensures here { IfStores result (IsStoreHere (O.is_here objects.new)
        (O.is_static_here objects.new) (O.shown objects.new)) }
    ensures kept { IfStores result (λ store. IsKeptOf value store.kept) }
    ensures heap { PlanBecomes O.shown O.stores O.makes objects.old result objects.new }
    ensures no_store { IfEnds result IsNoStore }
{
    let Some(object) = numbered(objects, array) else {
        return Planned::Ends(throw(set, objects, Throws::NullPointer));
    };
    let class = objects.shape_of(array);
    if !has_elements(set, kind, class) {
        return Planned::Ends(Stepped::Wrong);
    }
    let Some(at) = index_below(index, objects.length_of(array)) else {
        return Planned::Ends(throw(set, objects, Throws::ArrayIndexOutOfBounds));
    };
    if !may_hold(set, objects, kind, class, value) {
        return Planned::Ends(throw(set, objects, Throws::ArrayStore));
    }
    Planned::Stores(Store {
        target: Target::Slot {
            holder: array,
            object,
            index: at,
        },
        kept: narrow(kind_of_elements(set, class, kind), value),
    })
}
