// Stores to fields and elements.
ghost use Rattle.std.specs.Prelude.{◌<◌, length};
ghost use Rattle.natives.specs.declared.requests.Request.TheVariants as ask;
ghost use Rattle.run_types.specs.declared.resolved.At.{At as From};
ghost use Rattle.plain_model.specs.Duties.{IsInstanceField};
ghost use Rattle.plain_model.specs.Facts.{SetFacts};
ghost use Rattle.plain_model.specs.Kinds.{HasKind};
ghost use Rattle.shared_objects.specs.Shown.{IsKnown, IsKnownItem, item_value, static_in};
ghost use Rattle.shared_objects.specs.Worlds.{KnowsMonitors};
ghost use Rattle.step_forms.specs.Becomes.{Becomes, MayKeep};
ghost use Rattle.step_forms.specs.Follows.{IsHeapOf, IsHeapStep, IsStep};
ghost use Rattle.step_forms.specs.Needs.{ElementIsHere, HeadIsHere, ItemIsHere, SlotIsHere};
ghost use Rattle.object_steps.specs.Stores.{IsStaticStoreOf, IsStoreOf, StoresOf};

use crate::commits::commit;
use crate::plans::{plan_element, plan_field, plan_static};
use ap_base::{Item, Kind, Ref, ThreadNo};
use run_types::FieldAt;
use shared_objects::{Objects, Rest, Types};
use step_forms::Stepped;

/// Where a store goes: a static field by its number, or a slot of an object, by a reference and the
/// object's number.
#[derive(Clone, Copy)]
pub enum Target {
    Static(u32),
    Slot {
        holder: Ref,
        object: u32,
        index: u32,
    },
}

/// A store whose tests are passed: where it goes, and what the place is to keep.
#[derive(Clone, Copy)]
pub struct Store {
    pub target: Target,
    pub kept: Item,
}

/// What the tests of a store request come to: the store is to be made, or the step is over without
/// one.
#[derive(Drop)]
pub enum Planned {
    Stores(Store),
    Ends(Stepped),
}

/// Stores to a static field, which holds a value of its kind, once its class is initialised.
pub fn put_static<O: Objects>(
    objects: &mut O,
    rest: &mut Rest,
    t: ThreadNo,
    field: FieldAt,
    value: Item,
) -> Stepped
    requires class { field.class < length rest.old.classes.items }
    requires there { field.at < length (O.shown objects.old).statics }
    requires held { HasKind field.kind (static_in (O.shown objects.old) field.at) }
    requires kind { HasKind field.kind (item_value (O.shown objects.old).number value) }
    requires known { IsKnownItem (O.shown objects.old).number value }
    requires static_here { O.is_static_here objects.old field.at }
    requires here { ItemIsHere (O.is_here objects.old) (O.shown objects.old) value }
    requires may { MayKeep (O.may_store objects.old) value
        (IsStaticStoreOf t (λ from. ask.PutStatic from field value)
        (O.shown objects.old) rest.old) }
    ensures step { (set : SetFacts) (from : From) → KnowsMonitors (O.shown objects.old) rest.old
        → IsStep set t (ask.PutStatic from field value)
        (O.shown objects.old) rest.old result (O.shown objects.new) rest.new }
    ensures heap { Becomes O.shown O.stores O.makes objects.old result objects.new }
    ensures given { StoresOf O.shown O.stores objects.old value result objects.new }
{
    match plan_static(objects, rest, t, field, value) {
        Planned::Ends(result) => result,
        Planned::Stores(store) => commit(objects, store),
    }
}

/// Stores to a field of an object.
pub fn put_field<C: Types, O: Objects>(
    set: &C,
    objects: &mut O,
    holder: Ref,
    field: FieldAt,
    value: Item,
) -> Stepped
    requires heap { IsHeapOf (C.facts set.now) (O.shown objects.old) }
    requires field { IsInstanceField (C.facts set.now) field }
    requires kind { HasKind field.kind (item_value (O.shown objects.old).number value) }
    requires known { IsKnown (O.shown objects.old).number holder }
    requires known_value { IsKnownItem (O.shown objects.old).number value }
    requires head { HeadIsHere (O.is_here objects.old) (O.shown objects.old) holder }
    requires slot { SlotIsHere (O.is_here objects.old) (O.shown objects.old) holder field.at }
    requires value { ItemIsHere (O.is_here objects.old) (O.shown objects.old) value }
    requires may { MayKeep (O.may_store objects.old) value
        (IsStoreOf (C.facts set.now) (λ from. ask.PutField from holder field value)
        (O.shown objects.old)) }
    requires make { O.may_make objects.old }
    ensures step { IsHeapStep (C.facts set.now) (λ from. ask.PutField from holder field value)
        (O.shown objects.old) result (O.shown objects.new) }
    ensures heap { Becomes O.shown O.stores O.makes objects.old result objects.new }
    ensures given { StoresOf O.shown O.stores objects.old value result objects.new }
{
    match plan_field(set, objects, holder, field, value) {
        Planned::Ends(result) => result,
        Planned::Stores(store) => commit(objects, store),
    }
}

/// Stores to an element of an array.
pub fn put_element<C: Types, O: Objects>(
    set: &C,
    objects: &mut O,
    array: Ref,
    index: i32,
    kind: Kind,
    value: Item,
) -> Stepped
    requires heap { IsHeapOf (C.facts set.now) (O.shown objects.old) }
    requires kind { HasKind kind (item_value (O.shown objects.old).number value) }
    requires known { IsKnown (O.shown objects.old).number array }
    requires known_value { IsKnownItem (O.shown objects.old).number value }
    requires head { HeadIsHere (O.is_here objects.old) (O.shown objects.old) array }
    requires slot { ElementIsHere (O.is_here objects.old) (O.shown objects.old) array index }
    requires value { ItemIsHere (O.is_here objects.old) (O.shown objects.old) value }
    requires may { MayKeep (O.may_store objects.old) value
        (IsStoreOf (C.facts set.now) (λ from. ask.PutElement from array index kind value)
        (O.shown objects.old)) }
    requires make { O.may_make objects.old }
    ensures step { IsHeapStep (C.facts set.now) (λ from. ask.PutElement from array index kind value)
        (O.shown objects.old) result (O.shown objects.new) }
    ensures heap { Becomes O.shown O.stores O.makes objects.old result objects.new }
    ensures given { StoresOf O.shown O.stores objects.old value result objects.new }
{
    match plan_element(set, objects, array, index, kind, value) {
        Planned::Ends(result) => result,
        Planned::Stores(store) => commit(objects, store),
    }
}
