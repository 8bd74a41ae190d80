// What requests' steps read, and the tests of their stores, without a request or a step.
ghost use Rattle.std.specs.Prelude.{◌≡◌, ◌<◌, ℕ, true, slice_get, Some, IfSome};
ghost use Rattle.std.specs.Prelude.{length as length_of};
ghost use Rattle.ap_base.specs.declared.place.Place.TheVariants.{Slot as SlotPlace};
ghost use Rattle.natives.specs.declared.requests.Request.TheVariants as ask;
ghost use Rattle.run_types.specs.declared.resolved.At.{At as From};
ghost use Rattle.plain_model.specs.Duties.{IsInstanceField};
ghost use Rattle.plain_model.specs.Facts.{SetFacts};
ghost use Rattle.plain_model.specs.Kinds.{HasKind};
ghost use Rattle.plain_model.specs.Steps.{reads};
ghost use Rattle.shared_objects.specs.Shown.{IsKnown, IsKnownItem, item_value, object_in, slot_in, static_in};
ghost use Rattle.shared_objects.specs.Worlds.{KnowsMonitors};
ghost use Rattle.step_forms.specs.Follows.{HeapGoes, IsHeapOf, IsHeapStep, IsStep};
ghost use Rattle.step_forms.specs.Needs.{ElementIsHere, HeadIsHere, ItemIsHere, ReferredElementIsHere, ReferredIsHere};
ghost use Rattle.step_forms.specs.Needs.{SlotIsHere, ValueIsHere};
ghost use Rattle.object_steps.specs.declared.storing.Planned.{Planned};
ghost use Rattle.object_steps.specs.Stores.{IsPlan, IsStoreHere};
ghost use Rattle.shared_heap.specs.AtOnce.{class_step, length_step, static_step, step_of};

use ap_base::{Item, Kind, Ref};
use graph_model::Value;
use object_steps::{Store, Target, has_elements, index_below, kind_of_elements, may_hold};
use run_history::Progress;
use run_types::FieldAt;
use shared_objects::{Objects, Rest, Types};
use step_forms::{narrow, numbered, valued};

/// The number of an object, and what a slot of it holds: as an item, and as the value for which it stands.
#[derive(Clone, Copy)]
pub(crate) struct Got {
    pub object: u32,
    pub index: u32,
    pub item: Item,
    pub value: Value,
}

// What a slot of an object holds.
#[inline(always)]
fn got_slot<O: Objects>(objects: &O, holder: Ref, object: u32, index: u32) -> Got
    requires number { (O.shown objects.now).number holder ≡ Some object }
    requires slot { index < length_of (object_in (O.shown objects.now) object).values }
    requires here { O.is_here objects.now object index }
    requires referred { ValueIsHere (O.is_here objects.now)
        (slot_in (O.shown objects.now) object index) }
    ensures step { (set : SetFacts) → HeapGoes (λ world. reads set world (SlotPlace object index))
        (O.shown objects.now) (step_of result) (O.shown objects.now) }
{
    let item = objects.read(holder, index);
    let value = valued(objects, item);
    Got {
        object,
        index,
        item,
        value,
    }
}

/// What a field of an object holds, where the step of a request for it reads it. None where that step throws, or
/// finds a wrong operand.
#[inline(always)]
pub(crate) fn read_field<C: Types, O: Objects>(
    set: &C,
    objects: &O,
    holder: Ref,
    field: FieldAt,
) -> Option<Got>
    requires heap { IsHeapOf (C.facts set.now) (O.shown objects.now) }
    requires field { IsInstanceField (C.facts set.now) field }
    requires known { IsKnown (O.shown objects.now).number holder }
    requires head { HeadIsHere (O.is_here objects.now) (O.shown objects.now) holder }
    requires slot { SlotIsHere (O.is_here objects.now) (O.shown objects.now) holder field.at }
    requires referred { ReferredIsHere (O.is_here objects.now) (O.shown objects.now) holder
        field.at }
    ensures step { IfSome result (λ got. IsHeapStep (C.facts set.now)
        (λ from. ask.GetField from holder field)
        (O.shown objects.now) (step_of got) (O.shown objects.now)) }
{
    let Some(object) = numbered(objects, holder) else {
        return None;
    };
    if !set.is_sub(objects.shape_of(holder), field.class) {
        return None;
    }
    Some(got_slot(objects, holder, object, field.at))
}

/// What an element of an array holds, or a char of a String, where the step of a request for it reads it. None where that step
/// throws, or finds a wrong operand.
#[inline(always)]
pub(crate) fn read_element<C: Types, O: Objects>(
    set: &C,
    objects: &O,
    array: Ref,
    index: i32,
    kind: Kind,
) -> Option<Got>
    requires heap { IsHeapOf (C.facts set.now) (O.shown objects.now) }
    requires known { IsKnown (O.shown objects.now).number array }
    requires head { HeadIsHere (O.is_here objects.now) (O.shown objects.now) array }
    requires slot { ElementIsHere (O.is_here objects.now) (O.shown objects.now) array index }
    requires referred { ReferredElementIsHere (O.is_here objects.now) (O.shown objects.now) array
        index }
    ensures step { IfSome result (λ got. IsHeapStep (C.facts set.now)
        (λ from. ask.GetElement from array index kind)
        (O.shown objects.now) (step_of got) (O.shown objects.now)) }
{
    let Some(object) = numbered(objects, array) else {
        return None;
    };
    if !has_elements(set, kind, objects.shape_of(array)) {
        return None;
    }
    let Some(at) = index_below(index, objects.length_of(array)) else {
        return None;
    };
    Some(got_slot(objects, array, object, at))
}

/// What a static field holds: as an item, and as the value for which it stands.
#[derive(Clone, Copy)]
pub(crate) struct GotStatic {
    pub item: Item,
    pub value: Value,
}

/// Whether a class is initialised.
pub(crate) fn is_finished(rest: &Rest, class: u32) -> bool
    ensures { result ≡ true → slice_get rest.now.classes.items class ≡ Some Progress.Finished }
{
    let at = class as usize;
    if rest.classes.len() <= at {
        return false;
    }
    match rest.classes[at] {
        Progress::Finished => true,
        _ => false,
    }
}

/// What a static field holds, where its class is initialised, so that the step of a request for it reads it. None where the class
/// isn't.
#[inline(always)]
pub(crate) fn read_static<O: Objects>(objects: &O, rest: &Rest, field: FieldAt) -> Option<GotStatic>
    requires there { field.at < length_of (O.shown objects.now).statics }
    requires static_here { O.is_static_here objects.now field.at }
    requires here { ValueIsHere (O.is_here objects.now) (static_in (O.shown objects.now) field.at) }
    ensures step { IfSome result (λ got. (set : SetFacts) (t : ℕ) (from : From)
        → KnowsMonitors (O.shown objects.now) rest.now → IsStep set t (ask.GetStatic from field)
        (O.shown objects.now) rest.now (static_step field.at got) (O.shown objects.now) rest.now) }
{
    if !is_finished(rest, field.class) {
        return None;
    }
    let item = objects.read_static(field.at);
    let value = valued(objects, item);
    Some(GotStatic { item, value })
}

/// The number of an array or a String, and its length: as it is, and as the item that tells it.
#[derive(Clone, Copy)]
pub(crate) struct Measured {
    pub object: u32,
    pub length: u32,
    pub item: Item,
}

/// The length of an array or a String, where the step of a request for it tells it. None where that step throws, or finds a
/// wrong operand.
#[inline(always)]
pub(crate) fn read_length<C: Types, O: Objects>(
    set: &C,
    objects: &O,
    array: Ref,
) -> Option<Measured>
    requires heap { IsHeapOf (C.facts set.now) (O.shown objects.now) }
    requires known { IsKnown (O.shown objects.now).number array }
    requires head { HeadIsHere (O.is_here objects.now) (O.shown objects.now) array }
    ensures step { IfSome result (λ got. IsHeapStep (C.facts set.now) (λ from. ask.Length from array)
        (O.shown objects.now) (length_step got) (O.shown objects.now)) }
{
    let Some(object) = numbered(objects, array) else {
        return None;
    };
    if set.element(objects.shape_of(array)).is_none() {
        return None;
    }
    let length = objects.length_of(array);
    let item = Item::Int(length as i32);
    Some(Measured {
        object,
        length,
        item,
    })
}

/// What a request to store to a field of an object stores, where its tests are passed. None where its step throws, or
/// finds a wrong operand.
#[inline(always)]
pub(crate) fn planned_field<C: Types, O: Objects>(
    set: &C,
    objects: &O,
    holder: Ref,
    field: FieldAt,
    value: Item,
) -> Option<Store>
    requires heap { IsHeapOf (C.facts set.now) (O.shown objects.now) }
    requires field { IsInstanceField (C.facts set.now) field }
    requires kind { HasKind field.kind (item_value (O.shown objects.now).number value) }
    requires known { IsKnown (O.shown objects.now).number holder }
    requires known_value { IsKnownItem (O.shown objects.now).number value }
    requires head { HeadIsHere (O.is_here objects.now) (O.shown objects.now) holder }
    requires slot { SlotIsHere (O.is_here objects.now) (O.shown objects.now) holder field.at }
    requires value { ItemIsHere (O.is_here objects.now) (O.shown objects.now) value }
    ensures plan { IfSome result (λ store. IsPlan (C.facts set.now) (λ from. ask.PutField from holder field value)
        (O.shown objects.now) (Planned.Stores store) (O.shown objects.now)) }
    ensures here { IfSome result (IsStoreHere (O.is_here objects.now) (O.is_static_here objects.now)
        (O.shown objects.now)) }
{
    let Some(object) = numbered(objects, holder) else {
        return None;
    };
    if !set.is_sub(objects.shape_of(holder), field.class) {
        return None;
    }
    Some(Store {
        target: Target::Slot {
            holder,
            object,
            index: field.at,
        },
        kept: narrow(field.kind, value),
    })
}

/// The number of an object, and its class.
#[derive(Clone, Copy)]
pub(crate) struct Classed {
    pub object: u32,
    pub class: u32,
}

/// The class of an object that is a subtype of `within`. None where the step of a request for it throws, or finds a wrong
/// operand.
#[inline(always)]
pub(crate) fn read_class<C: Types, O: Objects>(
    set: &C,
    objects: &O,
    object: Ref,
    within: u32,
) -> Option<Classed>
    requires heap { IsHeapOf (C.facts set.now) (O.shown objects.now) }
    requires known { IsKnown (O.shown objects.now).number object }
    requires head { HeadIsHere (O.is_here objects.now) (O.shown objects.now) object }
    ensures step { IfSome result (λ got. IsHeapStep (C.facts set.now) (λ from. ask.ClassOf from object within)
        (O.shown objects.now) (class_step got) (O.shown objects.now)) }
{
    let Some(n) = numbered(objects, object) else {
        return None;
    };
    let shape = objects.shape_of(object);
    if !set.is_sub(shape, within) {
        return None;
    }
    Some(Classed {
        object: n,
        class: shape,
    })
}

/// What a request to store to an element of an array stores, where its tests are passed. None where its step throws, or finds a
/// wrong operand.
#[inline(always)]
pub(crate) fn planned_element<C: Types, O: Objects>(
    set: &C,
    objects: &O,
    array: Ref,
    index: i32,
    kind: Kind,
    value: Item,
) -> Option<Store>
    requires heap { IsHeapOf (C.facts set.now) (O.shown objects.now) }
    requires kind { HasKind kind (item_value (O.shown objects.now).number value) }
    requires known { IsKnown (O.shown objects.now).number array }
    requires known_value { IsKnownItem (O.shown objects.now).number value }
    requires head { HeadIsHere (O.is_here objects.now) (O.shown objects.now) array }
    requires slot { ElementIsHere (O.is_here objects.now) (O.shown objects.now) array index }
    requires value { ItemIsHere (O.is_here objects.now) (O.shown objects.now) value }
    ensures plan { IfSome result (λ store. IsPlan (C.facts set.now) (λ from. ask.PutElement from array index kind value)
        (O.shown objects.now) (Planned.Stores store) (O.shown objects.now)) }
    ensures here { IfSome result (IsStoreHere (O.is_here objects.now) (O.is_static_here objects.now)
        (O.shown objects.now)) }
{
    let Some(object) = numbered(objects, array) else {
        return None;
    };
    let class = objects.shape_of(array);
    if !has_elements(set, kind, class) {
        return None;
    }
    let Some(at) = index_below(index, objects.length_of(array)) else {
        return None;
    };
    if !may_hold(set, objects, kind, class, value) {
        return None;
    }
    Some(Store {
        target: Target::Slot {
            holder: array,
            object,
            index: at,
        },
        kept: narrow(kind_of_elements(set, class, kind), value),
    })
}
