// What fields and elements hold, and how long arrays are.
ghost use Rattle.std.specs.Prelude.{◌≡◌, ◌<◌, Some};
ghost use Rattle.std.specs.Prelude.{length as length_of};
ghost use Rattle.ap_base.specs.declared.place.Place.TheVariants.{Slot as SlotPlace};
ghost use Rattle.natives.specs.declared.requests.Request.TheVariants as ask;
ghost use Rattle.run_types.specs.declared.resolved.At.{At as From};
ghost use Rattle.plain_model.specs.Duties.{IsInstanceField};
ghost use Rattle.plain_model.specs.Facts.{SetFacts};
ghost use Rattle.plain_model.specs.Steps.{reads};
ghost use Rattle.shared_objects.specs.Shown.{IsKnown, object_in, slot_in, static_in};
ghost use Rattle.shared_objects.specs.Worlds.{KnowsMonitors};
ghost use Rattle.step_forms.specs.Becomes.{Becomes, IsQuiet};
ghost use Rattle.step_forms.specs.Follows.{HeapGoes, IsHeapOf, IsHeapStep, IsStep};
ghost use Rattle.step_forms.specs.Needs.{ElementIsHere, HeadIsHere, ReferredElementIsHere, ReferredIsHere, SlotIsHere};
ghost use Rattle.step_forms.specs.Needs.{ValueIsHere};

use crate::finding::{has_elements, index_below, past_end};
use ap_base::{Item, Kind, Place, Ref, ThreadNo};
use natives::Reply;
use plain_model::Throws;
use run_history::Op;
use run_types::FieldAt;
use shared_objects::{Objects, Rest, Types};
use step_forms::{Stepped, initialise_first, numbered, throw, valued};

/// What a static field holds, once its class is initialised.
pub fn get_static<O: Objects>(objects: &O, rest: &mut Rest, t: ThreadNo, field: FieldAt) -> Stepped
    requires class { field.class < length_of rest.old.classes.items }
    requires there { field.at < length_of (O.shown objects.now).statics }
    requires static_here { O.is_static_here objects.now field.at }
    requires here { ValueIsHere (O.is_here objects.now) (static_in (O.shown objects.now) field.at) }
    ensures step { (set : SetFacts) (from : From) → KnowsMonitors (O.shown objects.now) rest.old
        → IsStep set t (ask.GetStatic from field)
        (O.shown objects.now) rest.old result (O.shown objects.now) rest.new }
    ensures quiet { IsQuiet result }
{
    if let Some(first) = initialise_first(rest, t, field.class) {
        return first;
    }
    let item = objects.read_static(field.at);
    let place = Place::Static(field.at);
    let value = valued(objects, item);
    Stepped::Did {
        op: Op::Read { place, value },
        reply: Reply::Item(item),
    }
}

// What a slot of an object holds.
fn read_slot<O: Objects>(objects: &O, holder: Ref, object: u32, index: u32) -> Stepped
    requires number { (O.shown objects.now).number holder ≡ Some object }
    requires slot { index < length_of (object_in (O.shown objects.now) object).values }
    requires here { O.is_here objects.now object index }
    requires referred { ValueIsHere (O.is_here objects.now)
        (slot_in (O.shown objects.now) object index) }
    ensures step { (set : SetFacts) → HeapGoes (λ world. reads set world (SlotPlace object index))
        (O.shown objects.now) result (O.shown objects.now) }
    ensures heap { Becomes O.shown O.stores O.makes objects.now result objects.now }
{
    let item = objects.read(holder, index);
    let place = Place::Slot { object, index };
    let value = valued(objects, item);
    Stepped::Did {
        op: Op::Read { place, value },
        reply: Reply::Item(item),
    }
}

/// What a field of an object holds.
pub fn get_field<C: Types, O: Objects>(
    set: &C,
    objects: &mut O,
    holder: Ref,
    field: FieldAt,
) -> Stepped
    requires heap { IsHeapOf (C.facts set.now) (O.shown objects.old) }
    requires field { IsInstanceField (C.facts set.now) field }
    requires known { IsKnown (O.shown objects.old).number holder }
    requires head { HeadIsHere (O.is_here objects.old) (O.shown objects.old) holder }
    requires slot { SlotIsHere (O.is_here objects.old) (O.shown objects.old) holder field.at }
    requires referred { ReferredIsHere (O.is_here objects.old) (O.shown objects.old) holder
        field.at }
    requires make { O.may_make objects.old }
    ensures step { IsHeapStep (C.facts set.now) (λ from. ask.GetField from holder field)
        (O.shown objects.old) result (O.shown objects.new) }
    ensures heap { Becomes O.shown O.stores O.makes objects.old result objects.new }
{
    let Some(object) = numbered(objects, holder) else {
        return throw(set, objects, Throws::NullPointer);
    };
    if !set.is_sub(objects.shape_of(holder), field.class) {
        return Stepped::Wrong;
    }
    read_slot(objects, holder, object, field.at)
}

/// What an element of an array holds, or a char of a String.
pub fn get_element<C: Types, O: Objects>(
    set: &C,
    objects: &mut O,
    array: Ref,
    index: i32,
    kind: Kind,
) -> Stepped
    requires heap { IsHeapOf (C.facts set.now) (O.shown objects.old) }
    requires known { IsKnown (O.shown objects.old).number array }
    requires head { HeadIsHere (O.is_here objects.old) (O.shown objects.old) array }
    requires slot { ElementIsHere (O.is_here objects.old) (O.shown objects.old) array index }
    requires referred { ReferredElementIsHere (O.is_here objects.old) (O.shown objects.old) array
        index }
    requires make { O.may_make objects.old }
    ensures step { IsHeapStep (C.facts set.now) (λ from. ask.GetElement from array index kind)
        (O.shown objects.old) result (O.shown objects.new) }
    ensures heap { Becomes O.shown O.stores O.makes objects.old result objects.new }
{
    let Some(object) = numbered(objects, array) else {
        return throw(set, objects, Throws::NullPointer);
    };
    if !has_elements(set, kind, objects.shape_of(array)) {
        return Stepped::Wrong;
    }
    let Some(at) = index_below(index, objects.length_of(array)) else {
        return throw(set, objects, past_end(kind));
    };
    read_slot(objects, array, object, at)
}

/// The length of an array or a String.
pub fn length<C: Types, O: Objects>(set: &C, objects: &mut O, array: Ref) -> Stepped
    requires heap { IsHeapOf (C.facts set.now) (O.shown objects.old) }
    requires known { IsKnown (O.shown objects.old).number array }
    requires head { HeadIsHere (O.is_here objects.old) (O.shown objects.old) array }
    requires make { O.may_make objects.old }
    ensures step { IsHeapStep (C.facts set.now) (λ from. ask.Length from array)
        (O.shown objects.old) result (O.shown objects.new) }
    ensures heap { Becomes O.shown O.stores O.makes objects.old result objects.new }
{
    let Some(object) = numbered(objects, array) else {
        return throw(set, objects, Throws::NullPointer);
    };
    if set.element(objects.shape_of(array)).is_none() {
        return Stepped::Wrong;
    }
    let length = objects.length_of(array);
    Stepped::Did {
        op: Op::Length { object, length },
        reply: Reply::Item(Item::Int(length as i32)),
    }
}
