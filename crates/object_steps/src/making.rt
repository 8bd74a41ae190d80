// New objects and arrays.
ghost use Rattle.std.specs.Prelude.{◌≡◌, ◌<◌, ◌^◌, IsSome, IsTrue, length};
ghost use Rattle.natives.specs.declared.requests.Request.TheVariants as ask;
ghost use Rattle.run_types.specs.declared.resolved.At.{At as From};
ghost use Rattle.run_history.specs.Worlds.{may_have};
ghost use Rattle.plain_model.specs.Duties.{IsClass};
ghost use Rattle.plain_model.specs.Facts.{element_of};
ghost use Rattle.plain_model.specs.Steps.{allocates, new_array as plain_array};
ghost use Rattle.shared_objects.specs.Shown.{shape_in};
ghost use Rattle.shared_objects.specs.Worlds.{KnowsMonitors};
ghost use Rattle.step_forms.specs.Becomes.{Becomes};
ghost use Rattle.step_forms.specs.Follows.{HeapGoes, IsHeapOf, IsHeapStep, IsStep};

use crate::finding::counted;
use ap_base::ThreadNo;
use natives::Reply;
use plain_model::Throws;
use run_history::Op;
use run_types::StepFault;
use shared_objects::{Objects, Rest, Types};
use step_forms::{Stepped, initialise_first, throw};

// Makes an object of a class with so many slots.
fn allocate<C: Types, O: Objects>(set: &C, objects: &mut O, shape: u32, slots: u32) -> Stepped
    requires heap { IsHeapOf (C.facts set.now) (O.shown objects.old) }
    requires class { IsClass (C.facts set.now) shape }
    requires few { slots < 2 ^ 31 }
    requires slots { IsTrue (may_have (shape_in (O.shown objects.old) shape) slots) }
    requires make { O.may_make objects.old }
    ensures step { HeapGoes (λ world. allocates (C.facts set.now) world shape slots)
        (O.shown objects.old) result (O.shown objects.new) }
    ensures heap { Becomes O.shown O.stores O.makes objects.old result objects.new }
{
    match objects.alloc(shape, slots) {
        Err(full) => Stepped::Over(StepFault::Full(full)),
        Ok(object) => Stepped::Did {
            op: Op::Alloc {
                object: objects.number_of(object),
                shape,
                length: slots,
            },
            reply: Reply::Made(object),
        },
    }
}

/// Makes an object of a class, once the class is initialised.
pub fn new_object<C: Types, O: Objects>(
    set: &C,
    objects: &mut O,
    rest: &mut Rest,
    t: ThreadNo,
    class: u32,
) -> Stepped
    requires heap { IsHeapOf (C.facts set.now) (O.shown objects.old) }
    requires monitors { KnowsMonitors (O.shown objects.old) rest.old }
    requires class { IsClass (C.facts set.now) class }
    requires there { class < length rest.old.classes.items }
    requires make { O.may_make objects.old }
    ensures step { (from : From) → IsStep (C.facts set.now) t (ask.New from class)
        (O.shown objects.old) rest.old result (O.shown objects.new) rest.new }
    ensures heap { Becomes O.shown O.stores O.makes objects.old result objects.new }
{
    if let Some(first) = initialise_first(rest, t, class) {
        return first;
    }
    allocate(set, objects, class, set.fields(class))
}

// Makes an array, or a String.
fn new_elements<C: Types, O: Objects>(set: &C, objects: &mut O, shape: u32, length: i32) -> Stepped
    requires heap { IsHeapOf (C.facts set.now) (O.shown objects.old) }
    requires class { IsClass (C.facts set.now) shape }
    requires elements { IsSome (element_of (C.facts set.now) shape) }
    requires make { O.may_make objects.old }
    ensures step { HeapGoes (λ world. plain_array (C.facts set.now) world shape length)
        (O.shown objects.old) result (O.shown objects.new) }
    ensures heap { Becomes O.shown O.stores O.makes objects.old result objects.new }
{
    let Some(slots) = counted(length) else {
        return throw(set, objects, Throws::NegativeArraySize);
    };
    allocate(set, objects, shape, slots)
}

/// Makes an array.
pub fn new_array<C: Types, O: Objects>(set: &C, objects: &mut O, shape: u32, length: i32) -> Stepped
    requires heap { IsHeapOf (C.facts set.now) (O.shown objects.old) }
    requires class { IsClass (C.facts set.now) shape }
    requires elements { IsSome (element_of (C.facts set.now) shape) }
    requires make { O.may_make objects.old }
    ensures step { IsHeapStep (C.facts set.now) (λ from. ask.NewArray from shape length)
        (O.shown objects.old) result (O.shown objects.new) }
    ensures heap { Becomes O.shown O.stores O.makes objects.old result objects.new }
{
    new_elements(set, objects, shape, length)
}

/// Makes a String of so many chars.
pub fn new_text<C: Types, O: Objects>(set: &C, objects: &mut O, length: i32) -> Stepped
    requires heap { IsHeapOf (C.facts set.now) (O.shown objects.old) }
    requires make { O.may_make objects.old }
    ensures step { IsHeapStep (C.facts set.now) (λ from. ask.NewText from length)
        (O.shown objects.old) result (O.shown objects.new) }
    ensures heap { Becomes O.shown O.stores O.makes objects.old result objects.new }
{
    new_elements(set, objects, set.known().string, length)
}
