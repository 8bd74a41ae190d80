// Throwing.
ghost use Rattle.std.specs.Prelude.{◌≡◌, ◌<◌, ◌^◌, length};
ghost use Rattle.plain_model.specs.Facts.{classes_of};
ghost use Rattle.plain_model.specs.Steps.{throwing, throws};
ghost use Rattle.step_forms.specs.Becomes.{Becomes, IsNoStore};
ghost use Rattle.step_forms.specs.Follows.{HeapGoes, IsHeapOf};
ghost use Rattle.step_forms.specs.Needs.{own_slots};

use crate::Stepped;
use natives::Reply;
use plain_model::Throws;
use run_history::Op;
use run_types::StepFault;
use shared_objects::{Objects, Types};

/// How many slots a new object of a class without elements has; none if it has some.
fn slots_of<C: Types>(set: &C, class: u32) -> u32
    requires there { class < length (classes_of (C.facts set.now)) }
    ensures slots { result ≡ own_slots (C.facts set.now) class }
    ensures few { result < 2 ^ 31 }
{
    match set.element(class) {
        None => set.fields(class),
        Some(_) => 0,
    }
}

/// Throws a new throwable of a class.
pub fn throw_class<C: Types, O: Objects>(set: &C, objects: &mut O, class: u32) -> Stepped
    requires heap { IsHeapOf (C.facts set.now) (O.shown objects.old) }
    requires there { class < length (classes_of (C.facts set.now)) }
    requires make { O.may_make objects.old }
    ensures step { HeapGoes (λ world. throwing (C.facts set.now) world class)
        (O.shown objects.old) result (O.shown objects.new) }
    ensures heap { Becomes O.shown O.stores O.makes objects.old result objects.new }
    ensures no_store { IsNoStore result }
{
    let slots = slots_of(set, class);
    match objects.alloc(class, slots) {
        Err(full) => Stepped::Over(StepFault::Full(full)),
        Ok(object) => Stepped::Did {
            op: Op::Throw {
                object: objects.number_of(object),
                class,
            },
            reply: Reply::Thrown { object, class },
        },
    }
}

/// Throws one of the throwables that requests throw.
pub fn throw<C: Types, O: Objects>(set: &C, objects: &mut O, which: Throws) -> Stepped
    requires heap { IsHeapOf (C.facts set.now) (O.shown objects.old) }
    requires make { O.may_make objects.old }
    ensures step { HeapGoes (λ world. throws (C.facts set.now) world which)
        (O.shown objects.old) result (O.shown objects.new) }
    ensures heap { Becomes O.shown O.stores O.makes objects.old result objects.new }
    ensures no_store { IsNoStore result }
{
    throw_class(set, objects, set.thrown(which))
}
