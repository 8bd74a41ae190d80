// What a static field that is no durable root holds at first.
ghost use Rattle.std.specs.Prelude.{◌≡◌, ◌+◌, ◌<◌, ◌^◌, length};
ghost use Rattle.class_set.specs.Tables.{constant_now};
ghost use Rattle.plain_model.specs.Facts.{SetFacts};
ghost use Rattle.plain_model.specs.First.{constant_value};
ghost use Rattle.shared_objects.specs.Shown.{item_value};
ghost use Rattle.first_heap.specs.Values.{IsInReach, at_numbers, first_value};

use crate::numbers::literal_number;
use ap_base::{Item, Kind, Ref};
use class_set::Constant;
use graph_model::{Graph, Value};
use step_forms::narrow;

/// The value of an item of a heap whose objects lie at their numbers.
fn value_of(item: Item) -> Value
    ensures { result ≡ item_value at_numbers item }
{
    match item {
        Item::Int(i) => Value::Int(i),
        Item::Long(i) => Value::Long(i),
        Item::Ref(Ref::Volatile(n)) => Value::Obj(n),
        Item::Ref(_) => Value::Null,
    }
}

/// A constant as an item; a literal by the reference of its object.
fn constant_item(opening: &Graph, constant: &Constant) -> Item
    requires reach { IsInReach opening.now (Some constant.now) }
    ensures { (set : SetFacts) → item_value at_numbers result
        ≡ constant_value set opening.now (constant_now constant.now) }
{
    match constant {
        Constant::Int(i) => Item::Int(*i),
        Constant::Long(i) => Item::Long(*i),
        Constant::Literal(k) => Item::Ref(Ref::Volatile(literal_number(opening, *k))),
    }
}

/// The constant as a place of the kind keeps it, or the default (JVMS 2.3, 2.4, 4.7.2).
pub(crate) fn first_value(opening: &Graph, kind: Kind, constant: &Option<Constant>) -> Value
    requires reach { IsInReach opening.now constant.now }
    ensures { (set : SetFacts) → result ≡ first_value set opening.now kind constant.now }
{
    match constant {
        Some(constant) => value_of(narrow(kind, constant_item(opening, constant))),
        None => Value::default_of(kind),
    }
}
