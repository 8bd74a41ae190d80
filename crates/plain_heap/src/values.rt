// Values of items, and values with which slots begin.
ghost use Rattle.std.specs.Prelude.{◌≡◌, ◌<◌, ◌≤◌, ◌++◌, ℕ, IsTrue, true, length, map, replicate, vec_capacity, []};
ghost use Rattle.std.specs.Prelude.{slice_index_or};
ghost use Rattle.graph_model.specs.Heaps.{default_of, fresh_values};
ghost use Rattle.graph_model.specs.declared.types.Field.{Field as FieldOf};
ghost use Rattle.run_history.specs.Worlds.{is_below, may_have};
ghost use Rattle.shared_objects.specs.Shown.{IsKnownItem, item_value};
ghost use Rattle.plain_heap.specs.Shows.{number_in};

use ap_base::{Item, Kind, Ref};
use graph_model::{Field, Shape, Value};

/// The value of an item.
pub(crate) fn value_of(item: Item) -> Value
    ensures value { (count : ℕ) → IsKnownItem (number_in count) item
        → result ≡ item_value (number_in count) item }
    ensures below { (count : ℕ) → IsKnownItem (number_in count) item
        → is_below count result ≡ true }
{
    match item {
        Item::Int(i) => Value::Int(i),

        Item::Long(i) => Value::Long(i),

        Item::Ref(Ref::Volatile(n)) => Value::Obj(n),

        Item::Ref(_) => Value::Null,
    }
}

/// The item of a value.
pub(crate) fn item_of(value: Value) -> Item
    ensures value { (count : ℕ) → is_below count value ≡ true → item_value (number_in count) result ≡ value }
    ensures known { (count : ℕ) → is_below count value ≡ true → IsKnownItem (number_in count) result }
{
    match value {
        Value::Int(i) => Item::Int(i),
        Value::Long(i) => Item::Long(i),
        Value::Null => Item::Ref(Ref::Null),
        Value::Obj(n) => Item::Ref(Ref::Volatile(n)),
    }
}

/// What a place of a kind holds at first (JVMS 2.3, 2.4).
fn default_of(kind: Kind) -> Value
    ensures { result ≡ default_of kind }
{
    match kind {
        Kind::L => Value::Null,
        Kind::J => Value::Long(0),
        _ => Value::Int(0),
    }
}

fn put_fields(values: &mut Vec<Value>, fields: &[Field])
    requires empty { values.old.items ≡ [] }
    requires room { length fields.now ≤ vec_capacity values.old }
    ensures { values.new.items ≡ map (λ (f : FieldOf). default_of f.kind) fields.now }
{
    for field in fields {
        values.push_reserved(default_of(field.kind));
    }
}

fn put_elements(values: &mut Vec<Value>, kind: Kind, count: u32)
    requires empty { values.old.items ≡ [] }
    requires room { count ≤ vec_capacity values.old }
    ensures { values.new.items ≡ replicate count (default_of kind) }
{
    for i in 0..count {
        let _ = i;
        values.push_reserved(default_of(kind));
    }
}

/// Puts the values with which the slots of an object of this shape begin, so many of them.
pub(crate) fn put_fresh(values: &mut Vec<Value>, shape: &Shape, slots: u32)
    requires empty { values.old.items ≡ [] }
    requires room { slots ≤ vec_capacity values.old }
    requires slots { IsTrue (may_have shape.now slots) }
    ensures { values.new.items ≡ fresh_values shape.now slots }
{
    match shape.element {
        None => put_fields(values, shape.fields.as_slice()),
        Some(kind) => put_elements(values, kind, slots),
    }
}
