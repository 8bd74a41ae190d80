// What the static fields hold at first.
ghost use Rattle.std.specs.Prelude.{◌≡◌, ◌≢◌, ◌+◌, ◌<◌, ◌∷◌, ◌^◌, AllPairs, All, IfOk, length, map};
ghost use Rattle.graph_model.specs.declared.types.NamedValue.{NamedValue as Named};
ghost use Rattle.graph_model.specs.declared.types.Value.TheVariants.{Obj as Object};
ghost use Rattle.class_set.specs.Facts.{facts_of};
ghost use Rattle.class_set.specs.Tables.{static_now};
ghost use Rattle.plain_model.specs.First.{first_objects, first_statics, static_value, stream_number};
ghost use Rattle.first_heap.specs.Values.{IsInReach};

use crate::numbers::stream_number;
use crate::roots::{add_lacking, names_of, root_names, root_value};
use crate::values::first_value;
use class_set::{ClassSet, Static, linked_sets_are_consistent};
use graph_model::{Graph, Value};
use std::alloc::{AllocError, Global};
use text_table::Texts;

/// What a static field of the set holds at first: a durable root the graph's value, any other its
/// constant or the default.
fn static_value(
    alloc: Global,
    set: &ClassSet,
    opening: &Graph,
    names: &Texts,
    field: &Static,
) -> Result<Value, AllocError>
    requires names { names.now ≡ map (λ (r : Named). r.name) opening.now.roots }
    requires reach { IsInReach opening.now field.now.constant }
    ensures { IfOk result (λ value. value ≡ static_value (facts_of set.now) opening.now
        (static_now set.now.files field.now)) }
{
    if field.is_root {
        let name = set.static_name(alloc, field)?;
        return Ok(root_value(opening.roots.as_slice(), names, name.as_slice()));
    }
    Ok(first_value(opening, field.kind, &field.constant))
}

/// What `System.out` and the set's static fields hold at first, in the order of their numbers.
fn set_statics(
    alloc: Global,
    set: &ClassSet,
    opening: &Graph,
    names: &Texts,
) -> Result<Vec<Value>, AllocError>
    requires names { names.now ≡ map (λ (r : Named). r.name) opening.now.roots }
    requires few { length (first_objects (facts_of set.now) opening.now) < 2 ^ 32 }
    ensures { IfOk result (λ statics. statics.items
        ≡ Object (stream_number (facts_of set.now) opening.now)
        ∷ map (static_value (facts_of set.now) opening.now) (facts_of set.now).statics) }
{
    linked_sets_are_consistent();
    let _linked = set.shapes();
    let mut statics = Vec::new(alloc);
    statics.push(Value::Obj(stream_number(opening)))?;
    for field in set.statics() {
        statics.push(static_value(alloc, set, opening, names, field)?)?;
    }
    Ok(statics)
}

/// What all static fields hold at first: `System.out`, those of the set, and behind them the graph's
/// roots that the set lacks. Names are found through ordered maps.
pub(crate) fn first_statics(
    alloc: Global,
    set: &ClassSet,
    opening: &Graph,
) -> Result<Vec<Value>, AllocError>
    requires differ { AllPairs (λ (r s : Named). r.name ≢ s.name) opening.now.roots }
    requires few { length (first_objects (facts_of set.now) opening.now) < 2 ^ 32 }
    ensures { IfOk result (λ statics.
        statics.items ≡ first_statics (facts_of set.now) opening.now) }
{
    let roots = opening.roots.as_slice();
    let names = names_of(alloc, roots)?;
    let own = root_names(alloc, set)?;
    let mut statics = set_statics(alloc, set, opening, &names)?;
    add_lacking(&mut statics, &own, roots)?;
    Ok(statics)
}
