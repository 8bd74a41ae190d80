// What static fields begin with.
ghost use Rattle.std.specs.Prelude.{◌≡◌, ◌<◌, ℕ, All, IfOk, None, length};
ghost use Rattle.std.specs.Option.{option_map};
ghost use Rattle.ap_base.specs.declared.reference.Ref.TheVariants.{Null};
ghost use Rattle.graph_model.specs.Heaps.{default_of};
ghost use Rattle.one_space.specs.First.{IsPartBelow, constant_now};
ghost use Rattle.shared_objects.specs.Shown.{IsKnownItem, Numbers, item_value};
ghost use Rattle.first_spaces.specs.Items.{AreNumbered, BeginAll, BeginsWith, IsFieldBelow, value_from};
ghost use Rattle.first_spaces.specs.declared.parts.FirstField.{FirstField as FieldPart};

use crate::parts::FirstField;
use ap_base::{Item, Kind, Ref};
use one_space::{FirstConstant, FirstStatic};
use std::alloc::{AllocError, Global};
use step_forms::narrow;
use two_spaces::Static;

/// What a static field without a constant holds at first (JVMS 2.3, 2.4).
fn default_item(kind: Kind) -> Item
    ensures { (number : Numbers) → number Null ≡ None
        → (item_value number result ≡ default_of kind) × IsKnownItem number result }
{
    match kind {
        Kind::L => Item::Ref(Ref::Null),
        Kind::J => Item::Long(0),
        _ => Item::Int(0),
    }
}

/// What a static field beside the heap holds at first.
fn first_item(first: &FirstStatic, literals: &[Ref]) -> Item
    requires below { IsPartBelow (length literals.now) first.now.constant }
    ensures value { (number : Numbers) (from : ℕ) → number Null ≡ None → AreNumbered number from literals.now
        → item_value number result
        ≡ value_from from first.now.kind (option_map constant_now first.now.constant) }
    ensures known { (number : Numbers) (from : ℕ) → number Null ≡ None → AreNumbered number from literals.now
        → IsKnownItem number result }
{
    match first.constant {
        None => default_item(first.kind),
        Some(FirstConstant::Int(i)) => narrow(first.kind, Item::Int(i)),
        Some(FirstConstant::Long(i)) => narrow(first.kind, Item::Long(i)),
        Some(FirstConstant::Literal(k)) => narrow(first.kind, Item::Ref(literals[k as usize])),
    }
}

/// How a static field begins.
fn first_static(field: &FirstField, literals: &[Ref]) -> Static
    requires below { IsFieldBelow (length literals.now) field.now }
    ensures { BeginsWith literals.now field.now result }
{
    match field {
        FirstField::Beside(first) => Static::Beside(first_item(first, literals)),
        FirstField::Root(slot) => Static::Root(*slot),
    }
}

/// How all static fields begin, that of the stream first.
pub(crate) fn first_statics(
    alloc: Global,
    stream: Ref,
    literals: &[Ref],
    fields: &[FirstField],
) -> Result<Vec<Static>, AllocError>
    requires below { All (λ (f : FieldPart). IsFieldBelow (length literals.now) f) fields.now }
    ensures { IfOk result (λ statics. BeginAll stream literals.now fields.now statics.items) }
{
    let mut statics = Vec::new(alloc);
    statics.push(Static::Beside(Item::Ref(stream)))?;
    for field in fields {
        statics.push(first_static(field, literals))?;
    }
    Ok(statics)
}
