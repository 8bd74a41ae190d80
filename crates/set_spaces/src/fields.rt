// Where static fields lie: beside the heap, or in root slots.
ghost use Rattle.std.specs.Prelude.{◌≡◌, ◌≢◌, ◌++◌, ℕ, List, map, AllPairs, IfOk, OnOk};
ghost use Rattle.std.specs.Option.{option_map};
ghost use Rattle.class_file.specs.declared.class.ClassFile.{ClassFile as File};
ghost use Rattle.class_set.specs.Facts.{facts_of};
ghost use Rattle.class_set.specs.Tables.{constant_now, static_now};
ghost use Rattle.one_space.specs.First.{constant_now as first_constant_now};
ghost use Rattle.first_spaces.specs.Parts.{home_now};
ghost use Rattle.set_directory.specs.Written.{written_roots};
ghost use Rattle.set_spaces.specs.Homes.{home_in, lacking_homes};
ghost use Rattle.set_spaces.specs.Names.{place_in};

use crate::roots::{root_names, slots_of};
use ap_base::{Bytes, ListOf};
use class_set::{ClassSet, Constant, Static};
use first_spaces::FirstField;
use one_space::{FirstConstant, FirstStatic};
use std::alloc::{AllocError, Global};
use text_table::{SortedTexts, Texts};

fn first_constant(constant: &Option<Constant>) -> Option<FirstConstant>
    ensures { option_map first_constant_now result ≡ option_map constant_now constant.now }
{
    match constant {
        Some(Constant::Int(i)) => Some(FirstConstant::Int(*i)),
        Some(Constant::Long(i)) => Some(FirstConstant::Long(*i)),
        Some(Constant::Literal(place)) => Some(FirstConstant::Literal(*place)),
        None => None,
    }
}

/// The slot of a name; one past all where there is none.
fn slot_of(slots: &Texts, name: &[u8]) -> u32
    ensures { result ≡ place_in slots.now name.now }
{
    match slots.place(name) {
        Some(slot) => slot,
        None => slots.len(),
    }
}

/// Where a static field of the set lies.
fn first_field(
    alloc: Global,
    set: &ClassSet,
    slots: &Texts,
    field: &Static,
) -> Result<FirstField, AllocError>
    ensures { IfOk result (λ first.
        home_now first ≡ home_in slots.now (static_now set.now.files field.now)) }
{
    if field.is_root {
        let name = set.static_name(alloc, field)?;
        return Ok(FirstField::Root(slot_of(slots, name.as_slice())));
    }
    Ok(FirstField::Beside(FirstStatic {
        kind: field.kind,
        constant: first_constant(&field.constant),
    }))
}

/// Where all static fields of the set lie, in the order of their numbers.
fn set_fields(alloc: Global, set: &ClassSet, slots: &Texts) -> Result<Vec<FirstField>, AllocError>
    ensures { IfOk result (λ fields.
        map home_now fields.items ≡ map (home_in slots.now) (facts_of set.now).statics) }
{
    let mut fields = Vec::new(alloc);
    for field in set.statics() {
        fields.push(first_field(alloc, set, slots, field)?)?;
    }
    Ok(fields)
}

/// Adds the slots of the names that aren't among the set's own, in their order.
fn add_lacking(
    fields: &mut Vec<FirstField>,
    own: &SortedTexts,
    slots: &Texts,
) -> Result<(), AllocError>
    ensures { OnOk result (map home_now fields.new.items
        ≡ map home_now fields.old.items ++ lacking_homes own.now slots.now slots.now) }
{
    for name in slots.as_slice() {
        if !own.has(name.as_slice()) {
            fields.push(FirstField::Root(slot_of(slots, name.as_slice())))?;
        }
    }
    Ok(())
}

/// Where the static fields from number 1 on lie, over a directory whose roots have these names.
pub(crate) fn first_fields(
    alloc: Global,
    set: &ClassSet,
    roots: &[Bytes],
) -> Result<ListOf<FirstField>, AllocError>
    requires differ { AllPairs (λ (name other : List ℕ). name ≢ other) roots.now }
    ensures { IfOk result (λ fields. map home_now fields
        ≡ map (home_in roots.now) (facts_of set.now).statics
        ++ lacking_homes (written_roots set.now) roots.now roots.now) }
{
    let slots = slots_of(alloc, roots)?;
    let own = root_names(alloc, set)?;
    let mut fields = set_fields(alloc, set, &slots)?;
    add_lacking(&mut fields, &own, &slots)?;
    Ok(ListOf::from_vec(fields))
}
