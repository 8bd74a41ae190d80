//! The shapes of classes: their instance fields, a superclass's first.

ghost use Rattle.std.specs.Prelude.{◌≡◌, ◌++◌, [], ◌∷◌, map, length, IfOk, OnOk};
ghost use Rattle.class_file.specs.declared.class.ClassFile.{ClassFile as File};
ghost use Rattle.plain_model.specs.Classes.{ClassFacts};
ghost use Rattle.plain_model.specs.BuiltIn.{built_in_classes as built_in_facts};
ghost use Rattle.built_in_table.specs.Rows.{member_facts, row_shape, slot_field};
ghost use Rattle.class_set.specs.Members.{kind_of, field_of, own_layout, layout_above, layout_of, layout_of_fields};
ghost use Rattle.class_set.specs.Members.{field_facts, super_number, supers_of};
ghost use Rattle.class_set.specs.Facts.{class_facts, named_classes};

use crate::members::{is_static, text_at};
use crate::supers::superclasses;
use ap_base::{Bytes, Kind, ListOf};
use built_in_table::{BuiltIn, Member, Slot, built_in_classes};
use class_file::ClassFile;
use class_links::name_of;
use graph_model::{Field, Shape};
use std::alloc::{AllocError, Global};

/// The kind of a field by its descriptor's first letter (JVMS 4.3.2); any reference is L.
pub(crate) fn kind_of(descriptor: &[u8]) -> Kind
    ensures { result ≡ kind_of descriptor.now }
{
    match descriptor {
        [b'Z', ..] => Kind::Z,
        [b'B', ..] => Kind::B,
        [b'C', ..] => Kind::C,
        [b'S', ..] => Kind::S,
        [b'I', ..] => Kind::I,
        [b'J', ..] => Kind::J,
        _ => Kind::L,
    }
}

fn push_field(
    alloc: Global,
    fields: &mut ListOf<Field>,
    name: &[u8],
    descriptor: &[u8],
) -> Result<(), AllocError>
    ensures { OnOk result (fields.new
        ≡ fields.old ++ field_of name.now descriptor.now ∷ []) }
{
    fields.push(Field {
        name: Bytes::copy(alloc, name)?,
        kind: kind_of(descriptor),
        kept: true,
    })?;
    Ok(())
}

/// Adds the instance fields that the class of a file declares.
fn push_file_fields(
    alloc: Global,
    fields: &mut ListOf<Field>,
    file: &ClassFile,
) -> Result<(), AllocError>
    ensures { OnOk result (fields.new
        ≡ fields.old ++ layout_of_fields (map (field_facts file.now.pool) file.now.fields)) }
{
    for field in file.fields.as_slice() {
        if !is_static(field.access) {
            let name = text_at(&file.pool, field.name);
            push_field(alloc, fields, name, text_at(&file.pool, field.descriptor))?;
        }
    }
    Ok(())
}

/// Adds the instance fields among the members of a built-in class.
fn push_members(
    alloc: Global,
    fields: &mut ListOf<Field>,
    members: &[Member],
) -> Result<(), AllocError>
    ensures { OnOk result (fields.new
        ≡ fields.old ++ layout_of_fields (map member_facts members.now)) }
{
    for member in members {
        if !member.is_static {
            push_field(alloc, fields, member.name, member.descriptor)?;
        }
    }
    Ok(())
}

/// Adds the instance fields that a class declares, by its number.
fn push_own(
    alloc: Global,
    fields: &mut ListOf<Field>,
    files: &[ClassFile],
    class: u32,
) -> Result<(), AllocError>
    ensures { OnOk result (fields.new ≡ fields.old ++ own_layout files.now class) }
{
    let class = class as usize;
    if class < files.len() {
        return push_file_fields(alloc, fields, &files[class]);
    }
    match built_in_classes().get(class - files.len()) {
        Some(built_in) => push_members(alloc, fields, built_in.fields),
        None => Ok(()),
    }
}

/// The instance fields of a class, a superclass's first.
fn layout(
    alloc: Global,
    files: &[ClassFile],
    supers: &[Option<u32>],
    class: u32,
) -> Result<ListOf<Field>, AllocError>
    requires supers { supers.now ≡ supers_of files.now }
    ensures { IfOk result (λ fields. fields ≡ layout_of files.now class) }
{
    let chain = superclasses(alloc, supers, class)?;
    let mut fields = ListOf::new(alloc);
    for place in (0..chain.len()).rev() {
        push_own(alloc, &mut fields, files, chain[place])?;
    }
    Ok(fields)
}

fn layout_above(
    alloc: Global,
    files: &[ClassFile],
    supers: &[Option<u32>],
    superclass: Option<u32>,
) -> Result<ListOf<Field>, AllocError>
    requires supers { supers.now ≡ supers_of files.now }
    ensures { IfOk result (λ fields. fields ≡ layout_above files.now superclass) }
{
    match superclass {
        Some(class) => layout(alloc, files, supers, class),
        None => Ok(ListOf::new(alloc)),
    }
}

/// The shape of the class of a file, whose superclass has this number.
fn file_shape(
    alloc: Global,
    files: &[ClassFile],
    supers: &[Option<u32>],
    file: &ClassFile,
    superclass: Option<u32>,
) -> Result<Shape, AllocError>
    requires supers { supers.now ≡ supers_of files.now }
    requires superclass { superclass ≡ super_number files.now file.now }
    ensures { IfOk result (λ shape. shape ≡ (class_facts files.now file.now).shape) }
{
    let mut fields = layout_above(alloc, files, supers, superclass)?;
    push_file_fields(alloc, &mut fields, file)?;
    Ok(Shape {
        name: Bytes::copy(alloc, name_of(file))?,
        fields,
        element: None,
    })
}

fn file_shapes(
    alloc: Global,
    files: &[ClassFile],
    supers: &[Option<u32>],
) -> Result<Vec<Shape>, AllocError>
    requires supers { supers.now ≡ supers_of files.now }
    ensures { IfOk result
        (λ shapes. shapes.items ≡ map (λ (c : File). (class_facts files.now c).shape) files.now) }
{
    let mut shapes = Vec::new(alloc);
    for class in 0..files.len() {
        let shape = file_shape(alloc, files, supers, &files[class], supers[class])?;
        shapes.push(shape)?;
    }
    Ok(shapes)
}

fn push_slots(alloc: Global, fields: &mut ListOf<Field>, slots: &[Slot]) -> Result<(), AllocError>
    ensures { OnOk result (fields.new ≡ fields.old ++ map slot_field slots.now) }
{
    for slot in slots {
        fields.push(Field {
            name: Bytes::copy(alloc, slot.name)?,
            kind: slot.kind,
            kept: true,
        })?;
    }
    Ok(())
}

fn built_in_shape(alloc: Global, class: &BuiltIn) -> Result<Shape, AllocError>
    ensures { IfOk result (λ shape. shape ≡ row_shape class.now) }
{
    let mut fields = ListOf::new(alloc);
    push_slots(alloc, &mut fields, class.layout)?;
    Ok(Shape {
        name: Bytes::copy(alloc, class.name)?,
        fields,
        element: class.element,
    })
}

fn add_built_in_shapes(alloc: Global, shapes: &mut Vec<Shape>) -> Result<(), AllocError>
    ensures { OnOk result (shapes.new.items
        ≡ shapes.old.items ++ map (λ (c : ClassFacts). c.shape) (built_in_facts 0)) }
{
    for class in built_in_classes() {
        shapes.push(built_in_shape(alloc, class)?)?;
    }
    Ok(())
}

/// The shapes of the classes that aren't array types, by number. Takes time and memory for each
/// class and each field of its objects, those of its superclasses among them.
pub(crate) fn class_shapes(
    alloc: Global,
    files: &[ClassFile],
    supers: &[Option<u32>],
) -> Result<Vec<Shape>, AllocError>
    requires supers { supers.now ≡ supers_of files.now }
    ensures { IfOk result (λ shapes. shapes.items ≡ map
        (λ (c : ClassFacts). c.shape) (named_classes files.now)) }
{
    let mut shapes = file_shapes(alloc, files, supers)?;
    add_built_in_shapes(alloc, &mut shapes)?;
    Ok(shapes)
}
