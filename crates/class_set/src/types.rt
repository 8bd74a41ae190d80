//! Array types: how many dimensions they have, and what their innermost elements are.

ghost use Rattle.std.specs.Prelude.{◌≡◌, ◌≤◌, ◌<◌, ◌^◌, ◌++◌, ◌∷◌, List, [], map, drop, length, true, Some, All, IfOk, OnErr};
ghost use Rattle.std.specs.Prelude.{OnOk};
ghost use Rattle.class_file.specs.declared.class.ClassFile.{ClassFile as File};
ghost use Rattle.plain_model.specs.Classes.{element_kind};
ghost use Rattle.const_pool.specs.Parsing.{descriptor_at};
ghost use Rattle.class_set.specs.ArrayTypes.{array_type, class_or_missing, described_array, innermost_of, is_array_type};
ghost use Rattle.class_set.specs.ArrayTypes.{is_some_array, kind_of_base};
ghost use Rattle.plain_model.specs.Facts.{shapes_of};
ghost use Rattle.text_table.specs.Texts.{place_of, with_text};
ghost use Rattle.class_set.specs.Linked.{class_names, names_of};
ghost use Rattle.class_set.specs.Members.{supers_of};
ghost use Rattle.class_set.specs.Facts.{facts_of};
ghost use Rattle.class_set.specs.Tables.{AreNames, array_now, array_shape, array_with, innermost_now, linked_of};

use crate::layouts::class_shapes;
use crate::names::add_name;
use ap_base::{Bytes, Kind, ListOf};
use class_file::ClassFile;
use const_pool::{BaseType, Descriptor, ElementType, Name, read_descriptor};
use graph_model::Shape;
use std::alloc::{AllocError, Global};
use text_table::Texts;

/// What an array's elements are in the end.
#[derive(Drop)]
pub(crate) enum Innermost {
    /// Numbers of a kind.
    Numbers(Kind),
    /// Objects of the class of this number.
    Objects(u32),
    /// Objects of a class that the set lacks, by its name.
    Missing(Bytes),
}

/// An array type (JVMS 4.3.2).
#[derive(Drop)]
pub(crate) struct ArrayType {
    pub descriptor: Bytes,
    pub dimensions: u8,
    pub innermost: Innermost,
}

fn kind_of_base(base: BaseType) -> Kind
    ensures { result ≡ kind_of_base base }
{
    match base {
        BaseType::Byte => Kind::B,
        BaseType::Char => Kind::C,
        BaseType::Int => Kind::I,
        BaseType::Long => Kind::J,
        BaseType::Short => Kind::S,
        BaseType::Boolean => Kind::Z,
    }
}

/// The number of the class of this name, where the first so many names are those of classes.
fn class_number(names: &Texts, classes: u32, name: &[u8]) -> Option<u32>
    ensures { (files : List File) → AreNames files names.now classes → result
        ≡ place_of (class_names files) name.now }
{
    let number = names.place(name)?;
    if number < classes {
        return Some(number);
    }
    None
}

/// The class of this name, where the set has one.
fn class_or_missing(
    alloc: Global,
    names: &Texts,
    classes: u32,
    name: &Name,
) -> Result<Innermost, AllocError>
    ensures { (files : List File) → AreNames files names.now classes
        → IfOk result (λ innermost. innermost_now innermost ≡ class_or_missing files name.now) }
{
    match class_number(names, classes, name.as_slice()) {
        Some(number) => Ok(Innermost::Objects(number)),
        None => Ok(Innermost::Missing(Bytes::copy(alloc, name.as_slice())?)),
    }
}

fn innermost_of(
    alloc: Global,
    names: &Texts,
    classes: u32,
    element: &ElementType,
) -> Result<Innermost, AllocError>
    ensures { (files : List File) → AreNames files names.now classes
        → IfOk result (λ innermost. innermost_now innermost ≡ innermost_of files element.now) }
{
    match element {
        ElementType::Base(base) => Ok(Innermost::Numbers(kind_of_base(*base))),
        ElementType::Class(name) => class_or_missing(alloc, names, classes, name),
    }
}

/// How many dimensions the array type with this descriptor has, and its innermost elements. None,
/// of no class, for a text that is no array type's.
fn parts(
    alloc: Global,
    names: &Texts,
    classes: u32,
    name: &Name,
) -> Result<(u8, Innermost), AllocError>
    requires array { is_some_array (described_array [] name.now (descriptor_at name.now)) ≡ true }
    ensures { (files : List File) → AreNames files names.now classes → IfOk result
        (λ parts. Some (array_with name.now parts.0 parts.1)
        ≡ described_array files name.now (descriptor_at name.now)) }
{
    match read_descriptor(alloc, name) {
        Ok(Descriptor::Field(field)) => {
            let innermost = innermost_of(alloc, names, classes, &field.element)?;
            Ok((field.dimensions, innermost))
        }
        Ok(Descriptor::Method { .. }) => Err(AllocError),
        Err(_) => Err(AllocError),
    }
}

/// The array type with this descriptor.
pub(crate) fn array_type(
    alloc: Global,
    names: &Texts,
    classes: u32,
    text: &[u8],
) -> Result<ArrayType, AllocError>
    requires array { is_array_type text.now ≡ true }
    ensures { (files : List File) → AreNames files names.now classes
        → IfOk result (λ array. array_now array ≡ array_type files text.now) }
{
    let Some(name) = Name::new(text.to_vec(alloc)?) else {
        return Err(AllocError);
    };
    let (dimensions, innermost) = parts(alloc, names, classes, &name)?;
    Ok(ArrayType {
        descriptor: Bytes::copy(alloc, text)?,
        dimensions,
        innermost,
    })
}

/// The array types among these names, of which the first so many are classes'.
pub(crate) fn array_types(
    alloc: Global,
    names: &Texts,
    classes: u32,
) -> Result<Vec<ArrayType>, AllocError>
    requires classes { classes ≤ length names.now }
    requires arrays { All (λ text. is_array_type text ≡ true) (drop classes names.now) }
    ensures { (files : List File) → AreNames files names.now classes
        → IfOk result (λ arrays. map array_now arrays.items
        ≡ map (array_type files) (drop classes names.now)) }
{
    let mut arrays = Vec::new(alloc);
    for text in &names.as_slice()[classes as usize..] {
        arrays.push(array_type(alloc, names, classes, text.as_slice())?)?;
    }
    Ok(arrays)
}

/// The kind of the elements of an array type.
fn element_kind(array: &ArrayType) -> Kind
    ensures { result ≡ element_kind array.now.dimensions (innermost_now array.now.innermost) }
{
    if array.dimensions != 1 {
        return Kind::L;
    }
    match array.innermost {
        Innermost::Numbers(kind) => kind,
        _ => Kind::L,
    }
}

/// The shape of the objects of an array type.
pub(crate) fn array_shape(alloc: Global, array: &ArrayType) -> Result<Shape, AllocError>
    ensures { IfOk result (λ shape. shape ≡ array_shape (array_now array.now)) }
{
    Ok(Shape {
        name: Bytes::copy(alloc, array.descriptor.as_slice())?,
        fields: ListOf::new(alloc),
        element: Some(element_kind(array)),
    })
}

/// Gives an array type the number behind all names, with its shape. Want of numbers is want of
/// memory.
pub(crate) fn push_array(
    alloc: Global,
    names: &mut Texts,
    arrays: &mut Vec<ArrayType>,
    shapes: &mut Vec<Shape>,
    classes: u32,
    descriptor: &[u8],
) -> Result<(), AllocError>
    requires array { is_array_type descriptor.now ≡ true }
    ensures names { OnOk result (names.new ≡ with_text names.old descriptor.now) }
    ensures arrays { (files : List File) → AreNames files names.old classes
        → OnOk result (map array_now arrays.new.items
        ≡ map array_now arrays.old.items ++ array_type files descriptor.now ∷ []) }
    ensures shapes { (files : List File) → AreNames files names.old classes
        → OnOk result (shapes.new.items
        ≡ shapes.old.items ++ array_shape (array_type files descriptor.now) ∷ []) }
    ensures same_names { OnErr result (names.new ≡ names.old) }
    ensures same_arrays { OnErr result (arrays.new.items ≡ arrays.old.items) }
    ensures same_shapes { OnErr result (shapes.new.items ≡ shapes.old.items) }
{
    let array = array_type(alloc, names, classes, descriptor)?;
    let shape = array_shape(alloc, &array)?;
    arrays.reserve(1)?;
    shapes.reserve(1)?;
    add_name(alloc, names, descriptor)?;
    arrays.push(array)?;
    shapes.push(shape)?;
    Ok(())
}

pub(crate) fn add_array_shapes(
    alloc: Global,
    shapes: &mut Vec<Shape>,
    arrays: &[ArrayType],
) -> Result<(), AllocError>
    ensures { OnOk result (shapes.new.items
        ≡ shapes.old.items ++ map array_shape (map array_now arrays.now)) }
{
    for array in arrays {
        shapes.push(array_shape(alloc, array)?)?;
    }
    Ok(())
}

/// The shapes of all classes and array types, and the array types, by number.
pub(crate) fn types(
    alloc: Global,
    files: &[ClassFile],
    names: &Texts,
    supers: &[Option<u32>],
) -> Result<(Vec<Shape>, Vec<ArrayType>), AllocError>
    requires supers { supers.now ≡ supers_of files.now }
    requires names { names.now ≡ names_of (linked_of files.now names.now) }
    requires arrays { All (λ text. is_array_type text ≡ true) (drop (length supers.now) names.now) }
    requires few { length supers.now < 2 ^ 32 }
    ensures shapes { IfOk result (λ tables. tables.0.items
        ≡ shapes_of (facts_of (linked_of files.now names.now))) }
    ensures arrays { IfOk result (λ tables. map array_now tables.1.items
        ≡ map (array_type files.now) (linked_of files.now names.now).arrays) }
{
    let arrays = array_types(alloc, names, supers.len() as u32)?;
    let mut shapes = class_shapes(alloc, files, supers)?;
    add_array_shapes(alloc, &mut shapes, arrays.as_slice())?;
    Ok((shapes, arrays))
}
