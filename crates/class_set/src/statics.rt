//! The static fields of class files, by their numbers.

ghost use Rattle.std.specs.Prelude.{◌≡◌, ◌≤◌, ◌-◌, ◌++◌, ◌^◌, ◌<◌, List, Some, map, length, slice_get, All, IfOk, OnOk};
ghost use Rattle.std.specs.Option.{option_map};
ghost use Rattle.class_file.specs.declared.class.ClassFile.{ClassFile as File};
ghost use Rattle.class_set.specs.Facts.{constant_of, statics_from, statics_of_fields};
ghost use Rattle.plain_model.specs.Facts.{LiteralConstant};
ghost use Rattle.plain_model.specs.First.{numbers_to};
ghost use Rattle.class_set.specs.Literals.{literal_place, texts_of};
ghost use Rattle.class_set.specs.Members.{first_static};
ghost use Rattle.class_set.specs.Tables.{IsSmall, constant_now, name_in, static_now};

use crate::layouts::kind_of;
use crate::members::{is_static, text_at};
use ap_base::{Bytes, Kind};
use class_file::{ClassFile, Field};
use class_links::name_of;
use const_pool::{Entry, Pool};
use std::alloc::{AllocError, Global};
use text_table::Texts;

/// The ConstantValue of a static field (JVMS 4.7.2): a number, or a literal by its place among the
/// set's literals.
#[derive(Drop)]
pub enum Constant {
    Int(i32),
    Long(i64),
    Literal(u32),
}

/// A static field of a class of the program.
#[derive(Drop)]
pub struct Static {
    /// The number of the class that declares it.
    pub class: u32,
    /// Its place among the fields that the class declares.
    pub(crate) place: u32,
    pub kind: Kind,
    /// The constant with which it begins.
    pub constant: Option<Constant>,
    /// Whether it is a durable root.
    pub is_root: bool,
}

/// The constant that the String entry at an index is.
fn literal_at(pool: &Pool, literals: &Texts, index: u16) -> Option<Constant>
    ensures { (files : List File) → literals.now ≡ texts_of files
        → option_map constant_now result ≡ option_map
        (λ place. LiteralConstant place) (literal_place files pool.now index) }
{
    let text = pool.string(index)?;
    let place = literals.place(text.as_slice())?;
    Some(Constant::Literal(place))
}

/// The constant at an index of a pool.
fn constant_at(pool: &Pool, literals: &Texts, index: u16) -> Option<Constant>
    ensures { (files : List File) → literals.now ≡ texts_of files
        → option_map constant_now result ≡ constant_of files pool.now (Some index) }
{
    match pool.get(index) {
        Some(Entry::Integer(number)) => Some(Constant::Int(*number)),
        Some(Entry::Long(number)) => Some(Constant::Long(*number)),
        Some(Entry::String { .. }) => literal_at(pool, literals, index),
        _ => None,
    }
}

fn constant_of(pool: &Pool, literals: &Texts, field: &Field) -> Option<Constant>
    ensures { (files : List File) → literals.now ≡ texts_of files
        → option_map constant_now result ≡ constant_of files pool.now field.now.constant }
{
    match field.constant {
        Some(index) => constant_at(pool, literals, index),
        None => None,
    }
}

/// Adds the static fields of the class of this number.
fn add_statics(
    alloc: Global,
    statics: &mut Vec<Static>,
    literals: &Texts,
    file: &ClassFile,
    class: u32,
) -> Result<(), AllocError>
    requires small { length file.now.fields < 2 ^ 16 }
    ensures added { (files : List File) → literals.now ≡ texts_of files → slice_get files class
        ≡ Some file.now
        → OnOk result (map (static_now files) statics.new.items
        ≡ map (static_now files) statics.old.items ++ statics_of_fields files class file.now file.now.fields) }
{
    for (place, field) in file.fields.as_slice().iter().enumerate() {
        if is_static(field.access) {
            statics.push(Static {
                class,
                place: place as u32,
                kind: kind_of(text_at(&file.pool, field.descriptor)),
                constant: constant_of(&file.pool, literals, field),
                is_root: field.root,
            })?;
        }
    }
    Ok(())
}

/// The static fields of the classes of files, in the order of their numbers, and of each class the
/// number of its first one. Want of numbers is want of memory.
pub(crate) fn file_statics(
    alloc: Global,
    files: &[ClassFile],
    literals: &Texts,
) -> Result<(Vec<Static>, Vec<u32>), AllocError>
    requires few { length files.now ≤ 4096 }
    requires small { All IsSmall files.now }
    requires literals { literals.now ≡ texts_of files.now }
    ensures statics { IfOk result
        (λ tables. map (static_now files.now) tables.0.items ≡ statics_from files.now 0 files.now) }
    ensures few { IfOk result (λ tables. length tables.0.items < 2 ^ 32 - 1) }
    ensures firsts { IfOk result
        (λ tables. tables.1.items ≡ map (first_static files.now) (numbers_to (length files.now))) }
{
    let mut statics = Vec::new(alloc);
    let mut firsts = Vec::new(alloc);
    for class in 0..files.len() {
        if statics.len() >= u32::MAX as usize {
            return Err(AllocError);
        }
        firsts.push(statics.len() as u32 + 1)?;
        add_statics(alloc, &mut statics, literals, &files[class], class as u32)?;
    }
    if statics.len() >= u32::MAX as usize {
        return Err(AllocError);
    }
    Ok((statics, firsts))
}

/// The name of the class and that of the field at a place of it, joined by a dot.
pub(crate) fn name_in(alloc: Global, file: &ClassFile, place: u32) -> Result<Bytes, AllocError>
    ensures { IfOk result (λ name. name ≡ name_in file.now (slice_get file.now.fields place)) }
{
    let mut name = Vec::new(alloc);
    let Some(field) = file.fields.as_slice().get(place as usize) else {
        return Ok(Bytes::from_vec(name));
    };
    name.extend_from_slice(name_of(file))?;
    name.push(b'.')?;
    name.extend_from_slice(text_at(&file.pool, field.name))?;
    Ok(Bytes::from_vec(name))
}
