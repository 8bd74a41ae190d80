//! The superclasses of classes.

ghost use Rattle.std.specs.Prelude.{◌≡◌, ◌≤◌, ◌++◌, List, None, length, map, slice_index_or, IfOk, OnOk};
ghost use Rattle.class_file.specs.declared.class.ClassFile.{ClassFile as File};
ghost use Rattle.built_in_table.specs.Members.{built_in_supers};
ghost use Rattle.built_in_table.specs.Rows.{row_super};
ghost use Rattle.class_set.specs.Linked.{class_names};
ghost use Rattle.class_set.specs.Members.{super_number, supers_of, superclasses_in};

use built_in_table::{BuiltIn, built_in_classes};
use class_file::ClassFile;
use class_links::super_of;
use std::alloc::{AllocError, Global};
use text_table::Texts;

fn super_number(names: &Texts, file: &ClassFile) -> Option<u32>
    ensures { (files : List File) → names.now ≡ class_names files → result
        ≡ super_number files file.now }
{
    names.place(super_of(file))
}

fn file_supers(
    alloc: Global,
    files: &[ClassFile],
    names: &Texts,
) -> Result<Vec<Option<u32>>, AllocError>
    requires names { names.now ≡ class_names files.now }
    ensures { IfOk result
        (λ supers. supers.items ≡ map (super_number files.now) files.now) }
{
    let mut supers = Vec::new(alloc);
    for file in files {
        supers.push(super_number(names, file))?;
    }
    Ok(supers)
}

/// The number of the superclass of a built-in class, where the built-in classes follow so many
/// others.
fn built_in_super(first: u32, class: &BuiltIn) -> Option<u32>
    requires few { first ≤ 4096 }
    ensures { result ≡ row_super first class.now }
{
    match class.superclass {
        Some(place) => Some(first + u32::from(place)),
        None => None,
    }
}

fn add_built_in_supers(first: u32, supers: &mut Vec<Option<u32>>) -> Result<(), AllocError>
    requires few { first ≤ 4096 }
    ensures { OnOk result (supers.new.items ≡ supers.old.items ++ built_in_supers first) }
{
    for class in built_in_classes() {
        supers.push(built_in_super(first, class))?;
    }
    Ok(())
}

/// The number of the superclass of each class that isn't an array type, by number.
pub(crate) fn super_numbers(
    alloc: Global,
    files: &[ClassFile],
    names: &Texts,
) -> Result<Vec<Option<u32>>, AllocError>
    requires few { length files.now ≤ 4096 }
    requires names { names.now ≡ class_names files.now }
    ensures { IfOk result (λ supers. supers.items ≡ supers_of files.now) }
{
    let mut supers = file_supers(alloc, files, names)?;
    add_built_in_supers(files.len() as u32, &mut supers)?;
    Ok(supers)
}

/// The superclass of a class by their numbers.
fn super_at(supers: &[Option<u32>], class: u32) -> Option<u32>
    ensures { result ≡ slice_index_or supers.now class None }
{
    if (class as usize) < supers.len() {
        return supers[class as usize];
    }
    None
}

/// A class, its superclass, and so on up.
pub(crate) fn superclasses(
    alloc: Global,
    supers: &[Option<u32>],
    class: u32,
) -> Result<Vec<u32>, AllocError>
    ensures { IfOk result (λ chain. chain.items
        ≡ superclasses_in supers.now (length supers.now) class) }
{
    let mut chain = Vec::new(alloc);
    let mut at = class;
    for _ in 0..supers.len() {
        chain.push(at)?;
        let Some(above) = super_at(supers, at) else {
            return Ok(chain);
        };
        at = above;
    }
    chain.push(at)?;
    Ok(chain)
}
