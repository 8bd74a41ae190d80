//! The superinterfaces of classes.

ghost use Rattle.std.specs.Prelude.{◌≡◌, ◌≤◌, ◌++◌, length, map, IfOk, OnOk};
ghost use Rattle.std.specs.List.{flat_map};
ghost use Rattle.std.specs.Option.{option_to_list};
ghost use Rattle.built_in_table.specs.Members.{built_in_interfaces};
ghost use Rattle.built_in_table.specs.Rows.{row_interfaces};
ghost use Rattle.class_links.specs.Names.{interfaces_of};
ghost use Rattle.text_table.specs.Texts.{place_of};
ghost use Rattle.class_set.specs.Linked.{class_names};
ghost use Rattle.class_set.specs.Members.{interface_numbers, interface_edges};

use ap_base::ListOf;
use built_in_table::{BuiltIn, built_in_classes};
use class_file::ClassFile;
use class_links::class_name;
use std::alloc::{AllocError, Global};
use text_table::Texts;

/// The numbers of the direct superinterfaces of a file's class, in order.
fn numbers_of(alloc: Global, names: &Texts, file: &ClassFile) -> Result<Vec<u32>, AllocError>
    ensures { IfOk result
        (λ numbers. numbers.items ≡ flat_map
        (λ name. option_to_list (place_of names.now name)) (interfaces_of file.now)) }
{
    let mut numbers = Vec::new(alloc);
    for index in file.interfaces.as_slice() {
        if let Some(number) = names.place(class_name(&file.pool, *index)) {
            numbers.push(number)?;
        }
    }
    Ok(numbers)
}

fn file_interfaces(
    alloc: Global,
    files: &[ClassFile],
    names: &Texts,
) -> Result<Vec<ListOf<u32>>, AllocError>
    requires names { names.now ≡ class_names files.now }
    ensures { IfOk result (λ edges. edges.items ≡ map (interface_numbers files.now) files.now) }
{
    let mut edges = Vec::new(alloc);
    for file in files {
        edges.push(ListOf::from_vec(numbers_of(alloc, names, file)?))?;
    }
    Ok(edges)
}

/// The numbers of the superinterfaces of a built-in class, where the built-in classes follow so
/// many others.
fn built_in_numbers(alloc: Global, first: u32, class: &BuiltIn) -> Result<Vec<u32>, AllocError>
    requires few { first ≤ 4096 }
    ensures { IfOk result (λ numbers. numbers.items ≡ row_interfaces first class.now) }
{
    let mut numbers = Vec::new(alloc);
    for place in class.interfaces {
        numbers.push(first + u32::from(*place))?;
    }
    Ok(numbers)
}

fn add_built_ins(alloc: Global, first: u32, edges: &mut Vec<ListOf<u32>>) -> Result<(), AllocError>
    requires few { first ≤ 4096 }
    ensures { OnOk result (edges.new.items ≡ edges.old.items ++ built_in_interfaces first) }
{
    for class in built_in_classes() {
        edges.push(ListOf::from_vec(built_in_numbers(alloc, first, class)?))?;
    }
    Ok(())
}

/// The numbers of the direct superinterfaces of each class that isn't an array type, by number.
pub(crate) fn interface_edges(
    alloc: Global,
    files: &[ClassFile],
    names: &Texts,
) -> Result<Vec<ListOf<u32>>, AllocError>
    requires few { length files.now ≤ 4096 }
    requires names { names.now ≡ class_names files.now }
    ensures { IfOk result (λ edges. edges.items ≡ interface_edges files.now) }
{
    let mut edges = file_interfaces(alloc, files, names)?;
    add_built_ins(alloc, files.len() as u32, &mut edges)?;
    Ok(edges)
}
