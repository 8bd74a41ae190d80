// A class set's entries, and its classes by name.
ghost use Rattle.std.specs.Prelude.{◌≡◌, ◌++◌, map, OnOk};
ghost use Rattle.std.specs.Option.{option_copied, option_to_list};
ghost use Rattle.image_meaning.specs.Entries.{ShapeEntry, RootEntry};
ghost use Rattle.class_set.specs.Sets.{IsLinked};
ghost use Rattle.directories.specs.Read.{entry_of};
ghost use Rattle.set_directory.specs.Written.{shape_called, written_shapes, written_roots};

use crate::names::{root_names, shape_names};
use ap_base::Bytes;
use class_set::{ClassSet, made_arrays_are_known, shapes_can_be_written};
use directories::{Classes, Entry, class_set_entries_can_be_planned};
use graph_model::Shape;
use std::alloc::{AllocError, Global};
use std::marker::Model;

/// A class set as a directory asks it.
#[derive(Drop)]
pub struct SetClasses<'a> {
    set: &'a ClassSet,
}

impl<'a> Model for SetClasses<'a> {
    ghost use Rattle.class_set.specs.Linked.{Linked};

    ghost Value = { Linked };

    ghost view = { λ s. s.set.now };
}

impl<'a> SetClasses<'a> {
    pub fn of(set: &'a ClassSet) -> SetClasses<'a>
        ensures { result ≡ set.now }
    {
        SetClasses { set }
    }
}

impl<'a> Classes for SetClasses<'a> {
    ghost use Rattle.class_set.specs.Facts.{facts_of};
    ghost use Rattle.class_set.specs.Sets.{made_of};

    ghost facts = { λ s. facts_of s };

    ghost made = { λ s. made_of s };

    fn class_shape(&self, name: &[u8]) -> Option<&Shape> {
        self.set.class_shape(name)
    }

    fn entries(&self, alloc: Global) -> Result<Vec<Entry>, AllocError> {
        class_set_entries_can_be_planned();
        shapes_can_be_written();
        made_arrays_are_known();
        let mut entries = Vec::new(alloc);
        push_shapes(alloc, &mut entries, self.set)?;
        push_roots(alloc, &mut entries, self.set)?;
        Ok(entries)
    }
}

/// Adds the shapes that a directory has for the class set, in the order of their names.
fn push_shapes(alloc: Global, entries: &mut Vec<Entry>, set: &ClassSet) -> Result<(), AllocError>
    ensures pushed { OnOk result (map entry_of entries.new.items
        ≡ map entry_of entries.old.items ++ map ShapeEntry (written_shapes set.now)) }
    ensures linked { IsLinked set.now }
{
    let names = shape_names(alloc, set)?;
    for name in names.as_slice() {
        push_shape(alloc, entries, set, name.as_slice())?;
    }
    Ok(())
}

/// Adds the shape of the class or the array type with this name, if there is one.
fn push_shape(
    alloc: Global,
    entries: &mut Vec<Entry>,
    set: &ClassSet,
    name: &[u8],
) -> Result<(), AllocError>
    ensures { OnOk result (map entry_of entries.new.items
        ≡ map entry_of entries.old.items ++ map ShapeEntry (option_to_list (shape_called set.now name.now))) }
{
    if let Some(shape) = shape_called(set, name) {
        entries.push(Entry::Shape(shape.copy(alloc)?))?;
    }
    Ok(())
}

/// The shape of the class or the array type with this name.
fn shape_called<'a>(set: &'a ClassSet, name: &[u8]) -> Option<&'a Shape>
    ensures { option_copied result ≡ shape_called set.now name.now }
{
    set.shape(set.class_named(name)?)
}

/// Adds the durable roots, in the order of their names.
fn push_roots(alloc: Global, entries: &mut Vec<Entry>, set: &ClassSet) -> Result<(), AllocError>
    ensures { OnOk result (map entry_of entries.new.items
        ≡ map entry_of entries.old.items ++ map RootEntry (written_roots set.now)) }
{
    let names = root_names(alloc, set)?;
    for name in names.as_slice() {
        entries.push(Entry::Root(Bytes::copy(alloc, name.as_slice())?))?;
    }
    Ok(())
}
