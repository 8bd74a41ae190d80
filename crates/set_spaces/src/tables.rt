// The tables of a class set over a directory.
ghost use Rattle.std.specs.Prelude.{◌≡◌, ◌<◌, ◌^◌, map, length, All, IfOk};
ghost use Rattle.graph_model.specs.declared.types.Shape.{Shape as ShapeOf};
ghost use Rattle.plain_model.specs.Facts.{classes_of};
ghost use Rattle.plain_model.specs.First.{class_named};
ghost use Rattle.class_set.specs.Facts.{facts_of};
ghost use Rattle.class_set.specs.Linked.{names_of};
ghost use Rattle.directories.specs.Planning.{directory_of_kept};
ghost use Rattle.first_spaces.specs.Parts.{AreTables};
ghost use Rattle.set_spaces.specs.Objects.{ListsNamed};
ghost use Rattle.set_spaces.specs.Over.{IsOfClass};

use crate::heap::{HeapShapes, copied, places_of};
use ap_base::ListOf;
use class_set::ClassSet;
use directories::Directory;
use first_spaces::SpacesTables;
use graph_model::Shape;
use std::alloc::{AllocError, Global};

/// How many classes and array types there are. Want of numbers is want of memory.
fn class_count(set: &ClassSet) -> Result<u32, AllocError>
    ensures count { IfOk result (λ count. count ≡ length (names_of set.now)) }
    ensures few { IfOk result (λ count. count < 2 ^ 32) }
{
    match u32::try_from(set.type_count()) {
        Ok(count) => Ok(count),
        Err(_) => Err(AllocError),
    }
}

/// The number of the class of this name; one past all where there is none.
fn class_called(set: &ClassSet, count: u32, name: &[u8]) -> u32
    requires count { count ≡ length (names_of set.now) }
    ensures { result ≡ class_named (classes_of (facts_of set.now)) name.now }
{
    match set.class_named(name) {
        Some(class) => class,
        None => count,
    }
}

/// The classes of these shapes, by their names.
fn classes_called(
    alloc: Global,
    set: &ClassSet,
    count: u32,
    shapes: &[Shape],
) -> Result<Vec<u32>, AllocError>
    requires count { count ≡ length (names_of set.now) }
    ensures { IfOk result (λ classes. classes.items
        ≡ map (λ (s : ShapeOf). class_named (classes_of (facts_of set.now)) s.name) shapes.now) }
{
    let mut classes = Vec::new(alloc);
    for shape in shapes {
        classes.push(class_called(set, count, shape.name.as_slice()))?;
    }
    Ok(classes)
}

/// The tables of the set over a directory.
pub(crate) fn tables_of(
    alloc: Global,
    set: &ClassSet,
    directory: &Directory,
) -> Result<SpacesTables, AllocError>
    requires agree { All (IsOfClass (facts_of set.now)) directory.now.shapes }
    ensures tables { IfOk result (λ tables.
        AreTables (facts_of set.now) (directory_of_kept directory.now) tables) }
    ensures listed { IfOk result (λ tables.
        ListsNamed (facts_of set.now) (directory_of_kept directory.now) tables) }
{
    let count = class_count(set)?;
    let had = directory.shapes();
    let classes = classes_called(alloc, set, count, had)?;
    let places = places_of(alloc, count, classes.as_slice())?;
    let mut heap = HeapShapes {
        shapes: copied(alloc, had)?,
        classes,
    };
    let numbers = heap.numbers(alloc, set.shapes(), places.as_slice())?;
    Ok(SpacesTables {
        shapes: ListOf::from_vec(copied(alloc, set.shapes())?),
        heap_shapes: ListOf::from_vec(heap.shapes),
        classes: heap.classes,
        numbers,
    })
}
