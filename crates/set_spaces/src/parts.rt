// The parts of a first heap.
ghost use Rattle.std.specs.Prelude.{◌≡◌, All, IfOk};
ghost use Rattle.class_set.specs.Facts.{facts_of};
ghost use Rattle.directories.specs.Planning.{directory_of_kept};
ghost use Rattle.set_spaces.specs.Over.{ArePartsOver, HasShapesOf, IsOfClass, ListsClasses, RootNamesDiffer};

use crate::fields::first_fields;
use crate::objects::objects_of;
use crate::tables::tables_of;
use class_set::{
    ClassSet, linked_sets_are_consistent, literals_are_short, made_arrays_are_known,
    roots_of_linked_sets_differ,
};
use directories::Directory;
use first_spaces::SpacesParts;
use std::alloc::{AllocError, Global};

/// The parts of the first heap of a set over an image whose directory has these entries. The shapes
/// of the heap are the directory's in their order, and behind them those of the classes that it
/// lacks. A durable root lies in the slot of its name, and behind the set's static fields stands
/// one for each root of the directory that the set lacks. Names are found by ordered maps.
///
/// # Errors
///
/// Want of memory, and of numbers, as of 2^32 shapes.
pub fn spaces_parts(
    alloc: Global,
    set: &ClassSet,
    directory: &Directory,
) -> Result<SpacesParts, AllocError>
    requires agree { All (IsOfClass (facts_of set.now)) directory.now.shapes }
    requires classes { HasShapesOf set.now (directory_of_kept directory.now) }
    requires names_differ { RootNamesDiffer (directory_of_kept directory.now) }
    ensures parts { IfOk result (λ parts.
        ArePartsOver set.now (directory_of_kept directory.now) parts) }
    ensures listed { IfOk result (λ parts.
        ListsClasses set.now (directory_of_kept directory.now) parts.tables) }
{
    linked_sets_are_consistent();
    literals_are_short();
    made_arrays_are_known();
    roots_of_linked_sets_differ();
    let _linked = set.shapes();
    Ok(SpacesParts {
        tables: tables_of(alloc, set, directory)?,
        objects: objects_of(alloc, set)?,
        statics: first_fields(alloc, set, directory.roots())?,
    })
}
