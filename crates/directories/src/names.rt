// The names of a directory's entries, found through ordered maps.
ghost use Rattle.std.specs.Prelude.{◌≡◌, map, IfOk, OnOk};
ghost use Rattle.graph_model.specs.declared.types.Shape.{Shape as GraphShape};
ghost use Rattle.image_meaning.specs.Directories.{Directory as Entries, no_entries, with_entry};
ghost use Rattle.directories.specs.Read.{entry_of, the_directory};
ghost use Rattle.directories.specs.Planning.{has_entry};
ghost use Rattle.directories.specs.Names.{HaveNames, AreNamesOf};

use crate::entries::Entry;
use ap_base::Bytes;
use graph_model::Shape;
use std::alloc::{AllocError, Global};
use text_table::SortedTexts;

/// The names of a directory's shapes and of its roots. One is found within time that grows with the logarithm of how many there
/// are.
#[derive(Drop)]
pub(crate) struct Names {
    pub shapes: SortedTexts,
    pub roots: SortedTexts,
}

impl Names {
    /// Those of an empty directory. Takes no memory.
    pub(crate) fn none(alloc: Global) -> Names
        ensures { AreNamesOf no_entries result }
    {
        Names {
            shapes: SortedTexts::new(alloc),
            roots: SortedTexts::new(alloc),
        }
    }

    /// Those of a directory with these shapes and roots.
    pub(crate) fn of(alloc: Global, shapes: &[Shape], roots: &[Bytes]) -> Result<Names, AllocError>
        ensures { IfOk result (λ names. AreNamesOf (the_directory shapes.now roots.now) names) }
    {
        Ok(Names {
            shapes: shape_names(alloc, shapes)?,
            roots: root_names(alloc, roots)?,
        })
    }

    /// Whether an entry of this kind and name is there.
    pub(crate) fn has(&self, entry: &Entry) -> bool
        ensures { (directory : Entries) → AreNamesOf directory self.now
            → result ≡ has_entry directory (entry_of entry.now) }
    {
        match entry {
            Entry::Shape(shape) => self.shapes.has(shape.name.as_slice()),
            Entry::Root(name) => self.roots.has(name.as_slice()),
        }
    }

    /// Adds the kind and name of an entry.
    pub(crate) fn add(&mut self, alloc: Global, entry: &Entry) -> Result<(), AllocError>
        ensures { (directory : Entries) → AreNamesOf directory self.old
            → OnOk result (AreNamesOf (with_entry directory (entry_of entry.now)) self.new) }
    {
        match entry {
            Entry::Shape(shape) => self.shapes.add(alloc, shape.name.as_slice()),
            Entry::Root(name) => self.roots.add(alloc, name.as_slice()),
        }
    }
}

fn shape_names(alloc: Global, shapes: &[Shape]) -> Result<SortedTexts, AllocError>
    ensures { IfOk result (λ names. HaveNames names (map (λ (shape : GraphShape). shape.name) shapes.now)) }
{
    let mut names = SortedTexts::new(alloc);
    for shape in shapes {
        names.add(alloc, shape.name.as_slice())?;
    }
    Ok(names)
}

fn root_names(alloc: Global, roots: &[Bytes]) -> Result<SortedTexts, AllocError>
    ensures { IfOk result (λ names. HaveNames names roots.now) }
{
    let mut names = SortedTexts::new(alloc);
    for root in roots {
        names.add(alloc, root.as_slice())?;
    }
    Ok(names)
}
