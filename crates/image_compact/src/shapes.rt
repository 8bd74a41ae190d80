// The shapes of nodes, each once, and the number of each node's.
ghost use Rattle.std.specs.Prelude.{[], List, map, IfOk, OnOk, ◌++◌};
ghost use Rattle.graph_model.specs.declared.types.Shape.{Shape as NodeShape};
ghost use Rattle.dense_image.specs.Graphs.{root_entry};
ghost use Rattle.dense_image.specs.Written.{with_shape, shapes_of};
ghost use Rattle.image_meaning.specs.Entries.{DirectoryEntry, ShapeEntry};
ghost use Rattle.image_compact.specs.Planning.{Spell, Lists, NumberIn, AreNumbers};

use crate::entry_words::EntryWords;
use graph_model::{NamedValue, Shape};
use shared_graph::SharedNode;
use std::alloc::{AllocError, Global};
use text_table::Texts;

/// The shapes that nodes have, each once: their names, by number, and the words of their entries.
#[derive(Drop)]
pub(crate) struct Shapes {
    pub(crate) names: Texts,
    pub(crate) words: EntryWords,
}

/// The number of each node's shape, and the words of the shapes' entries.
#[derive(Drop)]
pub(crate) struct Numbered {
    pub(crate) numbers: Vec<u32>,
    pub(crate) words: EntryWords,
}

impl Shapes {
    /// None. Takes no memory.
    fn new(alloc: Global) -> Shapes
        ensures { Lists [] result }
    {
        Shapes {
            names: Texts::new(alloc),
            words: EntryWords::new(alloc),
        }
    }

    /// Adds a shape, unless one of its name is there, and gives its number. Want of numbers is want of memory.
    fn add(&mut self, alloc: Global, shape: &Shape) -> Result<u32, AllocError>
        ensures lists { (shapes : List NodeShape) → Lists shapes self.old
            → OnOk result (Lists (with_shape shapes shape.now) self.new) }
        ensures number { (shapes : List NodeShape) → Lists shapes self.old
            → IfOk result (NumberIn (with_shape shapes shape.now) shape.now.name) }
    {
        let name = shape.name.as_slice();
        if let Some(number) = self.names.place(name) {
            return Ok(number);
        }
        if self.names.len() >= u32::MAX - 1 {
            return Err(AllocError);
        }
        self.words.add_shape(shape)?;
        self.names.add(alloc, name)
    }
}

/// Numbers the shapes of nodes, in the order of the first node of each.
pub(crate) fn number_shapes(alloc: Global, nodes: &[SharedNode]) -> Result<Numbered, AllocError>
    ensures numbers { IfOk result (λ numbered. AreNumbers nodes.now numbered.numbers.items) }
    ensures words { IfOk result (λ numbered. Spell (map ShapeEntry (shapes_of nodes.now)) numbered.words) }
{
    let mut shapes = Shapes::new(alloc);
    let mut numbers = Vec::with_capacity(alloc, nodes.len())?;
    for node in nodes {
        let number = shapes.add(alloc, node.shape())?;
        numbers.push(number)?;
    }
    let Shapes { names: _, words } = shapes;
    Ok(Numbered { numbers, words })
}

/// Adds the words of the roots' entries.
pub(crate) fn add_roots(words: &mut EntryWords, roots: &[NamedValue]) -> Result<(), AllocError>
    ensures { (entries : List DirectoryEntry) → Spell entries words.old
        → OnOk result (Spell (entries ++ map root_entry roots.now) words.new) }
{
    for root in roots {
        words.add_root(root.name.as_slice())?;
    }
    Ok(())
}
