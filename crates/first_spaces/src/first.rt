// The first heap over an image.
ghost use Rattle.std.specs.Prelude.{◌≡◌, IfErr, IfOk};
ghost use Rattle.graph_model.specs.declared.types.Graph.{Graph};
ghost use Rattle.image_meaning.specs.Directories.{Directory};
ghost use Rattle.one_space.specs.First.{IfFull, LacksWords};
ghost use Rattle.plain_model.specs.Facts.{SetFacts};
ghost use Rattle.plain_model.specs.First.{first_heap};
ghost use Rattle.two_spaces.specs.Seen.{shown_of};
ghost use Rattle.two_spaces.specs.Whole.{IsWhole};
ghost use Rattle.first_spaces.specs.Beginnings.{HasTables, IsWholeOpened, RootsLieInSlots, ShowsOpening, StandFor};
ghost use Rattle.first_spaces.specs.Filled.{CanBeEmpty, CanBeFilled, IsEmpty, IsFilled};
ghost use Rattle.first_spaces.specs.Parts.{IsBeginning, volatile_objects};
ghost use Rattle.first_spaces.specs.Spaces.{spaces_of};

use crate::adding::add_objects;
use crate::items::first_statics;
use crate::parts::{FirstField, FirstObjects, SpacesParts, SpacesTables};
use ap_base::Ref;
use line_image::Image;
use line_memory::LineMemory;
use one_space::NoFirstHeap;
use std::alloc::Global;
use twin_heap::TwinHeap;
use two_spaces::{TwoSpaces, heaps_begin_whole};
use volatile_space::VolatileSpace;

/// The heap with which a run over an image begins, and the references of what the run names itself.
#[derive(Drop)]
pub struct FirstSpaces<I: Image> {
    pub spaces: TwoSpaces<I>,
    /// The empty array of the arguments of `main`.
    pub arguments: Ref,
    /// The objects of the string literals, in their order.
    pub literals: Vec<Ref>,
}

/// A heap of the objects that begin at these lines, without static fields, and with so many words.
fn empty_spaces<I: Image>(
    alloc: Global,
    tables: SpacesTables,
    lines: &[u32],
    memory: LineMemory<I>,
    words: u32,
) -> Result<TwoSpaces<I>, LineMemory<I>>
    requires can { CanBeEmpty tables lines.now words memory }
    ensures empty { IfOk result (λ spaces. IsEmpty tables lines.now words memory (spaces_of spaces)) }
    ensures memory { IfErr result (λ back. back ≡ memory) }
{
    heaps_begin_whole();
    let SpacesTables {
        shapes,
        heap_shapes,
        classes,
        numbers,
    } = tables;
    let Ok(space) = VolatileSpace::reserve(alloc, words) else {
        return Err(memory);
    };
    match TwinHeap::new(alloc, heap_shapes.as_slice(), lines, space, memory) {
        Ok(heap) => Ok(TwoSpaces {
            heap,
            shapes,
            classes,
            numbers,
            statics: Vec::new(alloc),
        }),
        Err((_, memory)) => Err(memory),
    }
}

/// Gives a heap its first volatile objects and its static fields, and answers the references of the arguments and the
/// literals.
fn fill<I: Image>(
    alloc: Global,
    spaces: &mut TwoSpaces<I>,
    objects: &FirstObjects,
    fields: &[FirstField],
) -> Result<(Ref, Vec<Ref>), NoFirstHeap>
    requires whole { IsWhole (spaces_of spaces.old) }
    requires can { CanBeFilled spaces.old.shapes objects.now fields.now }
    ensures filled { IfOk result (λ refs. IsFilled objects.now fields.now (spaces_of spaces.old)
        (spaces_of spaces.new) refs.0 refs.1.items) }
    ensures full { IfErr result (λ e. IfFull e
        (LacksWords spaces.old.heap.space.left (volatile_objects objects.now))) }
    ensures memory { spaces.new.heap.memory ≡ spaces.old.heap.memory }
{
    let references = add_objects(alloc, spaces, objects)?;
    spaces.statics = first_statics(
        alloc,
        references.stream,
        references.literals.as_slice(),
        fields,
    )?;
    Ok((references.arguments, references.literals))
}

impl<I: Image> FirstSpaces<I> {
    /// The heap with which a run of a class set begins over an image whose graph's nodes begin at these lines. They are
    /// numbered in their order; the object of `System.out`, the empty array of arguments and the literals come behind
    /// them, in a volatile space of so many words. It takes all memory that the heap will ever have, and makes no call
    /// of the image.
    ///
    /// # Errors
    ///
    /// `Full` exactly where the first volatile objects take more words than there are: it tells the words of the first
    /// one that finds fewer, and those that were left. `OutOfMemory` may stand in place of any answer. The memory over
    /// the image is given back.
    pub fn new(
        alloc: Global,
        parts: SpacesParts,
        lines: &[u32],
        memory: LineMemory<I>,
        words: u32,
    ) -> Result<FirstSpaces<I>, (NoFirstHeap, LineMemory<I>)>
        requires { (set : SetFacts) × (graph : Graph) × (directory : Directory)
            × IsBeginning set graph directory parts lines.now memory }
        ensures shows { (set : SetFacts) (graph : Graph) (directory : Directory)
            → IsBeginning set graph directory parts lines.now memory
            → IfOk result (λ first. ShowsOpening set graph words (shown_of (spaces_of first.spaces))) }
        ensures references { (set : SetFacts) (graph : Graph) (directory : Directory)
            → IsBeginning set graph directory parts lines.now memory
            → IfOk result (λ first. StandFor set graph (shown_of (spaces_of first.spaces)) first.arguments
            first.literals.items) }
        ensures whole { (set : SetFacts) (graph : Graph) (directory : Directory)
            → IsBeginning set graph directory parts lines.now memory
            → IfOk result (λ first. IsWholeOpened directory lines.now (spaces_of first.spaces)) }
        ensures roots { (set : SetFacts) (graph : Graph) (directory : Directory)
            → IsBeginning set graph directory parts lines.now memory
            → IfOk result (λ first. RootsLieInSlots (first_heap set graph).roots first.spaces.statics.items) }
        ensures tables { IfOk result (λ first. HasTables parts.tables (spaces_of first.spaces)) }
        ensures memory { IfOk result (λ first. first.spaces.heap.memory ≡ memory) }
        ensures full { IfErr result (λ e. IfFull e.0 (LacksWords words (volatile_objects parts.objects))) }
        ensures given_back { IfErr result (λ e. e.1 ≡ memory) }
    {
        let SpacesParts {
            tables,
            objects,
            statics,
        } = parts;
        let mut spaces = match empty_spaces(alloc, tables, lines, memory, words) {
            Ok(spaces) => spaces,
            Err(memory) => return Err((NoFirstHeap::OutOfMemory, memory)),
        };
        match fill(alloc, &mut spaces, &objects, statics.as_slice()) {
            Ok((arguments, literals)) => Ok(FirstSpaces {
                spaces,
                arguments,
                literals,
            }),
            Err(e) => Err((e, spaces.heap.memory)),
        }
    }
}
