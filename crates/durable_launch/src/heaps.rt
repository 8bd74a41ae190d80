// The first heap over an opened image.
ghost use Rattle.std.specs.Prelude.{◌≡◌, IfErr, IfOk};
ghost use Rattle.line_image.specs.Told.{Told};
ghost use Rattle.image_meaning.specs.Meaning.{empty_graph};
ghost use Rattle.plain_model.specs.First.{first_objects};
ghost use Rattle.one_space.specs.First.{LacksWords};
ghost use Rattle.class_set.specs.Linked.{Linked};
ghost use Rattle.class_set.specs.Facts.{facts_of};
ghost use Rattle.program_launch.specs.Refusals.{IfFull};
ghost use Rattle.set_opening.specs.Opened.{IsOpenedFor};
ghost use Rattle.durable_launch.specs.Launching.{CanLaunch};

use ap_base::Ref;
use class_set::ClassSet;
use line_image::Image;
use line_memory::LineMemory;
use program_launch::NoLaunch;
use set_opening::{FirstSpaces, OpenedImage};
use set_spaces::{TwoSpaces, spaces_parts};
use shared_graph::SharedGraph;
use std::alloc::Global;

/// The heap with which a run over an opened image begins, and the references of what the run names
/// itself.
#[derive(Drop)]
pub struct OpenedHeap<I: Image> {
    pub spaces: TwoSpaces<I>,
    /// The empty array of the arguments of `main`.
    pub arguments: Ref,
    /// The objects of the string literals, in their order.
    pub literals: Vec<Ref>,
    /// The graph for which the image stands.
    pub graph: SharedGraph,
    /// The first line of the image behind all objects.
    pub free: u32,
}

/// The first heap of a class set over an image that was opened for it, with so many words of volatile
/// memory. It takes all memory that the heap will ever need.
///
/// # Errors
///
/// `Full` exactly where the first volatile objects take more words than there are: it tells the words
/// of the first one that finds fewer, and those that were left. `OutOfMemory` may stand in place of any
/// answer. The memory over the image is given back.
pub fn open_heap<I: Image>(
    alloc: Global,
    set: &ClassSet,
    opened: OpenedImage<I>,
    words: u32,
) -> Result<OpenedHeap<I>, (NoLaunch, LineMemory<I>)>
    requires opened { (start : Told) × (old : Linked) × IsOpenedFor start old set.now
        opened.memory opened.directory opened.lines opened.graph opened.free }
    ensures can { IfOk result (λ heap. (start : Told) (old : Linked) → IsOpenedFor start old set.now
        opened.memory opened.directory opened.lines opened.graph opened.free
        → CanLaunch start old set.now words heap) }
    ensures memory { IfOk result (λ heap. heap.spaces.heap.memory ≡ opened.memory) }
    ensures graph { IfOk result (λ heap. heap.graph ≡ opened.graph) }
    ensures full { IfErr result (λ e. IfFull e.0
        (LacksWords words (first_objects (facts_of set.now) empty_graph))) }
    ensures given_back { IfErr result (λ e. e.1 ≡ opened.memory) }
{
    let OpenedImage {
        memory,
        directory,
        graph,
        lines,
        free,
    } = opened;
    let parts = match spaces_parts(alloc, set, &directory) {
        Ok(parts) => parts,
        Err(_) => return Err((NoLaunch::OutOfMemory, memory)),
    };
    match FirstSpaces::new(alloc, parts, lines.as_slice(), memory, words) {
        Ok(
            FirstSpaces {
                spaces,
                arguments,
                literals,
            },
        ) => Ok(OpenedHeap {
            spaces,
            arguments,
            literals,
            graph,
            free,
        }),
        Err((why, memory)) => Err((NoLaunch::from(why), memory)),
    }
}
