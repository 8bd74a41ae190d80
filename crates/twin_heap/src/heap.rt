// The heap.
ghost use Rattle.std.specs.Prelude.{◌≡◌, ◌+◌, ◌/◌, ◌<◌, [], IfErr, IfOk, length, map};
ghost use Rattle.twin_forms.specs.Table.{Lies};
ghost use Rattle.twin_forms.specs.Sights.{sight};
ghost use Rattle.twin_heap.specs.Here.{IsOpening, kinds_of, opening};

use crate::marks::Marks;
use graph_model::Shape;
use line_image::Image;
use line_memory::LineMemory;
use std::alloc::Global;
use volatile_space::VolatileSpace;

/// One heap of objects over a space of volatile words and the lines of an image. A volatile object's first three words
/// are its state, its head and its number, and a word for each slot follows; a copy has its head and its slots.
///
/// That it is valid is a condition of its calls, not a fact of its type: logs and directories are given
/// `&mut heap.memory`, and store to no object's line there.
#[derive(Drop)]
pub struct TwinHeap<I: Image> {
    pub space: VolatileSpace,
    pub memory: LineMemory<I>,
    pub(crate) marks: Marks,
}

impl<I: Image> TwinHeap<I> {
    /// A heap of the objects that the memory shows from these lines on, numbered in their order, each of one of the
    /// shapes. Nothing of the space is taken.
    ///
    /// # Errors
    ///
    /// Want of memory. Space and memory are given back.
    pub fn new(
        alloc: Global,
        shapes: &[Shape],
        lines: &[u32],
        space: VolatileSpace,
        memory: LineMemory<I>,
    ) -> Result<TwinHeap<I>, (VolatileSpace, LineMemory<I>)>
        requires empty { space.words ≡ [] }
        requires few { length lines.now + space.left / 3 < 4294967296 }
        requires opening { IsOpening memory (map kinds_of shapes.now) lines.now }
        ensures valid { IfOk result (λ heap.
            Lies (sight heap.space heap.memory heap.marks) (opening memory lines.now)) }
        ensures space { IfOk result (λ heap. heap.space ≡ space) }
        ensures memory { IfOk result (λ heap. heap.memory ≡ memory) }
        ensures kinds { IfOk result (λ heap. heap.marks.kinds ≡ map kinds_of shapes.now) }
        ensures given_back { IfErr result (λ back. (back.0 ≡ space) × (back.1 ≡ memory)) }
    {
        match Marks::open(alloc, shapes, lines, memory.lines(), space.left() / 3) {
            Ok(marks) => Ok(TwinHeap {
                space,
                memory,
                marks,
            }),
            Err(_) => Err((space, memory)),
        }
    }
}
