// The first heap.
ghost use Rattle.std.specs.Prelude.{◌≡◌, ◌<◌, ◌^◌, IfOk, length};
ghost use Rattle.graph_model.specs.Heaps.{IsSound};
ghost use Rattle.class_set.specs.Facts.{facts_of};
ghost use Rattle.plain_model.specs.First.{IsOpening, first_heap};

use crate::objects::first_objects;
use crate::places::first_roots;
use crate::statics::first_statics;
use crate::tables::first_shapes;
use ap_base::ListOf;
use class_set::{ClassSet, linked_sets_are_consistent};
use graph_model::{Graph, Heap};
use plain_model::the_first_heap_is_sound;
use std::alloc::{AllocError, Global};

/// The first heap of a class set and an opening graph: the graph's nodes, the object of `System.out`, the empty array of
/// arguments and the literals; the static fields; and the durable roots. Want of numbers, as 2^32 roots, is want of memory.
pub fn first_heap(alloc: Global, set: &ClassSet, opening: &Graph) -> Result<Heap, AllocError>
    requires { IsOpening (facts_of set.now) opening.now }
    ensures heap { IfOk result (λ heap. heap ≡ first_heap (facts_of set.now) opening.now) }
    ensures sound { IfOk result (λ heap. IsSound heap) }
    ensures few { IfOk result (λ heap. length heap.roots < 2 ^ 32) }
{
    linked_sets_are_consistent();
    the_first_heap_is_sound();
    let _linked = set.shapes();
    let literals = set.literals(alloc)?;
    let shapes = first_shapes(alloc, set)?;
    let objects = first_objects(alloc, set, opening.nodes.as_slice(), literals.as_slice())?;
    let statics = first_statics(alloc, set, opening)?;
    let roots = first_roots(alloc, set, opening)?;
    if roots.len() >= 1 << 32 {
        return Err(AllocError);
    }
    Ok(Heap {
        shapes: ListOf::from_vec(shapes),
        objects: ListOf::from_vec(objects),
        statics: ListOf::from_vec(statics),
        roots,
    })
}
