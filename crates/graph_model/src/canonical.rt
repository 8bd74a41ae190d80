// The canonical graph.
ghost use Rattle.std.specs.Prelude.{◌≡◌, ℕ, map, All, IfOk, Contains, slice_index_or, ◌<◌, length};
ghost use Rattle.graph_model.specs.Heaps.{IsSound, root_values, values_of, has_number};
ghost use Rattle.graph_model.specs.Canon.{canon_of, root_of, node_of, found_from};
ghost use Rattle.graph_model.specs.Found.{IsNumberedRoot, IsNode};

use crate::numbering::Numbering;
use crate::{Graph, Heap, NamedValue, Node, Value};
use ap_base::{Bytes, ListOf, Place};
use std::alloc::{AllocError, Global};

/// The graph that the heap stands for: what its durable roots reach, numbered breadth first, roots in the
/// directory's order, slots in order, each object once.
pub fn canon(alloc: Global, heap: &Heap) -> Result<Graph, AllocError>
    requires sound { IsSound heap.now }
    ensures canon { IfOk result (λ g. g ≡ canon_of heap.now) }
{
    let starts = root_values(alloc, heap)?;
    let numbering = Numbering::of(alloc, heap, &starts)?;
    Ok(Graph {
        roots: named_roots(alloc, heap, &numbering)?,
        nodes: nodes(alloc, heap, &numbering)?,
    })
}

// What the roots hold, in order.
fn root_values(alloc: Global, heap: &Heap) -> Result<Vec<Value>, AllocError>
    requires { IsSound heap.now }
    ensures { IfOk result (λ values. values.items ≡ root_values heap.now) }
{
    let mut values = Vec::new(alloc);
    for root in heap.roots.as_slice() {
        values.push(heap.read(Place::Static(root.at)))?;
    }
    Ok(values)
}

fn named_roots(
    alloc: Global,
    heap: &Heap,
    numbering: &Numbering,
) -> Result<ListOf<NamedValue>, AllocError>
    requires sound { IsSound heap.now }
    requires numbered { All (IsNumberedRoot heap.now numbering.now.numbers) heap.now.roots }
    ensures { IfOk result (λ roots. roots ≡ map (root_of heap.now numbering.now.numbers) heap.now.roots) }
{
    let mut roots = Vec::new(alloc);
    for root in heap.roots.as_slice() {
        roots.push(NamedValue {
            name: Bytes::copy(alloc, root.name.as_slice())?,
            value: numbering.renumbered(heap.read(Place::Static(root.at))),
        })?;
    }
    Ok(ListOf::from_vec(roots))
}

fn node(alloc: Global, heap: &Heap, numbering: &Numbering, object: u32) -> Result<Node, AllocError>
    requires sound { IsSound heap.now }
    requires node { IsNode heap.now numbering.now.numbers object }
    ensures { IfOk result (λ node. node ≡ node_of heap.now numbering.now.numbers object) }
{
    let shape = heap.objects.as_slice()[object as usize].shape;
    Ok(Node {
        shape: heap.shapes.as_slice()[shape as usize].copy(alloc)?,
        values: numbering.renumbered_each(alloc, heap.values(object))?,
    })
}

fn nodes(alloc: Global, heap: &Heap, numbering: &Numbering) -> Result<ListOf<Node>, AllocError>
    requires sound { IsSound heap.now }
    requires nodes { All (IsNode heap.now numbering.now.numbers) numbering.now.numbers }
    ensures { IfOk result (λ nodes. nodes ≡ map (node_of heap.now numbering.now.numbers) numbering.now.numbers) }
{
    let mut nodes = Vec::new(alloc);
    for object in numbering.found() {
        nodes.push(node(alloc, heap, numbering, *object)?)?;
    }
    Ok(ListOf::from_vec(nodes))
}
