// The graph of an image.
ghost use Rattle.std.specs.Prelude.{◌≡◌, ◌≤◌, map, length, slice_index_or, IfOk, IfErr};
ghost use Rattle.std.specs.List.{range_with_len};
ghost use Rattle.ap_base.specs.Causes.{HasCauseOf};
ghost use Rattle.graph_model.specs.declared.types.Value.TheVariants.{Null};
ghost use Rattle.image_layout.specs.Places.{min_lines, max_lines, root_slots};
ghost use Rattle.image_meaning.specs.Checks.{Words};
ghost use Rattle.image_meaning.specs.Meaning.{graph_from};
ghost use Rattle.image_walk.specs.Walking.{Shows, Looks, IsFaultOf, directory_with, named_root};
ghost use Rattle.image_walk.specs.Found.{IsFoundGraph};

use crate::RecoverFault;
use crate::found::FoundObjects;
use crate::roots::read_roots;
use crate::walking::walk_objects;
use ap_base::{Bytes, ListOf};
use graph_model::{NamedValue, Shape, Value};
use line_image::Image;
use line_memory::LineMemory;
use shared_graph::{SharedGraph, shared_shapes};
use std::alloc::{AllocError, Global};

/// The graph of an image, the first line of each of its nodes, and the first line behind all of them.
#[derive(Drop)]
pub struct FoundGraph {
    pub graph: SharedGraph,
    pub lines: ListOf<u32>,
    pub free: u32,
}

/// Finds the graph of the words of an image, outside its logs, for a directory with these shapes and roots: the root
/// slots are checked, and then what is found from them, breadth first. `Bad` exactly where a check fails: the first one.
/// Nothing is stored.
pub fn find_graph<I: Image>(
    alloc: Global,
    memory: &mut LineMemory<I>,
    shapes: &[Shape],
    roots: &[Bytes],
) -> Result<FoundGraph, RecoverFault>
    requires enough { min_lines ≤ memory.old.size }
    requires most { memory.old.size ≤ max_lines }
    requires roots { length roots.now ≤ root_slots }
    ensures found { (c : Words) → Shows memory.old c
        → IfOk result (IsFoundGraph memory.old.size (directory_with shapes.now roots.now) c) }
    ensures bad { (c : Words) → Shows memory.old c
        → IfErr result (IsFaultOf (graph_from memory.old.size (directory_with shapes.now roots.now) c)) }
    ensures looks { Looks memory.old memory.new }
    ensures cause { HasCauseOf RecoverFault.ImageFailed memory.old.faults memory.new.faults result }
{
    let values = read_roots(alloc, memory, roots.len())?;
    let mut found = FoundObjects::new(alloc, memory.lines() as usize)?;
    found.add_each(values.as_slice())?;
    let shared = shared_shapes(alloc, shapes)?;
    let walked = walk_objects(alloc, memory, shared.as_slice(), found)?;
    let places = walked.found.renumbered_each(alloc, values.as_slice())?;
    Ok(FoundGraph {
        graph: SharedGraph::new(
            name_values(alloc, roots, places.as_slice())?,
            ListOf::from_vec(walked.nodes),
        ),
        lines: walked.found.into_lines(),
        free: walked.free,
    })
}

/// The names, each with the value at its place.
fn name_values(
    alloc: Global,
    names: &[Bytes],
    values: &[Value],
) -> Result<ListOf<NamedValue>, AllocError>
    ensures { IfOk result (λ roots. roots ≡ map (named_root names.now values.now) (range_with_len 0 (length names.now))) }
{
    let mut roots = Vec::with_capacity(alloc, names.len())?;
    for i in 0..names.len() {
        roots.push(NamedValue {
            name: Bytes::copy(alloc, names[i].as_slice())?,
            value: value_at(values, i),
        })?;
    }
    Ok(ListOf::from_vec(roots))
}

/// The value at a place; null where there is none.
fn value_at(values: &[Value], place: usize) -> Value
    ensures { result ≡ slice_index_or values.now place Null }
{
    if place < values.len() {
        values[place]
    } else {
        Value::Null
    }
}
