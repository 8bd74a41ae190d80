// The walk over all objects that are found.
ghost use Rattle.std.specs.Prelude.{◌≡◌, ◌≤◌, [], List, IfOk, IfErr};
ghost use Rattle.ap_base.specs.Causes.{HasCauseOf};
ghost use Rattle.graph_model.specs.declared.types.Value.{Value as AnyValue};
ghost use Rattle.graph_model.specs.Canon.{with_new};
ghost use Rattle.image_layout.specs.Places.{max_lines};
ghost use Rattle.image_meaning.specs.Checks.{Words};
ghost use Rattle.image_meaning.specs.Meaning.{walk};
ghost use Rattle.image_walk.specs.Walking.{Shows, Looks, IsFaultOf};
ghost use Rattle.image_walk.specs.Found.{IsWalk};

use crate::RecoverFault;
use crate::found::FoundObjects;
use crate::visiting::visit;
use image_layout::FIRST_OBJECT_LINE;
use line_image::Image;
use line_memory::LineMemory;
use shared_graph::{SharedNode, SharedShape};
use std::alloc::Global;

/// What a walk found: the objects in order, their nodes, and the first line behind all of them.
#[derive(Drop)]
pub(crate) struct Walked {
    pub(crate) found: FoundObjects,
    pub(crate) nodes: Vec<SharedNode>,
    pub(crate) free: u32,
}

/// Looks at each object that was found, in order, and so at those that are found meanwhile. For each line of the image a
/// byte is taken here, and eight bytes by the places; for each node its own memory, but for its shape, which nodes share.
pub(crate) fn walk_objects<I: Image>(
    alloc: Global,
    memory: &mut LineMemory<I>,
    shapes: &[SharedShape],
    mut found: FoundObjects,
) -> Result<Walked, RecoverFault>
    requires most { memory.old.size ≤ max_lines }
    requires objects { found.objects ≡ memory.old.size }
    ensures walked { (c : Words) (start : List AnyValue) → Shows memory.old c → found.numbers ≡ with_new [] start
        → IfOk result (IsWalk shapes.now memory.old.size c start) }
    ensures bad { (c : Words) (start : List AnyValue) → Shows memory.old c → found.numbers ≡ with_new [] start
        → IfErr result (IsFaultOf (walk shapes.now memory.old.size c start memory.old.size)) }
    ensures looks { Looks memory.old memory.new }
    ensures cause { HasCauseOf RecoverFault.ImageFailed memory.old.faults memory.new.faults result }
{
    let mut lines = vec![in alloc; false; memory.lines() as usize]?;
    let taken = lines.as_mut_slice();
    let mut nodes = Vec::new(alloc);
    let mut free = FIRST_OBJECT_LINE;
    let mut next = 0;
    while let Some(line) = found.get(next) {
        let visited = visit(alloc, memory, shapes, &mut found, taken, line)?;
        nodes.push(visited.node)?;
        free = free.max(visited.end);
        next += 1;
    }
    Ok(Walked { found, nodes, free })
}
