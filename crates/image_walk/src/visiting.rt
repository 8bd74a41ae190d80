// One object that was found.
ghost use Rattle.std.specs.Prelude.{◌≡◌, ◌<◌, ◌≤◌, ℕ, List, length, IfOk, IfErr};
ghost use Rattle.ap_base.specs.Causes.{HasCauseOf};
ghost use Rattle.image_layout.specs.Places.{max_lines, first_object_line};
ghost use Rattle.image_meaning.specs.Checks.{Words};
ghost use Rattle.image_meaning.specs.Objects.{object_fault};
ghost use Rattle.image_walk.specs.Walking.{Shows, Looks, IsFault, IsTaken};
ghost use Rattle.image_walk.specs.Found.{IsVisit};

use crate::RecoverFault;
use crate::found::FoundObjects;
use crate::heads::check_head;
use crate::slots::read_values;
use crate::taken::take_lines;
use crate::words::read_word;
use ap_base::Spot;
use image_layout::lines_of;
use line_image::Image;
use line_memory::LineMemory;
use shared_graph::{SharedNode, SharedShape};
use std::alloc::Global;

/// An object that was looked at: its node, and the line behind it.
#[derive(Drop)]
pub(crate) struct Visited {
    pub(crate) node: SharedNode,
    pub(crate) end: u32,
}

/// Looks at the object that begins at a line: checks it, takes its lines and finds what it refers to.
pub(crate) fn visit<I: Image>(
    alloc: Global,
    memory: &mut LineMemory<I>,
    shapes: &[SharedShape],
    found: &mut FoundObjects,
    taken: &mut [bool],
    line: u32,
) -> Result<Visited, RecoverFault>
    requires most { memory.old.size ≤ max_lines }
    requires objects { found.old.objects ≡ memory.old.size }
    requires lines { length taken.old ≡ memory.old.size }
    requires low { first_object_line ≤ line }
    requires high { line < memory.old.size }
    ensures visited { (c : Words) (earlier : List ℕ) → Shows memory.old c → IsTaken taken.old c earlier
        → IfOk result (IsVisit shapes.now memory.old.size c earlier line found.old.numbers found.new.numbers taken.new) }
    ensures bad { (c : Words) (earlier : List ℕ) → Shows memory.old c → IsTaken taken.old c earlier
        → IfErr result (IsFault (object_fault shapes.now memory.old.size c earlier line)) }
    ensures objects_after { found.new.objects ≡ found.old.objects }
    ensures lines_after { length taken.new ≡ length taken.old }
    ensures looks { Looks memory.old memory.new }
    ensures cause { HasCauseOf RecoverFault.ImageFailed memory.old.faults memory.new.faults result }
{
    let word = read_word(memory, Spot { line, word: 0 })?;
    let head = check_head(shapes, memory.lines(), line, word)?;
    let count = lines_of(head.length);
    take_lines(taken, line, count)?;
    let shape = &shapes[head.shape as usize];
    let values = read_values(alloc, memory, shape.get(), line, head.length)?;
    found.add_each(values.as_slice())?;
    let values = found.renumbered_each(alloc, values.as_slice())?;
    Ok(Visited {
        node: SharedNode::new(shape.share()?, values),
        end: line + count,
    })
}
