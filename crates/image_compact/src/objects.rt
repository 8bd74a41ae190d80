// The objects of a graph's nodes are written.
ghost use Rattle.std.specs.Prelude.{◌<◌, ◌≤◌, ◌+◌, ◌^◌, ◌∷◌, All, length, map, OnOk};
ghost use Rattle.ap_base.specs.Causes.{HasCause};
ghost use Rattle.graph_model.specs.Heaps.{IsBelow};
ghost use Rattle.image_layout.specs.Places.{max_lines, lines_of};
ghost use Rattle.word_changes.specs.Changes.{ChangesTo, GoesOn, WritesAll};
ghost use Rattle.dense_image.specs.Graphs.{CanBeStoodFor};
ghost use Rattle.image_compact.specs.Planning.{IsPlan, word_by};
ghost use Rattle.image_compact.specs.Writing.{OfWords, OfObject, OfObjects};

use crate::planning::Plan;
use crate::values::eight_of_object;
use crate::words::write_eight;
use graph_model::Value;
use image_layout::{head_word, lines_of};
use line_image::{Image, ImageFailed};
use line_memory::LineMemory;
use shared_graph::SharedGraph;

/// Writes the object of each node.
pub(crate) fn write_objects<I: Image>(
    memory: &mut LineMemory<I>,
    graph: &SharedGraph,
    plan: &Plan,
) -> Result<(), ImageFailed>
    requires graph { CanBeStoodFor graph.now }
    requires plan { IsPlan memory.old.size graph.now plan.now }
    requires most { memory.old.size ≤ max_lines }
    ensures wrote { OnOk result (WritesAll (OfObjects graph.now (length graph.now.nodes)) memory.old memory.new) }
    ensures changes { ChangesTo (OfObjects graph.now (length graph.now.nodes)) memory.old memory.new }
    ensures goes_on { GoesOn memory.old memory.new }
    ensures cause { HasCause memory.old.faults memory.new.faults result }
{
    for n in 0..graph.nodes().len() {
        write_object(memory, graph, plan, n)?;
    }
    Ok(())
}

/// Writes the object of a node.
fn write_object<I: Image>(
    memory: &mut LineMemory<I>,
    graph: &SharedGraph,
    plan: &Plan,
    n: usize,
) -> Result<(), ImageFailed>
    requires graph { CanBeStoodFor graph.now }
    requires plan { IsPlan memory.old.size graph.now plan.now }
    requires most { memory.old.size ≤ max_lines }
    requires node { n < length graph.now.nodes }
    ensures wrote { OnOk result (WritesAll (OfObject graph.now n) memory.old memory.new) }
    ensures changes { ChangesTo (OfObject graph.now n) memory.old memory.new }
    ensures goes_on { GoesOn memory.old memory.new }
    ensures cause { HasCause memory.old.faults memory.new.faults result }
{
    let nodes = graph.nodes();
    let values = nodes[n].values();
    let head = head_word(plan.numbers[n], values.len() as u32);
    write_values(memory, plan.lines[n], head, values, plan.lines.as_slice())
}

/// Writes an object from a line on: its head, and what its slots hold.
fn write_values<I: Image>(
    memory: &mut LineMemory<I>,
    from: u32,
    head: u64,
    values: &[Value],
    lines: &[u32],
) -> Result<(), ImageFailed>
    requires values { All (IsBelow (length lines.now)) values.now }
    requires within { from + lines_of (length values.now) ≤ memory.old.size }
    requires most { memory.old.size ≤ max_lines }
    ensures wrote { OnOk result (WritesAll
        (OfWords (head ∷ map (word_by lines.now) values.now) from (lines_of (length values.now))) memory.old memory.new) }
    ensures changes { ChangesTo
        (OfWords (head ∷ map (word_by lines.now) values.now) from (lines_of (length values.now))) memory.old memory.new }
    ensures goes_on { GoesOn memory.old memory.new }
    ensures cause { HasCause memory.old.faults memory.new.faults result }
{
    let count = lines_of(values.len() as u32);
    for i in 0..count {
        let words = eight_of_object(head, values, lines, i);
        write_eight(memory, from + i, &words)?;
    }
    Ok(())
}
