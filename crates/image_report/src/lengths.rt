// How long texts are: each line is made and counted.
ghost use Rattle.std.specs.Prelude.{◌≡◌, ◌+◌, length, IfOk};
ghost use Rattle.image_report.specs.Texts.{each, root_line, slot_line, node_lines, dump_lines};

use crate::lines::{put_counts, put_node, put_root, put_slot};
use graph_model::{NamedValue, Shape, Value};
use shared_graph::{SharedGraph, SharedNode};
use std::alloc::{AllocError, Global};

/// The length of a text behind which a line is put. No memory holds one that is longer than any number tells.
fn longer(before: usize, line: &Vec<u8>) -> Result<usize, AllocError>
    ensures { IfOk result (λ n. n ≡ before + length line.now.items) }
{
    match before.checked_add(line.len()) {
        Some(longer) => Ok(longer),
        None => Err(AllocError),
    }
}

/// The length of a text behind which the lines of roots are put.
fn with_roots(line: &mut Vec<u8>, before: usize, roots: &[NamedValue]) -> Result<usize, AllocError>
    ensures { IfOk result (λ n. n ≡ before + length (each root_line 0 roots.now)) }
{
    let mut length = before;
    for (k, root) in roots.iter().enumerate() {
        line.clear();
        put_root(line, k, root)?;
        length = longer(length, line)?;
    }
    Ok(length)
}

/// The length of a text behind which the lines of slots are put.
fn with_slots(
    line: &mut Vec<u8>,
    before: usize,
    shape: &Shape,
    values: &[Value],
) -> Result<usize, AllocError>
    ensures { IfOk result (λ n. n ≡ before + length (each (slot_line shape.now) 0 values.now)) }
{
    let mut length = before;
    for (i, value) in values.iter().enumerate() {
        line.clear();
        put_slot(line, shape, i, *value)?;
        length = longer(length, line)?;
    }
    Ok(length)
}

/// The length of a text behind which the lines of a node are put.
fn with_node(
    line: &mut Vec<u8>,
    before: usize,
    k: usize,
    node: &SharedNode,
) -> Result<usize, AllocError>
    ensures { IfOk result (λ n. n ≡ before + length (node_lines k node.now)) }
{
    line.clear();
    put_node(line, k, node)?;
    let length = longer(before, line)?;
    with_slots(line, length, node.shape(), node.values())
}

/// The length of a text behind which the lines of nodes are put.
fn with_nodes(line: &mut Vec<u8>, before: usize, nodes: &[SharedNode]) -> Result<usize, AllocError>
    ensures { IfOk result (λ n. n ≡ before + length (each node_lines 0 nodes.now)) }
{
    let mut length = before;
    for (k, node) in nodes.iter().enumerate() {
        length = with_node(line, length, k, node)?;
    }
    Ok(length)
}

/// How long a graph's text is. Takes memory for its longest line.
pub(crate) fn dump_length(alloc: Global, graph: &SharedGraph) -> Result<usize, AllocError>
    ensures { IfOk result (λ n. n ≡ length (dump_lines graph.now)) }
{
    let mut line = Vec::new(alloc);
    put_counts(&mut line, graph)?;
    let counts = line.len();
    let roots = with_roots(&mut line, counts, graph.roots())?;
    with_nodes(&mut line, roots, graph.nodes())
}
