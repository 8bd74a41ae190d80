// The text of a graph.
ghost use Rattle.std.specs.Prelude.{◌≡◌, IfOk};
ghost use Rattle.image_report.specs.Texts.{dump_lines};

use crate::lengths::dump_length;
use crate::lines::{put_counts, put_nodes, put_roots};
use shared_graph::SharedGraph;
use std::alloc::{AllocError, Global};

/// The text that `dump` prints of a graph: its roots, and its nodes with their slots. Its room is taken once, for all of it.
pub fn dump_text(alloc: Global, graph: &SharedGraph) -> Result<Vec<u8>, AllocError>
    ensures text { IfOk result (λ out. out.items ≡ dump_lines graph.now) }
{
    let length = dump_length(alloc, graph)?;
    let mut out = Vec::with_capacity(alloc, length)?;
    put_counts(&mut out, graph)?;
    put_roots(&mut out, graph.roots())?;
    put_nodes(&mut out, graph.nodes())?;
    Ok(out)
}
