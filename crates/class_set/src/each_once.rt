//! Edges of which each is listed once.

ghost use Rattle.std.specs.Prelude.{◌≡◌, ℕ, ◌<◌, length, map, All, IfOk};
ghost use Rattle.graph_walks.specs.Order.{firsts};
ghost use Rattle.class_set.specs.Tables.{alone};

use ap_base::ListOf;
use graph_walks::Reached;
use std::alloc::{AllocError, Global};

/// So many vertices from which no edges lead.
fn no_edges(alloc: Global, count: usize) -> Result<Vec<ListOf<u32>>, AllocError>
    ensures { IfOk result (λ edges. edges.items ≡ alone count) }
{
    let mut edges = Vec::new(alloc);
    for _ in 0..count {
        edges.push(ListOf::new(alloc))?;
    }
    Ok(edges)
}

/// The same edges, of those from a vertex to another the first alone. A file may name a
/// superinterface again and again, and each walk comes to each edge.
pub(crate) fn each_once(
    alloc: Global,
    edges: &[ListOf<u32>],
) -> Result<Vec<ListOf<u32>>, AllocError>
    requires there { All (λ next. All (λ (v : ℕ). v < length edges.now) next) edges.now }
    ensures { IfOk result (λ once. once.items ≡ map firsts edges.now) }
{
    let vertices = no_edges(alloc, edges.len())?;
    let mut once = Vec::new(alloc);
    for next in edges {
        let reached = Reached::from(alloc, vertices.as_slice(), next.as_slice())?;
        once.push(ListOf::from_vec(reached.into_order()))?;
    }
    Ok(once)
}
