//! The order in which a walk that goes depth first comes to the vertices of a directed graph.

ghost use Rattle.std.specs.Prelude.{◌≡◌, ℕ, ◌<◌, ◌↔◌, [], ◌∷◌, length, All, Contains, IfOk};
ghost use Rattle.graph_walks.specs.Paths.{IsReached};
ghost use Rattle.graph_walks.specs.Circles.{HasNoCircle};
ghost use Rattle.graph_walks.specs.Order.{visits};

use crate::walk::Reached;
use ap_base::ListOf;
use std::alloc::{AllocError, Global};

/// The vertices to which paths lead from this one, itself first. In a graph without circles each stands where a walk that goes depth
/// first, in the order of the edges, comes to it first. A vertex has the numbers of those to which its edges lead.
pub fn visits(alloc: Global, edges: &[ListOf<u32>], vertex: u32) -> Result<Vec<u32>, AllocError>
    requires there { All (λ next. All (λ (v : ℕ). v < length edges.now) next) edges.now }
    requires within { vertex < length edges.now }
    ensures exact { IfOk result
        (λ order. (n : ℕ) → Contains order.items n ↔ IsReached edges.now (vertex ∷ []) n) }
    ensures order { IfOk result
        (λ order. HasNoCircle edges.now → order.items ≡ visits edges.now vertex) }
{
    Ok(Reached::from(alloc, edges, &[vertex])?.into_order())
}
