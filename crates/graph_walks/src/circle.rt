//! Circles in a directed graph.

ghost use Rattle.std.specs.Prelude.{◌≡◌, ◌^◌, ◌<◌, ℕ, length, All, None, IfOk, IfSome};
ghost use Rattle.graph_walks.specs.Circles.{HasNoCircle, IsFirstOnCircle};

use crate::walk::Reached;
use ap_base::ListOf;
use std::alloc::{AllocError, Global};

/// The first vertex that lies on a circle. A vertex has the numbers of those to which its edges lead.
pub fn first_on_circle(alloc: Global, edges: &[ListOf<u32>]) -> Result<Option<u32>, AllocError>
    requires few { length edges.now < 2 ^ 32 }
    requires there { All (λ next. All (λ (v : ℕ). v < length edges.now) next) edges.now }
    ensures found { IfOk result (λ v. IfSome v (λ v. IsFirstOnCircle edges.now v)) }
    ensures free { IfOk result (λ v. v ≡ None → HasNoCircle edges.now) }
{
    for vertex in 0..edges.len() as u32 {
        if Reached::from(alloc, edges, edges[vertex as usize].as_slice())?.has(vertex) {
            return Ok(Some(vertex));
        }
    }
    Ok(None)
}
