//! What a walk comes to.

ghost use Rattle.std.specs.Prelude.{◌≡◌, ℕ, ◌<◌, ◌↔◌, List, [], ◌∷◌, ◌++◌, length, reverse, All, IfOk, OnOk, IsTrue, false};
ghost use Rattle.graph_walks.specs.Paths.{IsReached};
ghost use Rattle.graph_walks.specs.Circles.{HasNoCircle};
ghost use Rattle.graph_walks.specs.Order.{visits_from};
ghost use Rattle.graph_walks.specs.Reached.{has_vertex};

use ap_base::ListOf;
use std::alloc::{AllocError, Global};
use std::marker::Model;

/// The vertices that were reached so far, each once, in the order in which they were.
#[derive(Drop)]
pub struct Reached {
    order: Vec<u32>,
    marks: Vec<bool>,
}

impl Model for Reached {
    ghost use Rattle.std.specs.Prelude.{length};
    ghost use Rattle.graph_walks.specs.Reached.{Vertices, AreMarked};

    ghost Value = { Vertices };

    ghost view = { λ r. record { reached = r.order.items; count = length r.marks.items } };

    ghost invariant = { λ r. AreMarked r.order.items r.marks.items };
}

impl Reached {
    /// Of so many vertices none is reached yet.
    fn new(alloc: Global, count: usize) -> Result<Reached, AllocError>
        ensures none { IfOk result (λ r. r.reached ≡ []) }
        ensures count { IfOk result (λ r. r.count ≡ count) }
    {
        Ok(Reached {
            order: Vec::new(alloc),
            marks: vec![in alloc; false; count]?,
        })
    }

    /// Whether the vertex is reached.
    pub fn has(&self, vertex: u32) -> bool
        requires { vertex < self.now.count }
        ensures { result ≡ has_vertex self.now.reached vertex }
    {
        self.marks[vertex as usize]
    }

    /// Reaches one more vertex. Where one isn't reached, fewer are than there are.
    fn add(&mut self, vertex: u32) -> Result<(), AllocError>
        requires within { vertex < self.old.count }
        requires new { has_vertex self.old.reached vertex ≡ false }
        ensures added { OnOk result (self.new.reached ≡ self.old.reached ++ vertex ∷ []) }
        ensures count { self.new.count ≡ self.old.count }
        ensures room { length self.old.reached < self.old.count }
    {
        self.order.push(vertex)?;
        self.marks[vertex as usize] = true;
        Ok(())
    }

    /// The reached vertices in their order.
    pub fn into_order(self) -> Vec<u32>
        ensures { result.items ≡ self.reached }
    {
        self.order
    }

    /// These vertices, and those to which paths lead from them. In a graph without circles each stands where a walk that goes depth
    /// first, in the order of these and of the edges, comes to it first.
    ///
    /// Takes time and memory for each vertex and each edge once, however long the paths are.
    pub fn from(alloc: Global, edges: &[ListOf<u32>], starts: &[u32]) -> Result<Reached, AllocError>
        requires there { All (λ next. All (λ (v : ℕ). v < length edges.now) next) edges.now }
        requires starts { All (λ (v : ℕ). v < length edges.now) starts.now }
        ensures count { IfOk result (λ r. r.count ≡ length edges.now) }
        ensures exact { IfOk result
            (λ r. (n : ℕ) → IsTrue (has_vertex r.reached n) ↔ IsReached edges.now starts.now n) }
        ensures order { IfOk result
            (λ r. HasNoCircle edges.now → r.reached ≡ visits_from edges.now starts.now) }
    {
        let mut reached = Reached::new(alloc, edges.len())?;
        let mut pending = Vec::new(alloc);
        push_reversed(&mut pending, starts)?;
        while let Some(vertex) = pending.pop() {
            if !reached.has(vertex) {
                reached.add(vertex)?;
                push_reversed(&mut pending, edges[vertex as usize].as_slice())?;
            }
        }
        Ok(reached)
    }
}

/// Puts vertices onto those that are to be visited, so that the first comes first, before the others.
fn push_reversed(pending: &mut Vec<u32>, vertices: &[u32]) -> Result<(), AllocError>
    ensures { OnOk result
        (reverse pending.new.items ≡ vertices.now ++ reverse pending.old.items) }
{
    for place in (0..vertices.len()).rev() {
        pending.push(vertices[place])?;
    }
    Ok(())
}
