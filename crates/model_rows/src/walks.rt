//! Walks of graphs that are written as texts, as `1 2, 2,`: after each comma stands where the edges from the next vertex lead.

ghost use Rattle.std.specs.Prelude.{ℕ, ◌<◌, length, All, IsTrue};

use ap_base::ListOf;
use graph_walks::{Reached, first_on_circle, visits};
use std::alloc::Global;
use std::test::Fail;

/// Whether these are among so many vertices.
fn are_vertices(vertices: &[u32], count: usize) -> bool
    ensures { IsTrue result → All (λ (v : ℕ). v < count) vertices.now }
{
    vertices.iter().all(|vertex| (*vertex as usize) < count)
}

/// Whether the edges lead to vertices that are there.
fn are_there(edges: &[ListOf<u32>]) -> bool
    ensures { IsTrue result
        → All (λ next. All (λ (v : ℕ). v < length edges.now) next) edges.now }
{
    edges
        .iter()
        .all(|next| are_vertices(next.as_slice(), edges.len()))
}

fn edges(alloc: Global, graph: &str) -> Result<Vec<ListOf<u32>>, Fail> {
    let mut edges = Vec::new(alloc);
    for line in graph.split(',') {
        let mut next = ListOf::new(alloc);
        for word in line.split_whitespace() {
            next.push(word.parse()?)?;
        }
        edges.push(next)?;
    }
    Ok(edges)
}

fn visited(alloc: Global, edges: &[ListOf<u32>], vertex: u32) -> Result<Vec<u32>, Fail> {
    if vertex as usize >= edges.len() || !are_there(edges) {
        return Err("a graph with the vertex")?;
    }
    Ok(visits(alloc, edges, vertex)?)
}

fn visited_from(alloc: Global, edges: &[ListOf<u32>], starts: &[u32]) -> Result<Vec<u32>, Fail> {
    if !are_there(edges) || !are_vertices(starts, edges.len()) {
        return Err("a graph with the vertices")?;
    }
    Ok(Reached::from(alloc, edges, starts)?.into_order())
}

/// Graphs, a vertex of each, and the vertices in the order in which they are first visited from there.
static VISITS: [(&str, u32, &[u32]); 11] = [
    ("", 0, &[0]),
    ("1, 2, 3, ", 0, &[0, 1, 2, 3]),
    ("1, 2, 3, ", 2, &[2, 3]),
    ("1 2, 3, 3, ", 0, &[0, 1, 3, 2]),
    ("2 1, 3, 3, ", 0, &[0, 2, 3, 1]),
    ("3 1, 2, 3, ", 0, &[0, 3, 1, 2]),
    ("1 1 2, 2 2, ", 0, &[0, 1, 2]),
    ("4 1, 2 3, 5, 5, 5, ", 0, &[0, 4, 5, 1, 2, 3]),
    ("2, , 3, ", 1, &[1]),
    // with circles
    ("0", 0, &[0]),
    ("1, 2, 0", 1, &[1, 2, 0]),
];

#[test]
fn vertices_in_the_order_of_the_first_visits(rt: HostRuntime) -> Result<(), Fail> {
    let alloc = rt.alloc();
    for (graph, vertex, want) in &VISITS {
        let order = visited(alloc, &edges(alloc, graph)?, *vertex)?;
        assert!(rt; order.as_slice() == *want, "{graph} from {vertex}");
    }
    Ok(())
}

/// Graphs, two vertices of each, and the vertices in the order in which they are first visited from there.
static STARTS: [(&str, [u32; 2], &[u32]); 3] = [
    ("2, 3, 4, 4 5, , ", [1, 0], &[1, 3, 4, 5, 0, 2]),
    ("2, 3, 4, 4 5, , ", [0, 1], &[0, 2, 4, 1, 3, 5]),
    ("1, , 0", [0, 1], &[0, 1]),
];

#[test]
fn vertices_from_two_starts(rt: HostRuntime) -> Result<(), Fail> {
    let alloc = rt.alloc();
    for (graph, starts, want) in &STARTS {
        let order = visited_from(alloc, &edges(alloc, graph)?, starts)?;
        assert!(rt; order.as_slice() == *want, "{graph}");
    }
    Ok(())
}

// A path of a million edges.
#[test]
fn long_path(rt: HostRuntime) -> Result<(), Fail> {
    let alloc = rt.alloc();
    let mut edges = Vec::new(alloc);
    for next in 1..=1_000_000u32 {
        edges.push(ListOf::from_vec([next].to_vec(alloc)?))?;
    }
    edges.push(ListOf::new(alloc))?;
    assert!(rt; visited(alloc, &edges, 0)?.len() == 1_000_001);
    Ok(())
}

/// Graphs, and the first vertex of each that lies on a circle.
static CIRCLES: [(&str, Option<u32>); 5] = [
    ("", None),
    ("0", Some(0)),
    ("1 2, 3, 3, ", None),
    ("2 1, 3, 3, 1", Some(1)),
    ("1, 2, 3, 2 3", Some(2)),
];

/// The first vertex on a circle of a small graph.
fn on_circle(alloc: Global, graph: &str) -> Result<Option<u32>, Fail> {
    let edges = edges(alloc, graph)?;
    if edges.len() > 10 || !are_there(&edges) {
        return Err("a small graph".into());
    }
    Ok(first_on_circle(alloc, &edges)?)
}

#[test]
fn first_vertices_on_circles(rt: HostRuntime) -> Result<(), Fail> {
    for (graph, want) in &CIRCLES {
        assert!(rt; on_circle(rt.alloc(), graph)? == *want, "{graph}");
    }
    Ok(())
}
