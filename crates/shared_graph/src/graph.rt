// Graphs whose nodes share their shapes.
ghost use Rattle.std.specs.Prelude.{◌≡◌, IfOk, OnOk, OnErr};
ghost use Rattle.shared_graph.specs.Roots.{with_root};

use crate::node::SharedNode;
use ap_base::ListOf;
use graph_model::{Graph, NamedValue, Node};
use std::alloc::{AllocError, Global};
use std::marker::Model;

/// What an image holds: the durable roots, and the objects that they reach, which share their shapes. Contracts see the graph.
#[derive(Drop)]
pub struct SharedGraph {
    roots: ListOf<NamedValue>,
    nodes: ListOf<SharedNode>,
}

impl Model for SharedGraph {
    ghost use Rattle.graph_model.specs.declared.types.Graph.{Graph as AnyGraph};

    ghost Value = { AnyGraph };

    ghost view = { λ graph. record { roots = graph.roots; nodes = graph.nodes } };
}

impl SharedGraph {
    /// The graph of these roots and nodes. Takes no memory.
    pub fn new(roots: ListOf<NamedValue>, nodes: ListOf<SharedNode>) -> SharedGraph
        ensures roots { result.roots ≡ roots }
        ensures nodes { result.nodes ≡ nodes }
    {
        SharedGraph { roots, nodes }
    }

    /// The roots.
    pub fn roots(&self) -> &[NamedValue]
        ensures same { result.now ≡ self.now.roots }
    {
        self.roots.as_slice()
    }

    /// The nodes.
    pub fn nodes(&self) -> &[SharedNode]
        ensures same { result.now ≡ self.now.nodes }
    {
        self.nodes.as_slice()
    }

    /// Adds a root at the end. Without memory the graph is as before.
    pub fn add_root(&mut self, root: NamedValue) -> Result<(), AllocError>
        ensures added { OnOk result (self.new ≡ with_root self.old root) }
        ensures same { OnErr result (self.new ≡ self.old) }
    {
        self.roots.push(root)?;
        Ok(())
    }

    /// The graph, each of whose nodes owns its shape.
    pub fn into_graph(self, alloc: Global) -> Result<Graph, AllocError>
        ensures same { IfOk result (λ graph. graph ≡ self) }
    {
        let SharedGraph { roots, nodes } = self;
        Ok(Graph {
            roots,
            nodes: into_nodes(alloc, nodes)?,
        })
    }
}

/// The nodes, each of which owns its shape.
fn into_nodes(alloc: Global, shared: ListOf<SharedNode>) -> Result<ListOf<Node>, AllocError>
    ensures same { IfOk result (λ nodes. nodes ≡ shared) }
{
    let mut nodes = Vec::with_capacity(alloc, shared.len())?;
    for node in shared.into_vec() {
        nodes.push(node.into_node(alloc)?)?;
    }
    Ok(ListOf::from_vec(nodes))
}
