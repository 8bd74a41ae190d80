// Nodes that share their shapes.
ghost use Rattle.std.specs.Prelude.{◌≡◌, IfOk};

use crate::shape::SharedShape;
use ap_base::ListOf;
use graph_model::{Node, Shape, Value};
use std::alloc::{AllocError, Global};
use std::marker::Model;

/// A node of a graph, which may share its shape with others. Contracts see the node.
#[derive(Drop)]
pub struct SharedNode {
    shape: SharedShape,
    values: ListOf<Value>,
}

impl Model for SharedNode {
    ghost use Rattle.graph_model.specs.declared.types.Node.{Node as GraphNode};

    ghost Value = { GraphNode };

    ghost view = { λ node. record { shape = node.shape; values = node.values } };
}

impl SharedNode {
    /// The node of this shape, with the values of its fields or elements. Takes no memory.
    pub fn new(shape: SharedShape, values: ListOf<Value>) -> SharedNode
        ensures shape { result.shape ≡ shape }
        ensures values { result.values ≡ values }
    {
        SharedNode { shape, values }
    }

    /// Its shape.
    pub fn shape(&self) -> &Shape
        ensures same { result.now ≡ self.now.shape }
    {
        self.shape.get()
    }

    /// The values of its fields or elements.
    pub fn values(&self) -> &[Value]
        ensures same { result.now ≡ self.now.values }
    {
        self.values.as_slice()
    }

    /// The node with a copy of its shape.
    pub(crate) fn into_node(self, alloc: Global) -> Result<Node, AllocError>
        ensures same { IfOk result (λ node. node ≡ self) }
    {
        let shape = self.shape().copy(alloc)?;
        let SharedNode { shape: _, values } = self;
        Ok(Node { shape, values })
    }
}
