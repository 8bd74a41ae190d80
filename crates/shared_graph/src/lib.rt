//! Graphs whose nodes share their shapes, as the objects of an image do.
#![tactic(auto)]

mod graph;
mod node;
mod shape;

pub use graph::SharedGraph;
pub use node::SharedNode;
pub use shape::{SharedShape, shared_shapes};
