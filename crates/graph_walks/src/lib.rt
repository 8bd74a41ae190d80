//! Walks along the edges of a directed graph: what paths lead to, in which order a walk that goes depth first comes to it, and circles.
#![tactic(auto)]

mod circle;
mod order;
mod walk;

pub use circle::first_on_circle;
pub use order::visits;
pub use walk::Reached;
