//! Whether two graphs are the same.
#![tactic(auto)]

mod graphs;

pub use graphs::same_graph;
