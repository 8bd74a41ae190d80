//! The graph of an image is found: its root slots are read, and the objects to which they lead are checked, breadth first.
#![tactic(auto)]

mod fault;
mod finding;
mod found;
mod heads;
mod numbers;
mod roots;
mod slots;
mod taken;
mod visiting;
mod walking;
mod words;

pub use fault::RecoverFault;
pub use finding::{FoundGraph, find_graph};
pub use words::read_word;
