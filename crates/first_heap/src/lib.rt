//! The first heap of a class set and an opening graph, as plain data.
#![tactic(auto)]

mod first;
mod made;
mod numbers;
mod objects;
mod places;
mod roots;
mod statics;
mod tables;
mod values;

pub use first::first_heap;
