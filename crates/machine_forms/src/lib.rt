//! What a shared heap with its threads keeps of its plain run and of each stop, and what its events are.
//! Definitions, and the laws that hold of all of them.
#![tactic(auto)]

mod doing;
mod laws;

pub use doing::Doing;
pub use laws::{durable_objects_lie_in_the_layout, groups_name_theirs};
pub use shared_steps::take_step;
pub use two_spaces::{Static, TwoSpaces};
