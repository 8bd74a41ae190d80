//! Class sets as the steps of a run ask them.
#![tactic(auto)]

mod laws;
mod throwables;
mod types;

pub use laws::facts_of_class_sets_meet_what_steps_ask;
pub use types::SetTypes;
