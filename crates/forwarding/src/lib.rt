//! Claims of volatile objects, and the references that lead to their copies.
#![tactic(auto)]

mod forward;

pub use forward::{Claimed, claim, resolve, set_forward, state_at};
