//! What a stop does to each act of a history, kept as the acts come; and the heap after the kept list that a word picks.
#![tactic(auto)]

mod doubts;
mod heaps;
mod laws;

pub use doubts::{Doubt, Doubts, Last};
pub use heaps::{do_op, kept_graph};
pub use laws::{doubts_go_on, kept_lists_fit};
