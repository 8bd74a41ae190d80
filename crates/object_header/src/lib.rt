//! The states of a volatile object, and the words that hold them.
#![tactic(auto)]

mod state;

pub use state::{State, state_of, state_word};
