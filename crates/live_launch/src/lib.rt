//! A live view of a run of a linked class set from an opening graph on.
#![tactic(auto)]

mod first;
mod launch;

pub use launch::begin_live;
