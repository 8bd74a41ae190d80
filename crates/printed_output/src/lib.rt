//! Whether the acts of a history print these bytes.
#![tactic(auto)]

mod laws;
mod output;

pub use output::prints;
