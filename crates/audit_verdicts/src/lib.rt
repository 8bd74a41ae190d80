//! What an audit answers of a history, an output and a graph: definitions and laws alone.
#![tactic(auto)]

mod laws;
mod verdict;

pub use laws::{some_verdict_is_right, verdicts_exclude_each_other, yes_means_allowed};
pub use verdict::Verdict;
