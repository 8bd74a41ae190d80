//! The workload: four threads that each build a durable list, as class files from a number.
#![tactic(auto)]

mod listings;
mod making;

pub use making::make_classes;
