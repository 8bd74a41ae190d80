//! Programs over forms in memory that stand on the top call's promise: a run is stopped, and what the stop left is recovered, or run on again;
//! a run prints what a plain run prints; and one that nothing outside hinders ends as a plain run does, or tells what was short.
#![tactic(auto)]

mod again;
mod stopping;
mod whole;

pub use again::{Given, Ran, Twice, run_twice};
pub use stopping::{Stop, Stopped, run_and_recover, run_and_recover_other};
pub use whole::{Printed, run_and_print, run_whole};
