//! From a linked class set, a main class and an opening graph to the first act of a plain run.
#![tactic(auto)]

mod launches;
pub mod laws;
mod numbers;
mod objects;
mod roots;
mod statics;
mod tables;
mod values;

pub use launches::{PlainRun, begin_plain};
