//! History files: the acts of a run as words of eight bytes, written and read.
#![tactic(auto)]

mod fault;
mod fields;
mod head;
mod kind;
pub mod laws;
mod ops;
mod reading;
mod writing;

pub use fault::HistoryFault;
pub use reading::read_history;
pub use writing::write_history;
