//! What threads that convert objects have claimed, how far each has come, and which of them may be sealed.
#![tactic(auto)]

mod conversions;
mod groups;
mod laws;
mod line_marks;
mod marks_tree;
mod phase;
mod queue_lists;
mod thread_set;

pub use conversions::Conversions;
pub use laws::each_step_takes_work;
pub use phase::{Phase, Unready};
