//! What each request of a thread does to a shared world, whatever heap holds its objects: the step
//! of the plain world that heap,
//! monitors, classes and threads stand for.
#![tactic(auto)]

mod laws;
mod step;

pub use laws::{a_step_leaves_the_words_of_the_limits, a_step_leaves_what_agrees};
pub use step::take_step;
