//! One heap that threads share: objects over volatile words and lines of an image, with what is
//! being made durable, and the history. Each of its calls is an event of a machine.
#![tactic(auto)]

mod asking;
mod at_once;
mod calls;
mod conversions;
mod heap;
mod laws;
mod making;
mod notes;
mod planning;
mod quick;
mod regions;
mod requests;
mod sealing;
mod telling;

pub use conversions::Conversion;
pub use heap::SharedHeap;
pub use laws::steps_add_acts_that_name_nothing;
pub use requests::Plan;
pub use store_barrier::{Barrier, answers_serve_machines};
pub use telling::place_of;
