//! Readers of a run's durable graph that never wait for the run.
#![tactic(auto)]

mod laws;
mod reader;
mod shown;
mod tie;
mod writer;

pub use laws::{a_count_as_told_is_of_the_acts_told, what_is_published_begins_the_acts_seen};
pub use live_heap::{Followed, Look};
pub use reader::{LiveReader, Told};
pub use writer::LiveWriter;
