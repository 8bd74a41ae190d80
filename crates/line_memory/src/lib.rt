//! The lines of an image, kept in memory: what each word shows, and what a stop may leave of it.
#![tactic(auto)]

mod attach;
mod laws;
mod memory;

pub use attach::AttachFault;
pub use laws::{
    a_fenced_word_stands_alone, a_stop_set_is_exact, every_line_is_resident,
    fences_leave_what_was_written, laws_of_stop_sets, stop_sets_gain_what_is_stored,
};
pub use memory::{LineMemory, MAX_LINES, MIN_LINES, Touch};
