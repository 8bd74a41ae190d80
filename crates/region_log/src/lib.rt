//! The undo log of a thread's failure-atomic regions, in the image.
#![tactic(auto)]

mod calls;
mod entry;
mod laws;
mod log;

pub use entry::{EndStage, Entry, EntryStage, Underway};
pub use laws::{
    a_kept_log_is_left, a_log_begins_empty, left_entries_name_words, logs_see_their_fences,
    others_keep_a_log, others_keep_a_region,
};
pub use log::{EndStep, LogStep, RegionLog};
