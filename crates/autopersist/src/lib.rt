//! The top call: the commands, by the words that ask for them.
#![tactic(auto)]

mod idle;
mod saving;
mod top_call;
mod workload_run;

pub use class_runs::{Ended, MeetingGate, blank_images_suit, stopped_runs_open_again};
pub use command_words::{Command, WordsFault, read_words};
pub use saving::{SaveFault, Saved, run_and_save};
pub use statuses::{Status, status_text};
pub use top_call::autopersist;
