//! What a plain run records may be written to a history file, and is read again as it was written. Laws alone.
#![tactic(auto)]

mod laws;

pub use laws::{runs_are_read_as_they_were_written, tests_of_runs_are_whole};
