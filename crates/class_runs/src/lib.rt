//! Runs of a class on an image: of a source's files, or of classes that are given.
#![tactic(auto)]

mod choice;
mod class_run;
mod laws;
mod ran;
mod sets;

pub use class_run::{Ended, run_class, run_classes};
pub use durable_launch::MeetingGate;
pub use laws::{blank_images_suit, stopped_runs_open_again};
pub use ran::{Ran, no_graph};
pub use source_classes::AcceptedFiles;
