//! What the rows of whole runs share: class files from listings, images in memory, and runs of the
//! top call on them. For tests alone.
#![tactic(auto)]

mod classes;
mod images;
mod rings;
mod runs;

pub use autopersist::{MeetingGate, Saved, Status, run_and_save, status_text};
pub use classes::{PRINTS, STORES, file, listed, listed_classes, main_class, source};
pub use images::{LINES, blank, line_of, no_fails, word_of};
pub use rings::RING;
pub use runs::{EndedOn, RUN, Run, has_output, run_watched, run_words, sink};
