//! Class files of a source: read one by one, and linked.
#![tactic(auto)]

mod accepted;
mod files;
mod linking;
mod names;

pub use accepted::{AcceptedFiles, AcceptedSet};
pub use files::read_files;
pub use linking::link;
pub use names::internal_name;
