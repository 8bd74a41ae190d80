//! The texts that `check` and `dump` print of an image, and the commands that print them.
#![tactic(auto)]

mod checking;
mod commands;
mod dumping;
pub mod laws;
mod lengths;
mod lines;
mod not_reported;

pub use checking::check_text;
pub use commands::{Reported, check_image, dump_image};
pub use dumping::dump_text;
pub use not_reported::NotReported;
