//! Words of a line memory that steps store to, and all others, whatever lines are resident.
#![tactic(auto)]

mod fetch;
mod put;

pub use fetch::{fetch_line, is_ready};
pub use put::{make_fence, put_word, write_line};
