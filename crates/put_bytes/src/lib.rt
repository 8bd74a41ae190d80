//! Bytes that are put: names and numbers into a text, and a text into a sink.
#![tactic(auto)]

mod sinks;
mod texts;

pub use sinks::put_all;
pub use texts::{put_decimal, put_signed, put_text};
