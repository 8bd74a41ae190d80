//! The logs of all threads' failure-atomic regions, and which thread's open region has guarded a word of the image.
#![tactic(auto)]

mod calls;
mod logs;
#[cfg(test)]
mod rows;
mod table;

pub use logs::Logs;
