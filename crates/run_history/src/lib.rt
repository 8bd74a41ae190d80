//! The history of a run: its acts in order, what they do to the plain world, and which graphs a stop after them may leave.
#![tactic(auto)]

mod act;
mod acts;
pub mod laws;
mod open_guard;
mod plain;
pub mod rows;
mod watcher;

pub use act::{Act, Op, PlainKey, Stage};
pub use acts::Acts;
pub use plain::{Monitor, Progress};
pub use watcher::{NoWatch, Watcher};
