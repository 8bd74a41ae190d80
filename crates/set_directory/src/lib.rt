//! Class sets as a directory asks them: their entries in order, and their classes by name.
#![tactic(auto)]

mod classes;
mod names;

pub use classes::SetClasses;
