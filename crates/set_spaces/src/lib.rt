//! The parts of the first heap of a class set over an image with a directory.
#![tactic(auto)]

mod fields;
mod heap;
mod objects;
mod parts;
mod roots;
mod tables;

pub use parts::spaces_parts;
// what crates above name of the spaces
pub use two_spaces::TwoSpaces;
