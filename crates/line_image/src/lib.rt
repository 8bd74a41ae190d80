//! A device of lines of eight words: the trait of an image, what a stop leaves of one, and an image in memory.
#![tactic(auto)]

mod closed;
mod crash;
mod effect;
mod image;
mod laws;
mod memory;
mod words;

pub use closed::ClosedImage;
pub use effect::{Done, Effect};
pub use image::{Image, ImageFailed};
pub use laws::laws_of_stops;
pub use memory::{Fails, MemoryImage};
