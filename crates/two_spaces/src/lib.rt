//! One heap of objects over volatile words and lines of an image, as the steps of a shared world use it.
#![tactic(auto)]

mod laws;
mod objects;
mod spaces;
mod words;

pub use laws::{
    calls_of_the_image_show_the_same, forwards_move_keys, heaps_begin_whole,
    moves_follow_one_another, moves_show_the_same_world,
};
pub use spaces::{Static, TwoSpaces};
