//! The heap of one volatile space: objects that never move, each in words of its own.
#![tactic(auto)]

mod failing;
mod first;
mod laws;
mod objects;
mod parts;
mod placing;
mod space;
mod words;

pub use failing::NoFirstHeap;
pub use laws::{parts_of_class_sets_can_be_first, steps_can_begin_at_the_first_heap};
pub use parts::{FirstConstant, FirstParts, FirstStatic};
pub use space::OneSpace;
pub use words::{item_of, word_of_item};
