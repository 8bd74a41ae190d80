//! The heap of two spaces with which a run over a recovered image begins.
#![tactic(auto)]

mod adding;
mod first;
mod items;
mod laws;
mod parts;

pub use first::FirstSpaces;
pub use laws::{a_run_can_begin_over_recovered_images, conversions_can_begin_at_the_first_heap};
pub use parts::{FirstField, FirstObjects, SpacesParts, SpacesTables};
