//! An image is opened for a class set of any shape.
#![tactic(auto)]

mod appending;
mod laws;
mod numbering;
mod opening;
mod preparing;
mod recovering;
mod unopened;

pub use first_spaces::{FirstSpaces, a_run_can_begin_over_recovered_images};
pub use laws::{
    opened_images_open_again, ready_directories_had_room, stored_directories_lack_no_room,
};
pub use opening::{FoundImage, OpenedImage, complete, find_for};
pub use unopened::Unopened;
