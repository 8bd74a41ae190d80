//! The directory of an image, kept in memory: its entries are read, planned and appended.
#![tactic(auto)]

mod agreeing;
mod appending;
mod classes;
mod directory;
mod entries;
mod formatting;
mod laws;
mod names;
mod planning;
mod reading;
mod spelling;
mod stepping;

pub use appending::Append;
pub use classes::Classes;
pub use directory::Directory;
pub use entries::Entry;
pub use formatting::format_image;
pub use laws::{
    a_small_set_has_its_entries, appended_entries_stand, class_set_entries_can_be_planned,
    entries_continue, formatted_images_stand, others_leave_directories,
};
pub use planning::PlanFault;
pub use reading::{DirectoryFault, read_directory};
pub use stepping::Progress;
