//! How the top call ends: its statuses, with their numbers and texts, and the names in them.
#![tactic(auto)]

mod faults;
mod laws;
mod links;
mod names;
mod room;
mod status;
mod texts;

pub use faults::{main_status, status_of_fault, thrown_status, uncaught_status};
pub use laws::{lost_methods_are_told, names_are_whole, statuses_stand_at_their_stages};
pub use room::NameRoom;
pub use status::{NewReason, Status};
pub use texts::status_text;
