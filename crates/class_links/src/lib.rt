//! Which class files link to a class set: their superclasses and superinterfaces are there, of the right sort, and make no circle
//! (JVMS 4.1, 5.3.5).
#![tactic(auto)]

mod built_in;
mod classes;
mod interfaces;
mod kept;
mod laws;
mod linking;
mod names;
mod refusal;
mod supers;

pub use kept::keep_files;
pub use laws::{files_that_link_break_nothing, one_refusal_only};
pub use linking::check_links;
pub use names::{class_name, is_final, is_interface, name_of, super_of};
pub use refusal::LinkRefusal;
