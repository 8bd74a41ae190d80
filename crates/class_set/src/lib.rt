//! Class sets: class files that were linked.
#![tactic(auto)]

mod arrays;
mod asked;
mod beginnings;
mod counts;
mod each_once;
mod fields;
mod hierarchy;
mod interfaces;
mod laws;
mod layouts;
mod linking;
mod literals;
mod marks;
mod members;
mod names;
mod set;
mod shapes;
mod statics;
mod subtypes;
mod supers;
mod types;

pub use beginnings::literals_are_short;
pub use laws::{
    a_small_set_is_looked_up, found_fields_are_where_they_say, linked_classes_are_consistent,
    linked_sets_are_consistent, literals_follow_the_first_objects, made_arrays_are_known,
    names_of_linked_classes_differ, no_class_is_above_itself, roots_of_linked_sets_differ,
    shapes_can_be_written, two_small_files_are_linked,
};
pub use linking::link;
pub use set::ClassSet;
pub use statics::{Constant, Static};
