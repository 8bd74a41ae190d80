//! The frames of the plain machine, whose references are numbers of objects: the code of a class set,
//! and its duties; and the built-in methods as frames have them. Laws alone.
#![tactic(auto)]

mod laws;
mod native_laws;

pub use laws::{
    a_small_program_meets_all, answers_keep_frames_in_the_world, frames_hold_plain_values,
    later_worlds_keep_frames_in, programs_ask_what_is_fit, steps_keep_frames_in_the_world,
    threads_begin_in_the_world, turns_are_fit,
};
pub use native_laws::{
    built_in_methods_are_those_of_the_table, built_in_methods_go_alike, built_in_methods_keep_in,
    further_request_lists_are_those_of_the_rows, items_are_alike,
    machines_with_built_in_methods_go_alike, programs_with_built_in_methods_ask_what_is_fit,
    states_make_their_request_lists,
};
