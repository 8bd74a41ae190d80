//! With what a run over an opened image begins, and that each array that it asks to make is of a type that the
//! image's directory has. Laws alone.
#![tactic(auto)]

mod array_laws;
mod start_laws;

pub use array_laws::{
    asked_arrays_are_written, code_makes_written_arrays, runs_ask_for_their_arrays, turns_ask_so,
};
pub use start_laws::{
    agreeing_directories_have_the_classes_shapes, first_heaps_have_their_directory,
    first_machines_keep_stops, first_machines_keep_their_run, first_machines_keep_what_was_asked,
    first_machines_run_as_plain_runs, first_machines_show_their_world,
};
