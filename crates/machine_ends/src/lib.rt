//! How the plain run of a machine over a shared heap ends, that its acts met no fault, which lines its objects
//! take, and the work that is left. Laws alone.
#![tactic(auto)]

mod laws;
mod line_laws;

pub use laws::{
    acts_meet_no_fault, machines_end_by_their_faults, machines_finish_with_their_threads,
};
pub use line_laws::{
    calls_of_regions_lower_the_measure, events_keep_lines, events_take_work, lines_stay_unwritten,
    quiet_events_lower_the_measure, refusals_fill_the_image,
};
// what crates above name of the laws below
pub use machine_laws::{
    Doing, each_stop_is_allowed, events_go_on_as_plain_runs, events_keep_runs,
    machines_ask_as_plain_runs,
};
