//! Threads of a machine beside each other: what an event of one leaves of all others, and that its
//! run is stuck exactly where each that lives waits in the plain world. Laws alone; no code.
#![tactic(auto)]

mod laws;

pub use laws::{
    claimers_convert, full_rows_end_runs, machines_end_stuck, others_keep_theirs, stuck_runs_end,
    tested_waits_are_stuck, threads_wait_as_they_ask,
};
// what crates above name of the laws below
pub use machine_ends::{
    Doing, acts_meet_no_fault, calls_of_regions_lower_the_measure, each_stop_is_allowed,
    events_go_on_as_plain_runs, events_keep_lines, events_keep_runs, events_take_work,
    lines_stay_unwritten, machines_ask_as_plain_runs, machines_end_by_their_faults,
    machines_finish_with_their_threads, quiet_events_lower_the_measure, refusals_fill_the_image,
};
