//! When a machine of frames, a heap and the rest of a world stands for a plain run, and what steps and
//! answers make of it.
#![tactic(auto)]

mod laws;

pub use laws::{
    machines_go_on_as_plain_runs, moved_heaps_stand_for_the_same_run, volatile_machines_go_on,
    volatile_runs_end_by_their_faults,
};
