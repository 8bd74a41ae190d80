//! The run of a program's threads by threads of the host, each with some of them, over one turnstile.
#![tactic(auto)]

mod alone;
mod bells;
mod crew;
mod desk;
mod ends;
mod hall;
mod halts;
mod job;
mod locked;
mod meeting;
mod names;
mod notes;
mod opening;
mod run;
mod seat;
mod waiting;

pub use durable_run::{
    Halt, Run, RunEnd, SharedHeap, Stepped, each_stop_is_allowed, events_keep_lines, is_live,
    lines_stay_unwritten, others_keep_theirs, quiet_steps_are_few, run_threads, step,
};
pub use ends::Left;
pub use meeting::MeetingGate;
pub use names::{Naming, Sharing};
pub use run::run_all;
pub use shared_objects::Rest;
