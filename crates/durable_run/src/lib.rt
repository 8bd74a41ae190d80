//! The run of a program over a heap whose objects are made durable: the frames of its threads, and
//! the events by which what they ask is done.
#![tactic(auto)]

mod apart;
mod events;
mod parts;
mod passes;
mod quick;
mod run;
mod runs;
mod steps;

pub use apart::{Begun, Stretch, begin_started, begin_turn, step_asked, step_begun, step_stretch};
pub use machine::{
    Halt, SharedHeap, each_stop_is_allowed, events_keep_lines, lines_stay_unwritten,
    others_keep_theirs, quiet_steps_are_few,
};
pub use parts::is_live;
// what crates above name of private steps
pub use private_steps::Frames;
pub use run::Run;
pub use runs::{RunEnd, ended, run_threads};
pub use steps::{Stepped, step};
