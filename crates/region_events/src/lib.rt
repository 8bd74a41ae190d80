//! What a thread's failure-atomic regions do, as events of the stop theorem and acts of a plain
//! run.
#![tactic(auto)]

mod laws;

pub use laws::{
    calls_leave_logs, logs_stand_at_the_start, regions_are_events, regions_keep_the_rules,
};
