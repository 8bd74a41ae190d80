//! The audit of a history: whether its acts are a plain run of a class set from an opening graph, whether they print these
//! bytes, and whether the graph is the one after the kept list that a word picks.
#![tactic(auto)]

mod audits;
mod beginning;
mod endings;
mod mains;
mod picks;

pub use audit_verdicts::Verdict;
pub use audits::audit_run;
pub use class_code::{DecodeRefusal, accepted_sets_have_room};
pub use picks::words_pick_by_threads;
pub use program_launch::{Main, NoMain, find_main};
