//! The conversion of what an asked value reaches, one event at a time.
#![tactic(auto)]

mod begin;
mod claims;
mod convert;
mod copies;
mod flush;
mod laws;
mod looks;
mod next;
mod ready;
mod repairs;
mod seals;
mod slots;
mod work;

pub use begin::{Begun, begin_conversion};
pub use convert::convert_next;
pub use laws::{
    events_are_exact, events_take_work, lines_stay_unwritten_until_the_flush,
    seals_name_what_was_queued, steps_take_work, threads_wait_for_what_they_lack,
};
pub use seals::{is_member, seal};
