//! Whatever a machine of threads over a shared heap does: its heap stays whole and shows the world of its acts,
//! its acts may come next, each stop is allowed, and its frames go on as the plain run does. Laws alone.
#![tactic(auto)]

mod ask_laws;
mod heap_laws;
mod run_laws;
mod stop_laws;

pub use ask_laws::{
    each_act_may_come, events_keep_what_was_asked, machines_start_with_nothing_asked,
};
pub use heap_laws::events_keep_heaps;
pub use run_laws::{
    each_stop_is_allowed, events_go_on_as_plain_runs, events_keep_runs, machines_ask_as_plain_runs,
};
pub use stop_laws::{
    events_keep_stops, machines_start_with_allowed_stops, opened_images_start_machines,
};
// what crates above name of the forms below
pub use machine_forms::Doing;
