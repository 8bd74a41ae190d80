//! One event of a thread over a shared heap: the step of its request, and what makes durable what it
//! stores; or what it waits for. Whatever happens, a stop leaves what the acts allow.
#![tactic(auto)]

mod converting;
mod events;
mod laws;
mod parts;
mod quick;
mod regions;
mod remembering;
mod running;
mod storing;
mod work_laws;

pub use convert_waits::{passes_fill_rows, rows_begin_and_end};
pub use events::{Event, Halt};
pub use machine_threads::{
    each_stop_is_allowed, events_keep_lines, full_rows_end_runs, lines_stay_unwritten,
    machines_ask_as_plain_runs, machines_end_stuck, machines_finish_with_their_threads,
    others_keep_theirs, tested_waits_are_stuck,
};
pub use quick::{
    class_of, is_free, is_initialised, only_stores_and_ends_are_under_way, pause, read_element,
    read_field, read_length, read_static, store_element, store_field,
};
pub use running::event;
pub use shared_heap::SharedHeap;
pub use work_laws::quiet_steps_are_few;
