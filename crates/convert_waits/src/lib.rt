//! Why threads that convert objects don't wait for each other for ever: in a row of waits each wait
//! holds still, and once all live threads have waited in it none waits for a conversion. Laws alone;
//! no code.
#![tactic(auto)]

mod laws;

pub use laws::{
    conversions_are_never_stuck, deadlocks_are_stuck, passes_fill_rows, rows_begin_and_end,
    stuck_runs_wait_plainly, waits_keep_rows,
};
