//! The stop theorem: whatever the events of a run of many threads, each stop leaves what the acts
//! allow.
#![tactic(auto)]

mod invariant_laws;
mod kept_laws;
mod laws;
mod region_laws;
mod store_laws;

pub use invariant_laws::{a_stop_leaves_what_is_allowed, quiet_events_keep_stops};
pub use kept_laws::{histories_keep_order, plain_runs_are_orderly};
pub use laws::{
    a_run_starts_settled, events_keep_moments, every_stop_is_allowed,
    recovery_keeps_what_is_allowed, what_layers_do_are_events, wrong_orders_are_refused,
};
pub use region_laws::{logs_keep_stops, regions_keep_stops};
pub use store_laws::{sealed_groups_keep_stops, single_stores_keep_stops};
