//! The monitors that threads hold.
#![tactic(auto)]

mod index;
mod key;
mod monitor;
mod monitors;

pub use monitor::{Enter, Monitor, NotOwner};
pub use monitors::{MOST_MONITORS, Monitors};
