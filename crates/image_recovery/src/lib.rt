//! An image that was stopped is recovered: the entries of its logs are put back, its graph is found, and its logs are emptied.
#![tactic(auto)]

mod checking;
mod clearing;
mod formatting;
mod front;
mod putting;
mod recovering;
mod recovery;
mod spots;
mod superblock;

pub use checking::check_logs;
pub use clearing::empty_logs;
pub use putting::put_back_logs;
pub use recovery::{Recovered, recover};
pub use superblock::read_super;
