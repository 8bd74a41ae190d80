//! What rows of class sets share: sets of listings, and their opening graphs without nodes. For tests alone.
#![tactic(auto)]

mod sets;

pub use sets::{linked, null_opening};
