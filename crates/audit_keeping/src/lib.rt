//! What an audit keeps of persistence, act by act, and by which it decides which act may come next.
#![tactic(auto)]

mod beginning;
mod keeping;
mod laws;
mod walking;
mod wishes;

pub use keeping::{Asked, Guarded, Keeping, Owed};
pub use laws::{
    keeping_begins, what_is_kept_decides_acts, what_is_kept_goes_on, what_is_kept_is_known,
};
