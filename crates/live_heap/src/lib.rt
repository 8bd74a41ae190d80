//! What is seen of a run whose acts are told one after another: the plain heap, and what may be asked of it.
#![tactic(auto)]

mod copies;
mod durable;
mod fitting;
mod heard;
mod live;
mod looks;
mod paths;
mod views;
mod walk;

pub use heard::Heard;
pub use live::Live;
pub use views::{Followed, Look};
