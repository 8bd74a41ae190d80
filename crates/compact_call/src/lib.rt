//! An image is written anew, densely, to another one.
#![tactic(auto)]

mod compacting;
mod fault;
mod fresh;
pub mod laws;
mod old;
mod text;

pub use compacting::{Compacted, compact_images};
pub use fault::CompactFault;
pub use statuses::NewReason;
