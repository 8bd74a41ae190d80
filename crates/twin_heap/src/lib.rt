//! The heap: objects are born in volatile memory and move into lines of the image while they are used.
#![tactic(auto)]

mod access;
mod births;
mod heap;
mod marks;
mod moves;
mod opening;
mod queued;
mod residence;
mod stores;

pub use heap::TwinHeap;
