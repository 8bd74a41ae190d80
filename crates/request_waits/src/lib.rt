//! What a request of a thread waits for, read off a shared world: its step isn't made.
#![tactic(auto)]

mod waits;

pub use waits::wait_of;
