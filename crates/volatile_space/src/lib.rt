//! A space of words in volatile memory, which are taken from its front on.
#![tactic(auto)]

mod space;

pub use space::VolatileSpace;
