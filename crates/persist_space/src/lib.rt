//! The lines of an image that no object has taken yet.
#![tactic(auto)]

mod space;

pub use space::PersistSpace;
