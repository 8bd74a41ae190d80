//! Class files from a listing of a source.
#![tactic(auto)]

mod assembling;

pub use assembling::put_class_of;
