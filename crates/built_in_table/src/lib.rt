//! The built-in classes as a table: their names, their superclasses, and the members that they declare.
#![tactic(auto)]

mod built_in;

pub use built_in::{BuiltIn, Member, Slot, built_in_classes};
