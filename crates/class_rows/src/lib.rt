//! Class files and parts of them whose meaning is known from outside, for the tests of each crate that reads or writes them, and
//! listings.
#![tactic(auto)]

mod fixtures;

pub use fixtures::{CLASS_A, HANDS, MIXED, SEVERAL};

#[cfg(test)]
mod annotation_attributes;
#[cfg(test)]
mod classes;
#[cfg(test)]
mod code_attributes;
#[cfg(test)]
mod codes;
#[cfg(test)]
mod descriptors;
#[cfg(test)]
mod lines_of_listings;
#[cfg(test)]
mod listings;
#[cfg(test)]
mod pools;
