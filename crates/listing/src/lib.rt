//! Class files from listings.
//!
//! A listing is a text with a line for each part of a class, and is assembled to class files of version 52.0. Its lines are those of
//! `listing_lines`.
#![tactic(auto)]

mod bodies;
mod classes;
mod code;
mod error;
mod handlers;
mod labels;
mod laws;
mod marks;
mod members;
mod pool;
mod roots;
mod structure;

pub use classes::assemble;
pub use error::ListingError;
pub use laws::{
    bad_listings_are_refused, codes_are_assembled, tables_and_roots_are_assembled,
    the_smallest_class_is_assembled,
};
