//! The rules of persistence as tests of one act, each exact for its rule of plain runs. Laws alone.
#![tactic(auto)]

mod laws;

pub use laws::{
    acts_keep_what_is_durable_closed, tests_of_acts_are_exact, tests_of_regions_are_exact,
    tests_of_wishes_are_exact,
};
