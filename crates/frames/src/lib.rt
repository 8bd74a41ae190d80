//! Frames of a thread over any type of references: decoded instructions, the tables that they run on, and
//! what turns and answers are.
#![tactic(auto)]

mod given;
mod laws;
mod op;
mod program;

pub use given::Given;
pub use laws::{
    answers_are_those_of_the_standard, native_methods_go_as_methods_do,
    private_instructions_are_those_of_the_standard, requests_are_those_of_the_standard,
    turns_and_answers_go_alike, turns_are_of_1024_instructions, turns_are_those_of_the_standard,
};
pub use op::{Link, Op};
pub use program::{
    Body, Catch, Class, Dispatch, Handler, Lookup, Method, Placed, Program, Selector, Table, Target,
};
