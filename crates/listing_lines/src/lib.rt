//! Listings of class files, line by line.
//!
//! A listing is ASCII lines, each of which begins, ends or goes on with a class, or says nothing. This crate says what each line
//! means by itself; what lines mean together is another crate's part.
#![tactic(auto)]

mod directives;
mod instructions;
mod laws;
mod lines;
mod mnemonics;
mod numbers;
mod operands;
mod reading;
mod refusal;
mod texts;
mod words;

pub use laws::{
    each_line_ends_in_a_new_line, each_line_has_its_meaning, each_wrong_line_has_its_fault,
};
pub use lines::{Instruction, KeyLabel, Line, MemberKind, MemberName, Wanted};
pub use reading::read_lines;
pub use refusal::{LineRefusal, ListingFault};
