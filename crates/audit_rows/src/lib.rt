//! Rows of audits, by public calls alone: histories of small programs, what they printed and the graphs that they left. What is
//! wanted is worked out by hand, from the program and the rules of plain runs.
#![tactic(auto)]

#[cfg(test)]
mod histories;
#[cfg(test)]
mod rows;
