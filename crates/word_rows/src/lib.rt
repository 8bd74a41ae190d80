//! Rows of the words of a command, by public calls alone.
#![tactic(auto)]

#[cfg(test)]
mod rows;
