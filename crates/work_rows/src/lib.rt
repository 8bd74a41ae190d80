//! Rows of the workload's classes, by public calls alone.
#![tactic(auto)]

#[cfg(test)]
mod classes;
