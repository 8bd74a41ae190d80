//! Rows of what is seen of a run, and of beginnings of its acts. What is wanted is worked out by hand.
#![tactic(auto)]

#[cfg(test)]
mod fixture;
#[cfg(test)]
mod rows;
