//! Rows of views: what readers are told of acts that a writer saw. What is wanted is worked out by hand.
#![tactic(auto)]

#[cfg(test)]
mod fixture;
#[cfg(test)]
mod launches;
#[cfg(test)]
mod rows;
