//! Rows of the heap of two spaces under the shared steps, by public calls alone: requests on objects in every stage,
//! with moves of the objects between them. What is wanted is worked out by hand.
#![tactic(auto)]

#[cfg(test)]
mod asks;
#[cfg(test)]
mod begin;
#[cfg(test)]
mod classes;
#[cfg(test)]
mod moves;
#[cfg(test)]
mod play;
#[cfg(test)]
mod rows;
#[cfg(test)]
mod steps;
#[cfg(test)]
mod world;
