//! Rows of the types at the bottom, of plain heaps and their graphs, of walks of graphs, and of which class files link, by public calls alone. What is wanted is worked
//! out by hand.
#![tactic(auto)]

#[cfg(test)]
mod base;
#[cfg(test)]
mod class_sets;
#[cfg(test)]
mod heaps;
#[cfg(test)]
mod links;
#[cfg(test)]
mod spaces;
#[cfg(test)]
mod walks;
