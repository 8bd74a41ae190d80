//! Rows of conversions, by public calls alone, over images in memory: what each event answers by stated choices of
//! threads, what is in the image afterwards, and what a stop within each call leaves.
#![tactic(auto)]

#[cfg(test)]
mod rows;
#[cfg(test)]
mod world;
