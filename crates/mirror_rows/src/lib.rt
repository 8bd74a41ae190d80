//! Rows of a mirror on images in memory: how it is paired, halves that fail, and what stops leave.
#![tactic(auto)]

#[cfg(test)]
mod failing;
#[cfg(test)]
mod fixture;
#[cfg(test)]
mod stops;
