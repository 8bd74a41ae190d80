//! Rows of `check` and `dump`: what they print of images in memory, by public calls alone.
#![tactic(auto)]

#[cfg(test)]
mod images;
#[cfg(test)]
mod reports;
