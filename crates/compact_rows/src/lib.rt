//! Rows of images that are written anew, densely: words before and after, what comes of bad ones, and stops in each call.
#![tactic(auto)]

#[cfg(test)]
mod images;
#[cfg(test)]
mod outcomes;
#[cfg(test)]
mod stops;
#[cfg(test)]
mod words;
