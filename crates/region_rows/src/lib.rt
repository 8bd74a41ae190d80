//! Rows of the undo log of regions and of the recovery, by public calls alone, on images in memory: what a stop within each
//! call leaves of a region, and what is found in images, whole and broken ones.
#![tactic(auto)]

#[cfg(test)]
mod directory_rows;
#[cfg(test)]
mod images;
#[cfg(test)]
mod recovery;
#[cfg(test)]
mod regions;
