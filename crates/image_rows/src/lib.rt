//! Rows of the image side, by public calls alone, on images in memory: the device, the memory over it, and
//! the layout. The numbers are worked out by hand.
#![tactic(auto)]

#[cfg(test)]
mod device;
#[cfg(test)]
mod fixture;
#[cfg(test)]
mod layout;
#[cfg(test)]
mod memory;
