//! Rows of turns and replies, by the public calls of frames and of a program's host alone: small programs, and what
//! they ask in turn. What is wanted is worked out by hand from the instructions' rules (JVMS 6.5).
#![tactic(auto)]

#[cfg(test)]
mod asked;
#[cfg(test)]
mod code;
#[cfg(test)]
mod faults;
#[cfg(test)]
mod heap;
#[cfg(test)]
mod play;
#[cfg(test)]
mod programs;
#[cfg(test)]
mod values;
