//! Rows of plain runs in code, by public calls alone: which act may come next. What is wanted is worked
//! out by hand, from the program and the rules of the instructions (JVMS 5.5, 6.5).
#![tactic(auto)]

#[cfg(test)]
mod fixture;
#[cfg(test)]
mod play;
#[cfg(test)]
mod rows;
