//! Whether an act may come next, by what an audit keeps beside the plain run, and what is kept then.
#![tactic(auto)]

mod kept;

pub use kept::Kept;
