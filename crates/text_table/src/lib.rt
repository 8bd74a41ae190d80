//! Distinct texts by number.
#![tactic(auto)]

mod sorted;
mod texts;

pub use sorted::SortedTexts;
pub use texts::Texts;
