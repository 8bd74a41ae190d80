//! A value that workers take one after another, in the order of their tickets.
#![tactic(auto)]

mod kept;
mod pass;
mod rule;
mod steps;
mod turnstile;
mod view;

pub use kept::Kept;
pub use pass::Pass;
pub use turnstile::Turnstile;
pub use view::{Hand, Phase, View};

#[cfg(test)]
mod tests;
