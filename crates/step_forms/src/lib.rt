//! What a step of a shared world comes to and what it follows, and what many requests have in
//! common: numbers of references, narrowing,
//! throwing, and the initialisation of a class before its first use.
#![tactic(auto)]

mod initialising;
mod narrowing;
mod numbers;
mod stepped;
mod throwing;

pub use initialising::initialise_first;
pub use narrowing::narrow;
pub use numbers::{numbered, valued};
pub use stepped::Stepped;
pub use throwing::{throw, throw_class};
