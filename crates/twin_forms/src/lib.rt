//! One heap of objects that lie in volatile words, in lines of an image, or in both: what is said of it.
#![tactic(auto)]

mod kinds;

pub use kinds::ShapeKinds;
