//! The acts that are told, as one history that exists in the proofs alone: who has seen a beginning of it holds a `Front`.
#![tactic(auto)]

mod front;
mod law;

pub use front::{Front, Head, open};
