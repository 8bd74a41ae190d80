//! The plain run in code: acts are followed, each that of the plain step for its thread.
#![tactic(auto)]

mod awaiting;
mod beginning;
mod foreseeing;
mod kinds;
mod lanes;
mod laws;
mod monitored;
mod nowhere;
mod plain;
mod printing;
mod same;
mod trying;
mod world;

pub use beginning::Beginning;
pub use lanes::Lane;
pub use laws::machines_begin;
pub use plain::Plain;
pub use world::PlainWorld;
