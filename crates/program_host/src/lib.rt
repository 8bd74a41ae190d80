//! The machine that the frames of a program have: its tables and the built-in methods, over the
//! references of the runtime.
#![tactic(auto)]

mod host;
mod laws;
mod methods;

pub use host::ProgramHost;
pub use laws::machines_correspond;
